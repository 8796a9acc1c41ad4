//! What an element holds, by the parts that are looked for in it.

ghost use Rattle.std.specs.Prelude.{◌≡◌, ◌≤◌, ◌∷◌, ℕ, List, [], Option, None, IfOk, OnOk, length};
ghost use Rattle.reply_xml.specs.declared.elements.Element.{Element};
ghost use Rattle.reply_xml.specs.Contents.{Content, Only};
ghost use Rattle.reply_xml.specs.Documents.{IsOf};
ghost use Rattle.reply_xml.specs.Breaks.{Breaks, BreaksElement, BreaksIn, IfBroken, IsMissing};
ghost use Rattle.reply_xml.specs.Faults.{IfRefused, IsFault};
ghost use Rattle.reply_xml.specs.Fits.{HoldsWell, ReadsWell};
ghost use Rattle.reply_xml.specs.Places.{BeginsOtherwise, HasBytesBehind};
ghost use Rattle.reply_xml.specs.Reading.{Advances, HoldsAs, HoldsNone, ReadsAs, ReadsNone, Stops};
ghost use Rattle.reply_xml.specs.Tables.{IsFresh, IsParentOf, Table, first_missing};

use crate::faults::DocFault;
use crate::reader::Reader;
use crate::tags::{Child, Tag};
use std::alloc::Global;

/// The parts of an element that were found so far. A document is the list of the parts of its root.
pub trait Parts: Drop {
    type Whole: Drop;

    ghost left: { Self → Content → Self.Whole → Type 0 };

    // The elements that are looked for.
    ghost table: { Self → Table };

    // Elements that may stand once were found exactly where they stood in front.
    ghost knows: { Self → List (Option Element) → Type 0 };

    /// Takes in an element that begins inside, and passes over one that is not looked for.
    fn take<'a>(&mut self, reader: &mut Reader<'a>, child: &Child<'a>) -> Result<(), DocFault>
        ensures value { OnOk result (Advances (left self.old) (left self.new)
            child.now reader.old.rest.now reader.new.rest.now) }
        ensures no_longer { length reader.new.rest.now ≤ length reader.old.rest.now }
        ensures refused { IfRefused result (Stops (left self.old) child.now reader.old.rest.now) }
        ensures size { reader.new.size ≡ reader.old.size }
        ensures same_table { table self.new ≡ table self.old }
        ensures known { OnOk result ((front : List (Option Element)) → knows self.old front →
            knows self.new (child.now.element ∷ front)) }
        ensures well { OnOk result ((front : List (Option Element)) → knows self.old front →
            ReadsWell (table self.old) front child.now reader.old.rest.now reader.new.rest.now) }
        ensures broken { IfBroken result (λ reason. (front : List (Option Element)) → knows self.old front →
            BreaksElement reader.old.size reason (table self.old) front child.now reader.old.rest.now) };

    /// The value, where nothing more stands inside; the first part that is missing otherwise.
    fn whole(self, alloc: Global) -> Result<Self::Whole, DocFault>
        ensures value { IfOk result (λ whole. (text : List ℕ) → left self (Only text) whole) }
        ensures refused { IfRefused result ((text : List ℕ) (whole : Self.Whole) → ¬ (left self (Only text) whole)) }
        ensures complete { OnOk result ((front : List (Option Element)) → knows self front →
            first_missing (table self) front ≡ None) }
        ensures missing { IfBroken result (λ reason. (front : List (Option Element)) → knows self front →
            IsMissing (table self) front reason) };
}

impl<'a> Reader<'a> {
    /// What stands inside an element, up to its end.
    pub fn inside<P: Parts>(&mut self, parent: &Tag<'a>, parts: P) -> Result<P::Whole, DocFault>
        requires { P.knows parts [] }
        ensures value { IfOk result (λ whole. HoldsAs (P.left parts)
            parent.now self.old.rest.now self.new.rest.now whole) }
        ensures no_longer { length self.new.rest.now ≤ length self.old.rest.now }
        ensures refused { IfRefused result (HoldsNone (P.left parts) parent.now self.old.rest.now) }
        ensures size { self.new.size ≡ self.old.size }
        ensures well { OnOk result (HoldsWell (P.table parts) parent.now self.old.rest.now self.new.rest.now) }
        ensures broken { IfBroken result (λ reason.
            BreaksIn self.old.size reason (P.table parts) [] parent.now self.old.rest.now) }
    {
        let mut parts = parts;
        'children: while let Some(child) = self.next_child(parent)? {
            parts.take(self, &child)?;
        }
        let whole = parts.whole(self.alloc)?;
        self.end(parent)?;
        Ok(whole)
    }

    /// The value of an element that begins here.
    pub fn element<P: Parts>(&mut self, child: &Child<'a>, parts: P) -> Result<P::Whole, DocFault>
        requires { P.knows parts [] }
        ensures value { IfOk result (λ whole. ReadsAs (P.left parts)
            child.now self.old.rest.now self.new.rest.now whole) }
        ensures no_longer { length self.new.rest.now ≤ length self.old.rest.now }
        ensures refused { IfRefused result (ReadsNone (P.left parts) child.now self.old.rest.now) }
        ensures size { self.new.size ≡ self.old.size }
        ensures well { OnOk result ((table : Table) (front : List (Option Element)) (of : Element) →
            IsParentOf table child.now.element of (P.table parts) → IsFresh table front child.now.element →
            ReadsWell table front child.now self.old.rest.now self.new.rest.now) }
        ensures broken { IfBroken result (λ reason. (table : Table) (front : List (Option Element)) (of : Element) →
            IsParentOf table child.now.element of (P.table parts) → IsFresh table front child.now.element →
            BreaksElement self.old.size reason table front child.now self.old.rest.now) }
    {
        let tag = self.tag(child)?;
        self.inside(&tag, parts)
    }
}

/// The value of a document with this root.
pub fn read_document<P: Parts>(
    alloc: Global,
    doc: &[u8],
    root: &str,
    parts: P,
) -> Result<P::Whole, DocFault>
    requires { P.knows parts [] }
    ensures value { IfOk result (λ whole. IsOf root.now (P.left parts) doc.now whole) }
    ensures refused { IfRefused result ((whole : P.Whole) → ¬ (IsOf root.now (P.left parts) doc.now whole)) }
    ensures broken { IfBroken result (Breaks root.now (P.table parts) doc.now) }
    ensures other_root { (place : ℕ) → BeginsOtherwise root.now doc.now place →
        result ≡ Err (DocFault.NotADocument place) }
    ensures behind { (place : ℕ) → HasBytesBehind root.now (P.left parts) doc.now place →
        IsFault result (DocFault.NotADocument place) }
{
    let (mut reader, tag) = match Reader::open(alloc, doc, root) {
        Ok(parts) => parts,
        Err(fault) => return Err(fault),
    };
    let whole = reader.inside(&tag, parts)?;
    reader.close(doc.len())?;
    Ok(whole)
}
