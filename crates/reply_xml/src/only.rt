//! Elements that may be there once.

ghost use Rattle.std.specs.Prelude.{◌≡◌, ◌≤◌, ◌∷◌, ℕ, List, [], IfOk, OnOk, length, true, None, Some, Option, IsSome};
ghost use Rattle.reply_xml.specs.declared.elements.Element.{Element};
ghost use Rattle.reply_xml.specs.Children.{IsLeafOf};
ghost use Rattle.reply_xml.specs.Contents.{Content, is_the};
ghost use Rattle.reply_xml.specs.Breaks.{BreaksElement, IfBroken};
ghost use Rattle.reply_xml.specs.Faults.{IfRefused};
ghost use Rattle.reply_xml.specs.Fits.{ReadsWell};
ghost use Rattle.reply_xml.specs.Reading.{Advances, LeafLeft, Stops};
ghost use Rattle.reply_xml.specs.Tables.{Done, ExactlyOnce, IsFound, Row, Table, form_in, stands_alone};

use crate::elements::Element;
use crate::faults::DocFault;
use crate::leaves::Leaf;
use crate::parts::Parts;
use crate::reader::Reader;
use crate::tags::Child;
use std::alloc::Global;

/// Whether a tag is that of an element.
pub fn is_the(wanted: Element, child: Option<Element>) -> bool
    ensures { result ≡ is_the wanted child }
{
    match child {
        Some(child) => wanted as u8 == child as u8,
        None => false,
    }
}

impl<'a> Reader<'a> {
    /// Takes in an element that is the leaf looked for.
    pub fn take<L: Leaf>(
        &mut self,
        child: &Child<'a>,
        element: Element,
        found: &mut Option<L::Value>,
    ) -> Result<(), DocFault>
        requires { is_the element child.now.element ≡ true }
        ensures value { OnOk result (Advances (LeafLeft (L.spells element) element found.old)
            (LeafLeft (L.spells element) element found.new) child.now self.old.rest.now self.new.rest.now) }
        ensures first { OnOk result (found.old ≡ None) }
        ensures some { OnOk result (IsSome found.new) }
        ensures no_longer { length self.new.rest.now ≤ length self.old.rest.now }
        ensures refused { IfRefused result (Stops (LeafLeft (L.spells element) element found.old)
            child.now self.old.rest.now) }
        ensures size { self.new.size ≡ self.old.size }
        ensures well { OnOk result ((table : Table) (front : List (Option Element)) →
            form_in table element ≡ Some L.form → IsFound element found.old front →
            ReadsWell table front child.now self.old.rest.now self.new.rest.now) }
        ensures broken { IfBroken result (λ reason. (table : Table) (front : List (Option Element)) →
            form_in table element ≡ Some L.form → stands_alone table element ≡ true → IsFound element found.old front →
            BreaksElement self.old.size reason table front child.now self.old.rest.now) }
    {
        if found.is_some() {
            return Err(DocFault::Twice(element));
        }
        *found = Some(self.leaf::<L>(child, element)?);
        Ok(())
    }
}

/// The one leaf of a name that is looked for in an element.
#[derive(Drop)]
pub struct Only<L: Leaf> {
    pub element: Element,
    pub found: Option<L::Value>,
}

impl<L: Leaf> Parts for Only<L> {
    type Whole = L::Value;

    ghost left = { λ s content value. LeafLeft (L.spells s.element) s.element s.found content value };

    ghost table = { λ s. Row s.element ExactlyOnce (Some L.form) Done Done };

    ghost knows = { λ s front. IsFound s.element s.found front };

    fn take<'a>(&mut self, reader: &mut Reader<'a>, child: &Child<'a>) -> Result<(), DocFault> {
        if !is_the(self.element, child.element) {
            return reader.skip(child);
        }
        reader.take::<L>(child, self.element, &mut self.found)
    }

    fn whole(self, _: Global) -> Result<L::Value, DocFault> {
        let Only { element, found } = self;
        match found {
            Some(value) => Ok(value),
            None => Err(DocFault::Missing(element)),
        }
    }
}
