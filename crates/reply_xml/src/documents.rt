//! The front and the end of a document.

ghost use Rattle.std.specs.Prelude.{◌≡◌, ◌≢◌, ◌++◌, ◌<◌, ◌≤◌, ◌+◌, ◌-◌, ◌∷◌, ◌⊎◌, ℕ, Bool, List, []};
ghost use Rattle.std.specs.Prelude.{Err, IfOk, OnOk, IfErr, OnErr, MatchOption, codes, length, drop, take};
ghost use Rattle.std.specs.Bool.{MatchBool};
ghost use Rattle.reply_xml.specs.Contents.{Content};
ghost use Rattle.reply_xml.specs.Documents.{BeginsDocument, EndsAt, IsDocument, MayDeclare, NamesRoot, ReadsSpace};
ghost use Rattle.reply_xml.specs.Breaks.{Breaks, IfBroken, Stands};
ghost use Rattle.reply_xml.specs.Faults.{IfRefused};
ghost use Rattle.reply_xml.specs.Leaves.{LeavesDeclaration};
ghost use Rattle.reply_xml.specs.Places.{BeginsOtherwise, HasOtherRoot, LacksDeclaration, LacksName, LacksRoot};
ghost use Rattle.reply_xml.specs.Tables.{Table};
ghost use Rattle.reply_xml.specs.Tags.{NameEnds, ReadsTag};

use crate::elements::element_named;
use crate::faults::DocFault;
use crate::places::{common_front, is_same, is_utf8, utf8_front};
use crate::reader::Reader;
use crate::runs::{Sort, split_run};
use crate::tags::{Tag, after_tag_end, split_start};
use std::alloc::Global;

/// Levels of elements below the root.
const LEVELS: usize = 15;

/// The place of the first `?>`.
fn declaration_end(bytes: &[u8]) -> Option<usize>
    ensures { MatchOption result ((k : ℕ) → ¬ (EndsAt bytes.now k))
        (λ place. EndsAt bytes.now place × ((k : ℕ) → k < place → ¬ (EndsAt bytes.now k))) }
{
    for i in 1..bytes.len() {
        if bytes[i - 1] == b'?' && bytes[i] == b'>' {
            return Some(i - 1);
        }
    }
    None
}

/// Whether a declaration begins here.
fn at_declaration(bytes: &[u8]) -> bool
    ensures { MatchBool result ((more : List ℕ) × (bytes.now ≡ codes "<?" ++ more))
        ((more : List ℕ) → ¬ (bytes.now ≡ codes "<?" ++ more)) }
{
    match bytes {
        [b'<', b'?', ..] => true,
        _ => false,
    }
}

/// What follows `<?xml`, if that stands at the front.
fn after_opening(bytes: &[u8]) -> Option<&[u8]>
    ensures { MatchOption result ((after : List ℕ) → ¬ (bytes.now ≡ codes "<?xml" ++ after))
        (λ after. bytes.now ≡ codes "<?xml" ++ after.now) }
{
    match bytes {
        [b'<', b'?', b'x', b'm', b'l', after @ ..] => Some(after),
        _ => None,
    }
}

/// What follows the declaration, or all where there is none. An error is the number of bytes that are left where the
/// grammar fails.
fn after_declaration(bytes: &[u8]) -> Result<&[u8], usize>
    ensures value { IfOk result (λ rest. MayDeclare bytes.now rest.now) }
    ensures shorter { IfOk result (λ rest. length rest.now ≤ length bytes.now) }
    ensures left { IfErr result (λ left. left ≤ length bytes.now) }
    ensures refused { OnErr result ((rest : List ℕ) → ¬ (MayDeclare bytes.now rest)) }
    ensures leaves { IfErr result (λ left. LeavesDeclaration bytes.now left) }
{
    if !at_declaration(bytes) {
        return Ok(bytes);
    }
    let Some(after) = after_opening(bytes) else {
        return Err(bytes.len() - common_front(bytes, b"<?xml"));
    };
    let Some(end) = declaration_end(after) else {
        return Err(after.len() - utf8_front(after));
    };
    let Ok(_) = std::str::from_utf8(&after[..end]) else {
        return Err(after.len() - utf8_front(&after[..end]));
    };
    Ok(&after[end + 2..])
}

/// The name of the root and what follows it. An error is the number of bytes that are left where the grammar fails.
fn split_root<'a>(doc: &'a [u8], root: &str) -> Result<(&'a [u8], &'a [u8]), usize>
    ensures value { IfOk result (λ parts. NamesRoot root.now doc.now parts.1.now) }
    ensures named { IfOk result (λ parts. parts.0.now ≡ root.now) }
    ensures shorter { IfOk result (λ parts. length parts.1.now ≤ length doc.now) }
    ensures left { IfErr result (λ left. left ≤ length doc.now) }
    ensures refused { OnErr result ((closed : Bool) (rest : List ℕ) → ¬ (BeginsDocument root.now doc.now closed rest)) }
    ensures fails { IfErr result (λ left. BeginsOtherwise root.now doc.now (length doc.now - left)
        ⊎ LacksDeclaration doc.now (length doc.now - left)) }
    ensures other { (place : ℕ) → (o : HasOtherRoot root.now doc.now place) → result ≡ Err (length o.rest) }
    ensures bare { (place : ℕ) → (l : LacksRoot doc.now place) → result ≡ Err (length l.rest) }
    ensures nameless { (place : ℕ) → (l : LacksName doc.now place) → result ≡ Err (length l.rest) }
{
    let (_, start) = split_run(Sort::Space, doc);
    let at_space = after_declaration(start)?;
    let (_, at_root) = split_run(Sort::Space, at_space);
    let (name, rest) = split_start(at_root)?;
    if !is_same(name, root.as_bytes()) {
        return Err(rest.len());
    }
    Ok((name, rest))
}

impl<'a> Reader<'a> {
    /// Reads the bytes up to the content of the root.
    pub fn open(alloc: Global, doc: &'a [u8], root: &str) -> Result<(Reader<'a>, Tag<'a>), DocFault>
        ensures begins { IfOk result (λ parts. BeginsDocument root.now doc.now parts.1.closed parts.0.rest.now) }
        ensures room { IfOk result (λ parts. parts.1.room ≡ 15) }
        ensures named { IfOk result (λ parts. parts.1.name.now ≡ root.now) }
        ensures size { IfOk result (λ parts. parts.0.size ≡ length doc.now) }
        ensures shorter { IfOk result (λ parts. length parts.0.rest.now ≤ length doc.now) }
        ensures refused { IfRefused result ((closed : Bool) (rest : List ℕ) →
            ¬ (BeginsDocument root.now doc.now closed rest)) }
        ensures broken { IfBroken result (λ reason. (table : Table) → Breaks root.now table doc.now reason) }
        ensures other { (place : ℕ) → BeginsOtherwise root.now doc.now place →
            result ≡ Err (DocFault.NotADocument place) }
    {
        let (name, at_attributes) = match split_root(doc, root) {
            Ok(parts) => parts,
            Err(left) => return Err(DocFault::NotADocument(doc.len() - left)),
        };
        let (closed, rest) = match after_tag_end(at_attributes) {
            Ok(parts) => parts,
            Err(left) => return Err(DocFault::NotADocument(doc.len() - left)),
        };
        let reader = Reader {
            alloc,
            size: doc.len(),
            rest,
            sound: is_utf8(doc),
        };
        let tag = Tag {
            name,
            element: element_named(name),
            closed,
            room: LEVELS,
        };
        Ok((reader, tag))
    }

    /// White space up to the end of a document of so many bytes.
    pub fn close(&self, size: usize) -> Result<(), DocFault>
        requires { length self.now.rest.now ≤ size }
        ensures value { OnOk result (ReadsSpace self.now.rest.now []) }
        ensures refused { IfRefused result (¬ (ReadsSpace self.now.rest.now [])) }
        ensures behind { (more : List ℕ) → ReadsSpace self.now.rest.now more → more ≢ [] →
            result ≡ Err (DocFault.NotADocument (size - length more)) }
        ensures broken { IfBroken result (λ reason. (more : List ℕ) × ReadsSpace self.now.rest.now more × (more ≢ [])
            × Stands size (length more) reason) }
    {
        let (_, rest) = split_run(Sort::Space, self.rest);
        if !rest.is_empty() {
            return Err(DocFault::NotADocument(size - rest.len()));
        }
        Ok(())
    }
}
