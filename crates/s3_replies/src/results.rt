//! The answers that have one value: an id of an upload or an entity tag.

ghost use Rattle.std.specs.Prelude.{◌≡◌, ℕ, List, Some, Err, IfOk, OnOk, codes};
ghost use Rattle.reply_xml.specs.Children.{HasLeaf, HasOnly, IsPlain};
ghost use Rattle.reply_xml.specs.declared.elements.Element.TheVariants as elements;
ghost use Rattle.reply_xml.specs.Documents.{IsOf};
ghost use Rattle.reply_xml.specs.Breaks.{Breaks, IfBroken};
ghost use Rattle.reply_xml.specs.Faults.{IfRefused, IsFault};
ghost use Rattle.reply_xml.specs.Tables.{Done, ExactlyOnce, Row};
ghost use Rattle.reply_xml.specs.Places.{BeginsOtherwise, HasBytesBehind};
ghost use Rattle.s3_replies.specs.Results.{copy_root, IsCompleted, IsCopied, IsCreated};
ghost use Rattle.s3_replies.specs.Results.{completed_table, copied_table, created_table};

use reply_xml::{DocFault, Element, FormedText, Leaf, Only, PlainText, read_document};
use s3_model::Text;
use std::alloc::Global;

/// The value of the one leaf of that name in a document with this root.
fn only_leaf<L: Leaf>(
    alloc: Global,
    doc: &[u8],
    root: &str,
    element: Element,
) -> Result<L::Value, DocFault>
    ensures value { IfOk result (IsOf root.now (HasOnly (L.spells element) element) doc.now) }
    ensures refused { IfRefused result ((value : L.Value) →
        ¬ (IsOf root.now (HasOnly (L.spells element) element) doc.now value)) }
    ensures broken { IfBroken result (Breaks root.now (Row element ExactlyOnce (Some L.form) Done Done) doc.now) }
    ensures other_root { (place : ℕ) → BeginsOtherwise root.now doc.now place →
        result ≡ Err (DocFault.NotADocument place) }
    ensures behind { (place : ℕ) → HasBytesBehind root.now (HasOnly (L.spells element) element) doc.now place →
        IsFault result (DocFault.NotADocument place) }
{
    let only: Only<L> = Only {
        element,
        found: None,
    };
    read_document(alloc, doc, root, only)
}

/// Reads the answer to CreateMultipartUpload, and answers the upload's id of 1 to 1,024 bytes.
pub fn read_created(alloc: Global, doc: &[u8]) -> Result<Text, DocFault>
    ensures value { IfOk result (IsCreated doc.now) }
    ensures refused { IfRefused result ((id : List ℕ) → ¬ (IsCreated doc.now id)) }
    ensures broken { IfBroken result (Breaks (codes "InitiateMultipartUploadResult") created_table doc.now) }
    ensures other_root { (place : ℕ) → BeginsOtherwise (codes "InitiateMultipartUploadResult") doc.now place →
        result ≡ Err (DocFault.NotADocument place) }
    ensures behind { (place : ℕ) →
        HasBytesBehind (codes "InitiateMultipartUploadResult") (HasLeaf elements.UploadId) doc.now place →
        IsFault result (DocFault.NotADocument place) }
{
    only_leaf::<FormedText>(
        alloc,
        doc,
        "InitiateMultipartUploadResult",
        Element::UploadId,
    )
}

/// Reads the answer to CompleteMultipartUpload, which has an entity tag of any form.
pub fn read_completed(alloc: Global, doc: &[u8]) -> Result<(), DocFault>
    ensures value { OnOk result ((etag : List ℕ) × IsCompleted doc.now etag) }
    ensures refused { IfRefused result ((etag : List ℕ) → ¬ (IsCompleted doc.now etag)) }
    ensures broken { IfBroken result (Breaks (codes "CompleteMultipartUploadResult") completed_table doc.now) }
    ensures other_root { (place : ℕ) → BeginsOtherwise (codes "CompleteMultipartUploadResult") doc.now place →
        result ≡ Err (DocFault.NotADocument place) }
    ensures behind { (place : ℕ) →
        HasBytesBehind (codes "CompleteMultipartUploadResult") (HasOnly IsPlain elements.ETag) doc.now place →
        IsFault result (DocFault.NotADocument place) }
{
    let _etag = only_leaf::<PlainText>(alloc, doc, "CompleteMultipartUploadResult", Element::ETag)?;
    Ok(())
}

/// Reads the answer to CopyObject, or where `part` is true to UploadPartCopy, and answers the entity tag.
pub fn read_copied(alloc: Global, doc: &[u8], part: bool) -> Result<Text, DocFault>
    ensures value { IfOk result (IsCopied part doc.now) }
    ensures refused { IfRefused result ((etag : List ℕ) → ¬ (IsCopied part doc.now etag)) }
    ensures broken { IfBroken result (Breaks (copy_root part) copied_table doc.now) }
    ensures other_root { (place : ℕ) → BeginsOtherwise (copy_root part) doc.now place →
        result ≡ Err (DocFault.NotADocument place) }
    ensures behind { (place : ℕ) → HasBytesBehind (copy_root part) (HasLeaf elements.ETag) doc.now place →
        IsFault result (DocFault.NotADocument place) }
{
    if part {
        return only_leaf::<FormedText>(alloc, doc, "CopyPartResult", Element::ETag);
    }
    only_leaf::<FormedText>(alloc, doc, "CopyObjectResult", Element::ETag)
}
