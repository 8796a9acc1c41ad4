//! The documents of answers.

ghost use Rattle.std.specs.Prelude.{◌≡◌};
ghost use Rattle.service_answers.specs.Statuses.{refusal_code, refusal_status};

use crate::document::Document;
use crate::escapes::push_xml;
use object_table::Refusal;
use s3_model::OutOfMemory;
use std::alloc::Global;

/// The code of a refusal, as an Error document has it.
pub(crate) fn code_of(refusal: Refusal) -> &'static str
    ensures { result.now ≡ refusal_code refusal }
{
    match refusal {
        Refusal::NoSuchBucket => "NoSuchBucket",
        Refusal::NoSuchKey => "NoSuchKey",
        Refusal::NoSuchUpload => "NoSuchUpload",
        Refusal::PreconditionFailed => "PreconditionFailed",
        Refusal::InvalidRange => "InvalidRange",
        Refusal::InvalidPart => "InvalidPart",
        Refusal::EntityTooSmall => "EntityTooSmall",
        Refusal::InvalidArgument => "InvalidArgument",
    }
}

/// The status of a refusal.
pub(crate) fn status_of(refusal: Refusal) -> u16
    ensures { result ≡ refusal_status refusal }
{
    match refusal {
        Refusal::NoSuchBucket | Refusal::NoSuchKey | Refusal::NoSuchUpload => 404,
        Refusal::PreconditionFailed => 412,
        Refusal::InvalidRange => 416,
        Refusal::InvalidPart | Refusal::EntityTooSmall | Refusal::InvalidArgument => 400,
    }
}

/// Begins an element.
pub(crate) fn open(document: &mut Document, name: &str) {
    document.push("<");
    document.push(name);
    document.push(">");
}

/// Ends an element.
pub(crate) fn close(document: &mut Document, name: &str) {
    document.push("</");
    document.push(name);
    document.push(">");
}

/// Adds an element that holds a text.
pub(crate) fn push_element(document: &mut Document, name: &str, text: &str) {
    open(document, name);
    push_xml(document, text);
    close(document, name);
}

/// Adds an element that holds a time in microseconds.
pub(crate) fn push_time(document: &mut Document, name: &str, micros: u64) {
    open(document, name);
    document.push_time(micros);
    close(document, name);
}

/// The front of a document with this root.
pub(crate) fn begin(alloc: Global, root: &str) -> Document {
    let mut document = Document::make(alloc);
    document.push("<?xml version=\"1.0\" encoding=\"UTF-8\"?>\n<");
    document.push(root);
    document.push(" xmlns=\"http://s3.amazonaws.com/doc/2006-03-01/\">");
    document
}

/// The text of a document with this root, which ends here.
pub(crate) fn end(mut document: Document, root: &str) -> Result<String, OutOfMemory> {
    close(&mut document, root);
    document.into_text()
}

/// An Error document.
pub(crate) fn error(alloc: Global, code: &str, message: &str) -> Result<String, OutOfMemory> {
    let mut document = Document::make(alloc);
    document.push("<?xml version=\"1.0\" encoding=\"UTF-8\"?>\n<Error>");
    push_element(&mut document, "Code", code);
    push_element(&mut document, "Message", message);
    end(document, "Error")
}

/// A document whose root holds one text element beside the names of the object.
pub(crate) fn about_object(
    alloc: Global,
    root: &str,
    bucket: &str,
    key: &str,
    element: &str,
    text: &str,
) -> Result<String, OutOfMemory> {
    let mut document = begin(alloc, root);
    push_element(&mut document, "Bucket", bucket);
    push_element(&mut document, "Key", key);
    push_element(&mut document, element, text);
    end(document, root)
}

/// A document of a copy, with the time and the entity tag of what was made.
pub(crate) fn copied(
    alloc: Global,
    root: &str,
    micros: u64,
    etag: &str,
) -> Result<String, OutOfMemory> {
    let mut document = begin(alloc, root);
    push_time(&mut document, "LastModified", micros);
    push_element(&mut document, "ETag", etag);
    end(document, root)
}
