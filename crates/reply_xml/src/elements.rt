//! The elements that are read, by their names.

ghost use Rattle.std.specs.Prelude.{◌≡◌};
ghost use Rattle.std.specs.Str.{IsUtf8};
ghost use Rattle.reply_xml.specs.Elements.{element_named};

/// The elements that are read, known by their names as the S3 API writes them.
#[derive(Debug, Clone, Copy, PartialEq, Eq)]
pub enum Element {
    Code,
    Message,
    IsTruncated,
    EncodingType,
    NextContinuationToken,
    Contents,
    Key,
    LastModified,
    ETag,
    Size,
    CommonPrefixes,
    Prefix,
    Buckets,
    Bucket,
    Name,
    CreationDate,
    UploadId,
}

#[tactic(auto, unfolding(crate::specs::Elements::element_named, crate::specs::Elements::element_names))]
fn element_of(name: &str) -> Option<Element>
    ensures { result ≡ element_named name.now }
{
    match name {
        "Code" => Some(Element::Code),
        "Message" => Some(Element::Message),
        "IsTruncated" => Some(Element::IsTruncated),
        "EncodingType" => Some(Element::EncodingType),
        "NextContinuationToken" => Some(Element::NextContinuationToken),
        "Contents" => Some(Element::Contents),
        "Key" => Some(Element::Key),
        "LastModified" => Some(Element::LastModified),
        "ETag" => Some(Element::ETag),
        "Size" => Some(Element::Size),
        "CommonPrefixes" => Some(Element::CommonPrefixes),
        "Prefix" => Some(Element::Prefix),
        "Buckets" => Some(Element::Buckets),
        "Bucket" => Some(Element::Bucket),
        "Name" => Some(Element::Name),
        "CreationDate" => Some(Element::CreationDate),
        "UploadId" => Some(Element::UploadId),
        _ => None,
    }
}

/// The element of that name, compared whole.
pub(crate) fn element_named(name: &[u8]) -> Option<Element>
    requires { IsUtf8 name.now }
    ensures { result ≡ element_named name.now }
{
    element_of(unsafe { std::str::from_utf8_unchecked(name) })
}
