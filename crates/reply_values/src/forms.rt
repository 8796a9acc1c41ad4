//! The forms of entity tags, keys and ids of uploads.

ghost use Rattle.std.specs.Prelude.{◌↔◌, IsTrue};
ghost use Rattle.std.specs.Char.{is_ascii_graphic};
ghost use Rattle.std.specs.List.{AllPass};
ghost use Rattle.reply_values.specs.Forms.{IsEtag, IsKey, IsUploadId};

const LONGEST_ETAG: usize = 256;

const LONGEST_KEY: usize = 1024;

const LONGEST_UPLOAD_ID: usize = 1024;

/// Whether each byte is a visible ASCII character. No branch depends on a byte, so that many are looked at at once.
fn are_graphic(bytes: &[u8]) -> bool
    ensures { IsTrue result ↔ AllPass is_ascii_graphic bytes.now }
{
    let mut graphic = true;
    for byte in bytes {
        graphic &= byte.is_ascii_graphic();
    }
    graphic
}

/// Whether the text is an entity tag of 1 to 256 visible ASCII characters, quotes included. The limits are our own.
pub fn is_etag(text: &str) -> bool
    ensures { IsTrue result ↔ IsEtag text.now }
{
    let tag = text.as_bytes();
    !tag.is_empty() && tag.len() <= LONGEST_ETAG && are_graphic(tag)
}

/// Whether the text is a key of 1 to 1,024 bytes of UTF-8, the S3 API's limit.
pub fn is_key(text: &str) -> bool
    ensures { IsTrue result ↔ IsKey text.now }
{
    !text.is_empty() && text.len() <= LONGEST_KEY
}

/// Whether the text is the id of an upload in parts, of 1 to 1,024 bytes. The limit is our own.
pub fn is_upload_id(text: &str) -> bool
    ensures { IsTrue result ↔ IsUploadId text.now }
{
    !text.is_empty() && text.len() <= LONGEST_UPLOAD_ID
}
