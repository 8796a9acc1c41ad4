//! The content types of file extensions.

ghost use Rattle.std.specs.Prelude.{◌≡◌, ◌==◌, ◌<◌, Some, length, map, slice_get};
ghost use Rattle.std.specs.List.{after_last};
ghost use Rattle.std.specs.Option.{option_copied};
ghost use Rattle.s3_model.specs.ContentTypes.{content_type_of, content_types, extension_of, type_of_extension};

use crate::cases::Cases;

fn extensions() -> Cases<16>
    ensures { map (λ row. row.now) result.names.now ≡ map (λ each. each.0) content_types }
{
    Cases {
        names: &[
            "txt", "html", "htm", "css", "csv", "js", "json", "xml", "pdf", "png", "jpg", "jpeg",
            "gif", "svg", "mp4", "mp3",
        ],
    }
}

/// What follows the last of the bytes that is `stop`, or all of them.
fn tail(bytes: &[u8], stop: u8) -> &[u8]
    ensures { result.now ≡ after_last (λ byte. byte == stop) bytes.now }
{
    let mut start = bytes.len();
    while start > 0 && bytes[start - 1] != stop {
        start -= 1;
    }
    &bytes[start..]
}

fn extension(path: &str) -> Option<&[u8]>
    ensures { option_copied result ≡ extension_of path.now }
{
    let name = tail(path.as_bytes(), b'/');
    if name.contains(&b'.') {
        Some(tail(name, b'.'))
    } else {
        None
    }
}

fn name_of_row(names: &[&'static str], row: u32) -> &'static str
    requires { row < length names.now }
    ensures { slice_get (map (λ name. name.now) names.now) row ≡ Some result.now }
{
    names[row as usize]
}

fn type_at(row: u32) -> &'static str
    requires { row < 16 }
    ensures { slice_get (map (λ each. each.1) content_types) row ≡ Some result.now }
{
    let types: [&'static str; 16] = [
        "text/plain",
        "text/html",
        "text/html",
        "text/css",
        "text/csv",
        "text/javascript",
        "application/json",
        "text/xml",
        "application/pdf",
        "image/png",
        "image/jpeg",
        "image/jpeg",
        "image/gif",
        "image/svg+xml",
        "video/mp4",
        "audio/mpeg",
    ];
    name_of_row(&types, row)
}

/// The type of an extension. The longest that has one has four bytes.
fn extension_type(extension: &[u8]) -> Option<&'static str>
    ensures { option_copied result ≡ type_of_extension extension.now }
{
    if extension.len() > 4 {
        return None;
    }
    let mut lower = [0u8; 4];
    let lower = &mut lower[..extension.len()];
    lower.copy_from_slice(extension);
    lower.make_ascii_lowercase();
    let Ok(name) = str::from_utf8(lower) else {
        return None;
    };
    match extensions().find(name) {
        Some(row) => Some(type_at(row)),
        None => None,
    }
}

/// The content type that a file's name stands for: what follows the last `.` of its last name is looked up without
/// regard to the case of ASCII letters. None where no type is known, also where the last name has no `.`.
pub fn content_of(path: &str) -> Option<&'static str>
    ensures { option_copied result ≡ content_type_of path.now }
{
    extension_type(extension(path)?)
}
