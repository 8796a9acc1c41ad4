//! The tasks that rows name.

ghost use Rattle.std.specs.Prelude.{◌≤◌, IfSome};

use s3_model::Kind;

/// The most bytes of a task.
const MOST_BYTES: u64 = 256;

/// What a row says of a task.
#[derive(Clone, Copy)]
pub struct Wish {
    pub kind: Kind,
    pub moves: bool,
    pub size: u64,
}

fn kind_of(word: &str) -> Option<Kind> {
    match word {
        "upload" => Some(Kind::Upload),
        "download" => Some(Kind::Download),
        "copy" => Some(Kind::Copy),
        "remove-object" => Some(Kind::RemoveObject),
        "remove-file" => Some(Kind::RemoveFile),
        _ => None,
    }
}

/// A kind and a size of at most 256 bytes.
fn wish_by(text: &str, moves: bool) -> Option<Wish>
    ensures { IfSome result (λ wish. wish.size ≤ 256) }
{
    let (kind, size) = text.split_once(' ')?;
    let kind = kind_of(kind)?;
    let size: u64 = size.parse().ok()?;
    if size > MOST_BYTES {
        return None;
    }
    Some(Wish { kind, moves, size })
}

/// A kind and a size of at most 256 bytes, with `move` in front where the source goes.
pub fn wish_of(text: &str) -> Option<Wish>
    ensures { IfSome result (λ wish. wish.size ≤ 256) }
{
    match text.strip_prefix("move ") {
        Some(rest) => wish_by(rest, true),
        None => wish_by(text, false),
    }
}
