//! The lines of a file.

ghost use Rattle.std.specs.Prelude.{◌≡◌, ◌∷◌, ◌<◌, [], IfSome, MatchOption, length};
ghost use Rattle.std.specs.Str.Lines.{lines, strip_carriage_return};

use crate::texts::split_once;

fn without_carriage_return(line: &[u8]) -> &[u8]
    ensures { result.now ≡ strip_carriage_return line.now }
{
    match line {
        [front @ .., b'\r'] => front,
        _ => line,
    }
}

/// The first line of a file without its end, and what follows it.
pub(crate) fn first_line(file: &[u8]) -> Option<(&[u8], &[u8])>
    ensures parts { MatchOption result (lines file.now ≡ [])
        (λ parts. lines file.now ≡ parts.0.now ∷ lines parts.1.now) }
    ensures shorter { IfSome result (λ parts. length parts.1.now < length file.now) }
{
    if file.is_empty() {
        return None;
    }
    match split_once(file, b'\n') {
        Some((line, rest)) => Some((without_carriage_return(line), rest)),
        None => Some((file, &file[file.len()..])),
    }
}
