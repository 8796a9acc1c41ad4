//! The first character of a text.

ghost use Rattle.std.specs.Prelude.{◌≡◌, ◌∷◌, [], ◌<◌, length, IfSome, MatchOption};
ghost use Rattle.std.specs.Str.{chars};

/// The first character of a text, and what follows it.
pub(crate) fn first_char(text: &str) -> Option<(char, &str)>
    ensures parts { MatchOption result (text.now ≡ []) (λ parts. chars text.now ≡ parts.0 ∷ chars parts.1.now) }
    ensures shorter { IfSome result (λ parts. length parts.1.now < length text.now) }
{
    let mut left = text.chars();
    let code = left.next()?;
    Some((code, left.as_str()))
}
