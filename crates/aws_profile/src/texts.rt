//! Parts of texts.

ghost use Rattle.std.specs.Prelude.{◌≡◌, ◌==◌, ◌-◌, ◌<◌, IfSome, length, take, position, not, is_some};
ghost use Rattle.std.specs.List.{list_any, before_first, after_first, suffix_len};
ghost use Rattle.aws_profile.specs.Lines.{is_blank, without_leading, without_trailing, trimmed};

fn place_of(text: &[u8], byte: u8) -> Option<usize>
    ensures { result ≡ position (λ each. each == byte) text.now }
{
    text.iter().position(|each| *each == byte)
}

/// What stands in front of the first of these bytes, and what follows it.
pub(crate) fn split_once(text: &[u8], byte: u8) -> Option<(&[u8], &[u8])>
    ensures found { is_some result ≡ list_any (λ each. each == byte) text.now }
    ensures before { IfSome result (λ parts. parts.0.now ≡ before_first (λ each. each == byte) text.now) }
    ensures after { IfSome result (λ parts. parts.1.now ≡ after_first (λ each. each == byte) text.now) }
    ensures shorter { IfSome result (λ parts. length parts.1.now < length text.now) }
{
    let at = place_of(text, byte)?;
    Some((&text[..at], &text[at + 1..]))
}

pub(crate) fn is_blank(byte: u8) -> bool
    ensures { result ≡ is_blank byte }
{
    byte == b' ' || byte == b'\t'
}

fn first_other(text: &[u8]) -> Option<usize>
    ensures { result ≡ position (λ byte. not (is_blank byte)) text.now }
{
    text.iter().position(|byte| !is_blank(*byte))
}

fn without_leading(text: &[u8]) -> &[u8]
    ensures { result.now ≡ without_leading text.now }
{
    match first_other(text) {
        Some(start) => &text[start..],
        None => &text[text.len()..],
    }
}

fn without_trailing(text: &[u8]) -> &[u8]
    ensures { result.now ≡ without_trailing text.now }
{
    let mut end = text.len();
    while end > 0 && is_blank(text[end - 1]) {
        end -= 1;
    }
    &text[..end]
}

/// The text without the spaces and tabs round it.
pub(crate) fn trimmed(text: &[u8]) -> &[u8]
    ensures { result.now ≡ trimmed text.now }
{
    without_trailing(without_leading(text))
}
