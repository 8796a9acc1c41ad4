//! Numbers among the settings.

ghost use Rattle.std.specs.Prelude.{◌≡◌, ◌^◌, ◌<◌, length, not, position};
ghost use Rattle.std.specs.List.{before_first, position_or_len};
ghost use Rattle.std.specs.Str.{str_eq_ignore_ascii_case};
ghost use Rattle.aws_profile.specs.Values.{
  amount,
  digits_in,
  factor_of,
  fitting,
  is_other,
  is_unit,
  number,
  size,
  unit_in,
};

/// What a number counts.
#[derive(Clone, Copy)]
pub enum Unit {
    Count,
    Bytes,
}

/// The number that decimal digits write; None also where 64 bits do not hold it.
fn number(digits: &[u8]) -> Option<u64>
    ensures { result ≡ fitting (number digits.now) }
{
    if digits.is_empty() {
        return None;
    }
    let mut n: u64 = 0;
    for b in digits {
        if !b.is_ascii_digit() {
            return None;
        }
        n = n.checked_mul(10)?.checked_add(u64::from(*b - b'0'))?;
    }
    Some(n)
}

fn first_other(text: &[u8]) -> Option<usize>
    ensures { result ≡ position is_other text.now }
{
    text.iter().position(|byte| !byte.is_ascii_digit())
}

/// The digits in front, and what follows them.
fn digits_and_unit(text: &[u8]) -> (&[u8], &[u8])
    ensures digits { result.0.now ≡ digits_in text.now }
    ensures unit { result.1.now ≡ unit_in text.now }
{
    let end = match first_other(text) {
        Some(end) => end,
        None => text.len(),
    };
    (&text[..end], &text[end..])
}

fn is_word(text: &[u8], word: &[u8]) -> bool
    ensures { result ≡ str_eq_ignore_ascii_case text.now word.now }
{
    text.eq_ignore_ascii_case(word)
}

fn is_unit(text: &[u8], short: &[u8], long: &[u8]) -> bool
    ensures { result ≡ is_unit text.now short.now long.now }
{
    is_word(text, short) || is_word(text, long)
}

/// How many bytes a unit stands for.
fn factor_of(text: &[u8]) -> Option<u64>
    ensures { result ≡ factor_of text.now }
{
    if text.is_empty() {
        Some(1)
    } else if is_unit(text, b"KB", b"KiB") {
        Some(1 << 10)
    } else if is_unit(text, b"MB", b"MiB") {
        Some(1 << 20)
    } else if is_unit(text, b"GB", b"GiB") {
        Some(1 << 30)
    } else {
        None
    }
}

/// A size in bytes: digits, and nothing or a unit directly behind.
fn size(text: &[u8]) -> Option<u64>
    ensures { result ≡ fitting (size text.now) }
{
    let (digits, unit) = digits_and_unit(text);
    let count = number(digits)?;
    let factor = factor_of(unit)?;
    count.checked_mul(factor)
}

/// A number or a size of 1 to a greatest one.
pub(crate) fn amount(unit: Unit, most: u64, text: &[u8]) -> Option<u64>
    ensures { result ≡ amount unit most text.now }
{
    let n = match unit {
        Unit::Count => number(text),
        Unit::Bytes => size(text),
    };
    n.filter(|n| 1 <= *n && *n <= most)
}
