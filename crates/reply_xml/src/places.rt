//! Where bytes leave the grammar.

ghost use Rattle.std.specs.Prelude.{◌≡◌, ◌≢◌, ◌≤◌, length, true};
ghost use Rattle.std.specs.Int.{is_in_range};
ghost use Rattle.std.specs.Bool.{MatchBool};
ghost use Rattle.std.specs.Str.{IsUtf8};
ghost use Rattle.reply_xml.specs.Leaves.{IsAtFault, IsCommonFront};

#[inline(always)]
pub(crate) fn is_same(one: &[u8], other: &[u8]) -> bool
    ensures { MatchBool result (one.now ≡ other.now) (one.now ≢ other.now) }
{
    one == other
}

/// Whether bytes are UTF-8.
pub(crate) fn is_utf8(bytes: &[u8]) -> bool
    ensures { result ≡ true → IsUtf8 bytes.now }
{
    match std::str::from_utf8(bytes) {
        Ok(_) => true,
        Err(_) => false,
    }
}

/// How many bytes at the front of a name stand at the front of another one.
pub(crate) fn common_front(name: &[u8], other: &[u8]) -> usize
    ensures { IsCommonFront name.now other.now result }
{
    let most = name.len().min(other.len());
    for i in 0..most {
        if other[i] != name[i] {
            return i;
        }
    }
    most
}

/// Whether a character of several bytes begins with this one (RFC 3629, section 4).
fn is_lead(byte: u8) -> bool
    ensures { result ≡ is_in_range 0xC2 0xF4 byte }
{
    matches!(byte, 0xC2..=0xF4)
}

/// How many bytes at the front are UTF-8, or the beginning of a text that is.
pub(crate) fn utf8_front(bytes: &[u8]) -> usize
    ensures most { result ≤ length bytes.now }
    ensures whole { IsUtf8 bytes.now → result ≡ length bytes.now }
    ensures fault { ¬ (IsUtf8 bytes.now) → IsAtFault bytes.now result }
{
    let Err(fault) = std::str::from_utf8(bytes) else {
        return bytes.len();
    };
    let valid = fault.valid_up_to();
    match fault.error_len() {
        None => bytes.len(),
        Some(length) => {
            if is_lead(bytes[valid]) {
                valid + length
            } else {
                valid
            }
        }
    }
}
