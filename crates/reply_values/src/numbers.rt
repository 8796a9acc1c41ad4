//! Numbers and truth values, as texts spell them.

ghost use Rattle.std.specs.Prelude.{◌≤◌, ◌<◌, ◌^◌, ℕ, Bool, IfSome, IfNone};
ghost use Rattle.reply_values.specs.Numbers.{Writes, SpellsNumber, SpellsTruth};

/// The number below 2^64 that digits of this radix write, without a sign; leading zeros are allowed.
pub(crate) fn unsigned(text: &str, radix: u32) -> Option<u64>
    requires least { 2 ≤ radix }
    requires most { radix ≤ 36 }
    ensures value { IfSome result (Writes radix text.now) }
    ensures refused { IfNone result ((number : ℕ) → number < 2 ^ 64 → ¬ (Writes radix text.now number)) }
{
    if text.starts_with('+') {
        return None;
    }
    u64::from_str_radix(text, radix).ok()
}

/// The number that a text spells: decimal digits without a sign, of a value below 2^64; leading zeros are allowed.
pub fn number(text: &str) -> Option<u64>
    ensures value { IfSome result (SpellsNumber text.now) }
    ensures refused { IfNone result ((number : ℕ) → ¬ (SpellsNumber text.now number)) }
{
    unsigned(text, 10)
}

/// The truth value that a text names: exactly `true` or `false`.
pub fn truth(text: &str) -> Option<bool>
    ensures value { IfSome result (SpellsTruth text.now) }
    ensures refused { IfNone result ((truth : Bool) → ¬ (SpellsTruth text.now truth)) }
{
    text.parse().ok()
}
