//! Bits of words: 64 numbers a word.

ghost use Rattle.std.specs.Prelude.{◌≡◌, ◌≢◌, ◌<◌, ◌==◌, ◌*◌, ◌/◌, ℕ, true, false, length, get_or, if◌then◌else◌};
ghost use Rattle.std.specs.Prelude.{◌^◌, ◌%◌, IfNone, IfSome, not};
ghost use Rattle.std.specs.Int.{bit_at};
ghost use Rattle.number_sets.specs.Members.{AreNone, IsFirstUsed, has_bit};

/// The word in which that bit is set, or cleared.
fn with_bit(word: u64, bit: usize, is_set: bool) -> u64
    requires { bit < 64 }
    ensures same { (bit_at result bit == 1) ≡ is_set }
    ensures others { (i : ℕ) → i < 64 → i ≢ bit → bit_at result i ≡ bit_at word i }
{
    if is_set {
        word | 1 << bit
    } else {
        word & !(1 << bit)
    }
}

/// Makes a number a member, or takes it out, and answers whether its word has a member then.
pub(crate) fn put(words: &mut [u64], number: usize, is_member: bool) -> bool
    requires { number / 64 < length words.old }
    ensures bits { (n : ℕ) → has_bit words.new n ≡ (if n == number then is_member else has_bit words.old n) }
    ensures others { (j : ℕ) → j ≢ number / 64 → get_or words.new j 0 ≡ get_or words.old j 0 }
    ensures length { length words.new ≡ length words.old }
    ensures used { result ≡ not (get_or words.new (number / 64) 0 == 0) }
{
    let word = with_bit(words[number / 64], number % 64, is_member);
    words[number / 64] = word;
    word != 0
}

/// The first word that has a member.
pub(crate) fn first_used(words: &[u64]) -> Option<usize>
    ensures some { IfSome result (IsFirstUsed words.now) }
    ensures none { IfNone result ((n : ℕ) → has_bit words.now n ≡ false) }
{
    words.iter().position(|word| *word != 0)
}

/// The least member, which stands in the word at this index.
pub(crate) fn least_in(words: &[u64], index: usize) -> usize
    requires first { IsFirstUsed words.now index }
    requires small { index < 2 ^ 32 }
    ensures is { has_bit words.now result ≡ true }
    ensures least { AreNone words.now result }
    ensures word { result / 64 ≡ index }
{
    index * 64 + words[index].trailing_zeros() as usize
}
