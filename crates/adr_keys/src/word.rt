//! Single bits of words.
ghost use Rattle.std.specs.Prelude.{◌≡◌, ℕ, ◌+◌, ◌-◌, ◌<◌, ◌≤◌, ◌==◌, ◌&&◌, ◌||◌, not, true, false, if◌then◌else◌, nat_lt, nat_le};
ghost use Rattle.adr_keys.specs.Places.{bit};

pub(crate) fn has_bit(word: u64, k: usize) -> bool
    requires { k < 64 }
    ensures { result ≡ bit word k }
{
    word >> k & 1 == 1
}

/// Whether the word has a bit.
pub(crate) fn has_any_bit(word: u64) -> bool
    ensures some { result ≡ true → (i : ℕ) × (i < 64) × (bit word i ≡ true) }
    ensures none { result ≡ false → word ≡ 0 }
{
    word != 0
}

pub(crate) fn with_bit(word: u64, k: usize) -> u64
    requires { k < 64 }
    ensures { (i : ℕ) → bit result i ≡ (i == k || bit word i) }
{
    word | (1 << k)
}

pub(crate) fn without_bit(word: u64, k: usize) -> u64
    requires { k < 64 }
    ensures { (i : ℕ) → i < 64 → bit result i ≡ (not (i == k) && bit word i) }
{
    word & !(1 << k)
}

pub(crate) fn either(a: u64, b: u64) -> u64
    ensures { (i : ℕ) → bit result i ≡ (bit a i || bit b i) }
{
    a | b
}

pub(crate) fn both(a: u64, b: u64) -> u64
    ensures { (i : ℕ) → bit result i ≡ (bit a i && bit b i) }
{
    a & b
}

/// The word with the bit `at` taken out, and those above it moved down by one.
pub(crate) fn without_gap(word: u64, at: usize) -> u64
    requires { at < 64 }
    ensures bits { (i : ℕ) → i < 64 → bit result i ≡ (if nat_lt i at then bit word i else bit word (i + 1)) }
    ensures none_past { bit word 64 ≡ false }
{
    let below = (1 << at) - 1;
    word & below | word >> 1 & !below
}

/// The bits below `count`.
pub(crate) fn low_bits(word: u64, count: usize) -> u64
    ensures { (i : ℕ) → i < 64 → bit result i ≡ (nat_lt i count && bit word i) }
{
    if count < 64 {
        return word & ((1 << count) - 1);
    }
    word
}

/// The bits moved up by `by`, without those that go over the top.
pub(crate) fn moved_up(word: u64, by: usize) -> u64
    requires { by < 64 }
    ensures { (i : ℕ) → i < 64 → bit result i ≡ (nat_le by i && bit word (i - by)) }
{
    word << by
}

/// The bits that go over the top where all are moved up by `by`.
pub(crate) fn over_top(word: u64, by: usize) -> u64
    requires { by < 64 }
    ensures { (i : ℕ) → i < 64 → bit result i ≡ (nat_lt i by && bit word (i + 64 - by)) }
{
    if by == 0 {
        return 0;
    }
    word >> (64 - by)
}
