//! Keys in a total order.
ghost use Rattle.std.specs.Prelude.{◌≡◌, ℕ, List, [], ◌∷◌};
ghost use Rattle.std.specs.Ordering.{nat_cmp};
ghost use Rattle.std.specs.Cmp.Lexicographic.{slice_cmp};

use adr_refusal::TryClone;
use std::cmp::Ordering;

/// Keys in a total order, which is that of their codes.
///
/// A code is what a key is compared by: a list of numbers. The lexicographic order of the codes is the order of
/// the keys, and keys with one code are one key.
///
/// A lead is a number kept beside a key, so that most comparisons need not follow the key to its memory: the key with
/// the smaller lead is the smaller key, and only keys with one lead have to be compared themselves. A good lead is made
/// of the code's beginning.
pub trait MapKey: TryClone {
    ghost code: { Self → List ℕ };

    ghost lead_of: { Self → ℕ };

    /// The order of two keys: that of their codes.
    fn compare(&self, other: &Self) -> Ordering
        ensures { result ≡ slice_cmp nat_cmp (code self.now) (code other.now) };

    /// The key's lead.
    fn lead(&self) -> u64
        ensures { result ≡ lead_of self.now };

    /// The order of two keys whose leads are at hand. It looks into the keys only where the leads are equal.
    fn compare_led(&self, lead: u64, other: &Self, other_lead: u64) -> Ordering
        requires own { lead ≡ lead_of self.now }
        requires other { other_lead ≡ lead_of other.now }
        ensures { result ≡ slice_cmp nat_cmp (code self.now) (code other.now) };
}

/// What a key is sought by: the key itself, or a form of it that owns nothing, as a text is of an id.
///
/// It has a code and a lead as keys have, and is found where a key with its code is.
pub trait Sought<K: MapKey> {
    ghost code: { Self → List ℕ };

    ghost lead_of: { Self → ℕ };

    /// The lead of the key that is sought.
    fn lead(&self) -> u64
        ensures { result ≡ lead_of self.now };

    /// The order of the key that is sought and another, whose leads are at hand. It looks into them only where the leads
    /// are equal.
    fn compare_led(&self, lead: u64, other: &K, other_lead: u64) -> Ordering
        requires own { lead ≡ lead_of self.now }
        requires other { other_lead ≡ K.lead_of other.now }
        ensures { result ≡ slice_cmp nat_cmp (code self.now) (K.code other.now) };
}

/// A key that is sought by itself.
#[derive(Drop)]
pub(crate) struct Itself<'a, K: MapKey> {
    pub(crate) key: &'a K,
}

impl<K: MapKey> Sought<K> for Itself<'_, K> {
    ghost code = { λ s. K.code s.key.now };

    ghost lead_of = { λ s. K.lead_of s.key.now };

    #[inline(always)]
    fn lead(&self) -> u64 {
        self.key.lead()
    }

    #[inline(always)]
    fn compare_led(&self, lead: u64, other: &K, other_lead: u64) -> Ordering {
        self.key.compare_led(lead, other, other_lead)
    }
}

impl MapKey for u64 {
    ghost code = { λ n. n ∷ [] };

    ghost lead_of = { λ n. n };

    fn compare(&self, other: &u64) -> Ordering {
        self.cmp(other)
    }

    #[inline(always)]
    fn lead(&self) -> u64 {
        *self
    }

    #[inline(always)]
    fn compare_led(&self, lead: u64, _other: &u64, other_lead: u64) -> Ordering {
        lead.cmp(&other_lead)
    }
}
