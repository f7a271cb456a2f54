//! Entries of trees.
ghost use Rattle.std.specs.Prelude.{◌≡◌};
ghost use Rattle.adr_refusal.specs.Copy.{IsCopyOf};
ghost use Rattle.adr_shared.specs.Map.{code_cmp};

use crate::key::{MapKey, Sought};
use adr_refusal::{Refusal, TryClone};
use std::cmp::Ordering;
use std::marker::Model;

/// A key and its value, and the key's lead beside them. Contracts see the key's code and the value.
pub struct MapEntry<K: MapKey, V: TryClone> {
    lead: u64,
    key: K,
    value: V,
}

// A function of its own, so that callers that let a value go need not look into it.
impl<K: MapKey, V: TryClone> Drop for MapEntry<K, V> {
    fn drop(self) {
        let MapEntry {
            lead: _,
            key,
            value,
        } = self;
        drop(key);
        drop(value);
    }
}

impl<K: MapKey, V: TryClone> Model for MapEntry<K, V> {
    ghost use Rattle.std.specs.Prelude.{◌≡◌, ℕ, List};

    ghost Value = { List ℕ × V };

    ghost view = { λ e. (K.code e.key, e.value) };

    ghost invariant = { λ e. e.lead ≡ K.lead_of e.key };
}

impl<K: MapKey, V: TryClone> MapEntry<K, V> {
    /// The entry of a key and a value.
    pub fn new(key: K, value: V) -> MapEntry<K, V>
        ensures { result ≡ (K.code key, value) }
    {
        MapEntry {
            lead: key.lead(),
            key,
            value,
        }
    }

    /// The key.
    pub fn key(&self) -> &K
        ensures { K.code result.now ≡ self.now.0 }
    {
        &self.key
    }

    /// The value.
    #[inline(always)]
    pub fn value(&self) -> &V
        ensures { result.now ≡ self.now.1 }
    {
        &self.value
    }

    /// The order of a key that is sought, whose lead is at hand, and the entry's.
    #[inline(always)]
    pub fn order_of<Q: Sought<K>>(&self, key: &Q, lead: u64) -> Ordering
        requires { lead ≡ Q.lead_of key.now }
        ensures { result ≡ code_cmp (Q.code key.now) self.now.0 }
    {
        key.compare_led(lead, &self.key, self.lead)
    }

    /// The order of another entry's key and this one's.
    pub fn order_of_entry(&self, other: &MapEntry<K, V>) -> Ordering
        ensures { result ≡ code_cmp other.now.0 self.now.0 }
    {
        other.key.compare_led(other.lead, &self.key, self.lead)
    }

    /// A copy. The lead is taken over, and not made anew.
    ///
    /// # Errors
    ///
    /// `NoMemory` where there is no room for what the key's or the value's copy takes.
    pub fn copy(&self) -> Result<MapEntry<K, V>, Refusal>
        ensures { IsCopyOf result self.now }
    {
        Ok(MapEntry {
            lead: self.lead,
            key: self.key.try_clone()?,
            value: self.value.try_clone()?,
        })
    }
}
