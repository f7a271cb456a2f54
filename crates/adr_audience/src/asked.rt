//! What a resource offers of what events ask for.
ghost use Rattle.std.specs.Prelude.{◌≡◌, ◌↔◌, IsTrue};
ghost use Rattle.adr_audience.specs.Asks.{asked_keys};

use adr_keys::{Key, KeyIndex};
use std::marker::Model;

/// What a resource with its ven offers of the keys that some event asks for, in the order in which it offers them.
/// Resources of which it is the same have the same events: see `events_follow_asked`. Contracts see the keys.
pub struct Asked {
    keys: Vec<Key>,
}

// A function of its own, so that callers that let a value go need not look into it.
impl Drop for Asked {
    fn drop(self) {
        let Asked { keys } = self;
        drop(keys);
    }
}

impl Model for Asked {
    ghost use Rattle.std.specs.Prelude.{List};
    ghost use Rattle.adr_keys.specs.declared.key.Key.{Key};

    ghost Value = { List Key };

    ghost view = { λ a. a.keys.items };
}

impl Asked {
    /// Those of the keys that some row of the index has.
    pub(crate) fn of(index: &KeyIndex, keys: Vec<Key>) -> Asked
        ensures { result ≡ asked_keys index.now keys.items }
    {
        let mut keys = keys;
        keys.retain(|key| index.has_key(key));
        Asked { keys }
    }

    /// The keys, in order.
    pub(crate) fn keys(&self) -> &[Key]
        ensures { result.now ≡ self.now }
    {
        self.keys.as_slice()
    }

    /// Whether both have the same keys in the same order.
    pub fn same(&self, other: &Asked) -> bool
        ensures { IsTrue result ↔ (self.now ≡ other.now) }
    {
        self.keys.as_slice() == other.keys.as_slice()
    }
}
