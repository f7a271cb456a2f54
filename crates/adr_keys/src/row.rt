//! The keys of one place.
ghost use Rattle.std.specs.Prelude.{◌≡◌};

use crate::key::Key;
use std::marker::Model;

/// The keys of one place. Contracts see their list.
pub struct Row {
    keys: Vec<Key>,
}

// A function of its own, so that callers that let a value go need not look into it.
impl Drop for Row {
    fn drop(self) {
        let Row { keys } = self;
        drop(keys);
    }
}

impl Model for Row {
    ghost use Rattle.std.specs.Prelude.{List};
    ghost use Rattle.adr_keys.specs.declared.key.Key.{Key};

    ghost Value = { List Key };

    ghost view = { λ r. r.keys.items };
}

impl Row {
    /// The row with these keys. A key may stand in it more than once.
    pub fn new(keys: Vec<Key>) -> Row
        ensures { result ≡ keys.items }
    {
        Row { keys }
    }

    /// The keys, in the order in which the row was given them.
    pub fn keys(&self) -> &[Key]
        ensures { result.now ≡ self.now }
    {
        self.keys.as_slice()
    }
}
