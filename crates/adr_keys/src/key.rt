//! What resources offer and events ask for.
ghost use Rattle.std.specs.Prelude.{◌≡◌, fold};
ghost use Rattle.adr_refusal.specs.Copy.{IsCopyOf};
ghost use Rattle.adr_keys.specs.Key.{datum_input};

use adr_value::{Datum, Name, Refusal, Text};
use std::hash::{Hash, Hasher};

/// What a resource offers, and what an event asks for: a name, or a value under a type that is no word for a name.
pub enum Key {
    /// What is asked for by an event that asks for none of the others, and offered by every resource.
    Anyone,
    /// The name of a resource.
    Resource(Text),
    /// The name of a ven.
    Ven(Text),
    /// A value under another type.
    Value(Name, Datum),
}

// A function of its own, so that callers that let a value go need not look into it.
impl Drop for Key {
    fn drop(self) {
        match self {
            Key::Anyone => {},
            Key::Resource(name) | Key::Ven(name) => drop(name),
            Key::Value(kind, value) => {
                drop(kind);
                drop(value);
            },
        }
    }
}

impl Key {
    /// A key equal to this one, which takes no growth, as `Text::copy`.
    ///
    /// # Errors
    ///
    /// `NoMemory` only where the count of the sharers of one of its texts is full.
    pub fn copy(&self) -> Result<Key, Refusal>
        ensures { IsCopyOf result self.now }
    {
        match self {
            Key::Anyone => Ok(Key::Anyone),
            Key::Resource(name) => Ok(Key::Resource(name.copy()?)),
            Key::Ven(name) => Ok(Key::Ven(name.copy()?)),
            Key::Value(kind, value) => Ok(Key::Value(kind.copy()?, value.copy()?)),
        }
    }
}

impl PartialEq for Key {
    ghost use Rattle.std.specs.Cmp.{partial_equiv_from_equiv};
    ghost use Rattle.adr_keys.specs.Key.{same_key, same_key_laws};

    ghost eq = { same_key };

    ghost laws = { partial_equiv_from_equiv same_key_laws };

    fn eq(&self, other: &Key) -> bool {
        match (self, other) {
            (Key::Anyone, Key::Anyone) => true,
            (Key::Resource(name), Key::Resource(other)) => name.as_str() == other.as_str(),
            (Key::Ven(name), Key::Ven(other)) => name.as_str() == other.as_str(),
            (Key::Value(kind, value), Key::Value(other, other_value)) => kind.as_str()
                == other.as_str()
                && value.same(other_value),
            _ => false,
        }
    }
}

impl Eq for Key {
    ghost use Rattle.adr_keys.specs.Key.{same_key_laws};

    ghost laws = { same_key_laws };
}

impl Hash for Key {
    ghost use Rattle.adr_keys.specs.Key.{key_input, same_key_input};

    ghost hash_input = { key_input };

    ghost respects_eq = { same_key_input };

    fn hash<H: Hasher>(&self, state: &mut H) {
        match self {
            Key::Anyone => state.write_u8(2),
            Key::Resource(name) => {
                state.write_u8(0);
                name.as_str().hash(state);
            }
            Key::Ven(name) => {
                state.write_u8(1);
                name.as_str().hash(state);
            }
            Key::Value(kind, value) => {
                kind.as_str().hash(state);
                hash_datum(value, state);
            }
        }
    }
}

fn hash_datum<H: Hasher>(value: &Datum, state: &mut H)
    ensures { state.new ≡ fold H.write state.old (datum_input value.now) }
{
    match value {
        Datum::Number(number) => number.coefficient().hash(state),
        Datum::Text(text) => text.as_str().hash(state),
        Datum::Truth(truth) => truth.hash(state),
        Datum::Point(x, y) => {
            x.coefficient().hash(state);
            y.coefficient().hash(state);
        }
    }
}
