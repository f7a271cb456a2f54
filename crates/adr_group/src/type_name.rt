//! Payload types as keys.
ghost use Rattle.std.specs.Prelude.{◌≡◌, None, MatchOption};
ghost use Rattle.std.specs.List.{slice_get};
ghost use Rattle.std.specs.Option.{option_map};
ghost use Rattle.adr_refusal.specs.Copy.{IsCopyOf};
ghost use Rattle.adr_value.specs.Payload.{name_of};
ghost use Rattle.adr_shared.specs.Map.{lookup};

use adr_shared::{MapKey, SharedMap};
use adr_value::{PayloadType, Refusal, TryClone};
use std::cmp::Ordering;

/// A payload type as a key, by its name.
#[derive(Drop)]
pub(crate) struct TypeName {
    pub(crate) payload_type: PayloadType,
}

impl TypeName {
    /// The key of the type. `NoMemory` as `PayloadType::copy`.
    pub(crate) fn of(payload_type: &PayloadType) -> Result<TypeName, Refusal>
        ensures { IsCopyOf result (record { payload_type = payload_type.now }) }
    {
        Ok(TypeName {
            payload_type: payload_type.copy()?,
        })
    }
}

impl TryClone for TypeName {
    fn try_clone(&self) -> Result<TypeName, Refusal> {
        TypeName::of(&self.payload_type)
    }
}

impl MapKey for TypeName {
    ghost code = { λ k. name_of k.payload_type };

    ghost lead_of = { λ _. 0 };

    fn compare(&self, other: &TypeName) -> Ordering {
        self.payload_type.name().cmp(other.payload_type.name())
    }

    // Types are few, and most names lie in one table: a lead would spare nothing.
    fn lead(&self) -> u64 {
        0
    }

    fn compare_led(&self, _lead: u64, other: &TypeName, _other_lead: u64) -> Ordering {
        self.compare(other)
    }
}

/// The place of the type in the order of the names, where it is there, by halves: a key need not be made for it.
pub(crate) fn place_of<V: TryClone>(
    map: &SharedMap<TypeName, V>,
    payload_type: &PayloadType,
) -> Option<usize>
    ensures { MatchOption result (lookup (name_of payload_type.now) map.now ≡ None) (λ place. lookup (name_of payload_type.now) map.now ≡ option_map (λ e. e.1) (slice_get map.now place)) }
{
    map.map_laws();
    let mut low = 0;
    let mut high = map.len();
    'halves: while low < high {
        let middle = low + (high - low) / 2;
        let Some(key) = map.key_at(middle) else {
            return None;
        };
        match payload_type.name().cmp(key.payload_type.name()) {
            Ordering::Less => high = middle,
            Ordering::Equal => return Some(middle),
            Ordering::Greater => low = middle + 1,
        }
    }
    None
}
