//! Places that move to slots of other values.
ghost use Rattle.std.specs.Prelude.{◌≡◌, ◌∷◌, ◌<◌, [], length, IfOk};
ghost use Rattle.std.specs.Option.{option_copied};
ghost use Rattle.adr_refusal.specs.Answer.{OnlyNoMemory};
ghost use Rattle.adr_shared.specs.Map.{put, without};
ghost use Rattle.adr_schedule.specs.Moves.{IsSat};
ghost use Rattle.adr_schedule.specs.Slots.{in_slot};

use adr_seats::Seats;
use adr_shared::SharedMap;
use adr_value::{Refusal, TryClone};
use std::alloc::Global;

/// Places on the move: the values in the slots, and where the members of a slot go, for each slot that was looked at.
/// Nothing changes them: a step answers new ones, which share the rest.
pub(crate) struct Moves<V: TryClone> {
    pub(crate) values: SharedMap<u64, V>,
    pub(crate) slots: SharedMap<u64, u64>,
}

// A function of its own, so that callers that let a value go need not look into it.
impl<V: TryClone> Drop for Moves<V> {
    fn drop(self) {
        let Moves { values, slots } = self;
        drop(values);
        drop(slots);
    }
}

impl<V: TryClone> Moves<V> {
    /// No place has moved.
    pub(crate) fn new(values: SharedMap<u64, V>) -> Moves<V>
        ensures values { result.values ≡ values }
        ensures slots { result.slots ≡ [] }
    {
        Moves {
            values,
            slots: SharedMap::new(),
        }
    }

    pub(crate) fn copy(&self) -> Result<Moves<V>, Refusal>
        ensures values { IfOk result (λ moves. moves.values ≡ self.now.values) }
        ensures slots { IfOk result (λ moves. moves.slots ≡ self.now.slots) }
        ensures refusal { OnlyNoMemory result }
    {
        Ok(Moves {
            values: self.values.copy()?,
            slots: self.slots.copy()?,
        })
    }

    /// Where the members of the slot go, if that is known.
    pub(crate) fn next(&self, slot: u64) -> Option<u64>
        ensures { result ≡ in_slot self.now.slots slot }
    {
        self.slots.get(&slot).copied()
    }

    /// The value in the slot.
    pub(crate) fn value(&self, slot: u64) -> Option<&V>
        ensures { option_copied result ≡ in_slot self.now.values slot }
    {
        self.values.get(&slot)
    }

    /// The members of the slot stay where they are.
    pub(crate) fn keep(&self, alloc: Global, slot: u64) -> Result<Moves<V>, Refusal>
        ensures values { IfOk result (λ moves. moves.values ≡ self.now.values) }
        ensures slots { IfOk result (λ moves. moves.slots ≡ put (slot ∷ []) slot self.now.slots) }
        ensures refusal { OnlyNoMemory result }
    {
        Ok(Moves {
            values: self.values.copy()?,
            slots: self.slots.put(alloc, slot, slot)?,
        })
    }

    /// The members of the slot go to another one, which gets this value.
    pub(crate) fn part(
        &self,
        alloc: Global,
        slot: u64,
        next: u64,
        value: V,
    ) -> Result<Moves<V>, Refusal>
        ensures values { IfOk result (λ moves. moves.values ≡ put (next ∷ []) value self.now.values) }
        ensures slots { IfOk result (λ moves. moves.slots ≡ put (next ∷ []) next (put (slot ∷ []) next self.now.slots)) }
        ensures refusal { OnlyNoMemory result }
    {
        Ok(Moves {
            values: self.values.put(alloc, next, value)?,
            slots: self.slots.put(alloc, slot, next)?.put(alloc, next, next)?,
        })
    }

    /// The value in the slot goes.
    pub(crate) fn without(&self, alloc: Global, slot: u64) -> Result<Moves<V>, Refusal>
        ensures values { IfOk result (λ moves. moves.values ≡ without (slot ∷ []) self.now.values) }
        ensures slots { IfOk result (λ moves. moves.slots ≡ self.now.slots) }
        ensures refusal { OnlyNoMemory result }
    {
        Ok(Moves {
            values: self.values.without(alloc, &slot)?,
            slots: self.slots.copy()?,
        })
    }
}

/// Gives the place, which has the slot, the next one. A value that no place has any more goes.
pub(crate) fn sit<V: TryClone>(
    alloc: Global,
    seats: &mut Seats,
    moves: Moves<V>,
    place: usize,
    slot: u64,
    next: u64,
) -> Result<Moves<V>, Refusal>
    requires { place < length seats.old }
    ensures sat { IfOk result (λ others. IsSat seats.old place slot next moves.values seats.new others.values) }
    ensures slots { IfOk result (λ others. others.slots ≡ moves.slots) }
    ensures refusal { OnlyNoMemory result }
{
    if next == slot {
        return Ok(moves);
    }
    seats.set(place, next)?;
    if seats.is_taken(slot) {
        return Ok(moves);
    }
    moves.without(alloc, slot)
}
