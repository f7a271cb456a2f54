//! A schedule from the slot of each place and the group of each slot.
ghost use Rattle.std.specs.Prelude.{◌≡◌, ◌<◌, ◌++◌, ◌∷◌, ◌⊎◌, [], ℕ, Some, length, slice_get, IfOk, OnOk};
ghost use Rattle.std.specs.Option.{option_and_then};
ghost use Rattle.adr_refusal.specs.Answer.{OnlyNoMemory};
ghost use Rattle.adr_group.specs.Group.{Lines};
ghost use Rattle.adr_schedule.specs.Seating.{group_at};
ghost use Rattle.adr_schedule.specs.Slots.{in_slot, AreSeated};

use crate::schedule::Schedule;
use adr_group::Group;
use adr_seats::Seats;
use adr_shared::{Shared, SharedMap};
use adr_value::Refusal;
use std::alloc::Global;

/// One more place, last, with the slot, which gets the group unless a place has it already.
fn seated_last(
    alloc: Global,
    seats: &mut Seats,
    kept: &SharedMap<u64, Group>,
    slot: u64,
    group: &Group,
) -> Result<SharedMap<u64, Group>, Refusal>
    requires seated { AreSeated seats.old kept.now }
    ensures seated { IfOk result (λ more. AreSeated seats.new more) }
    ensures seats { OnOk result (seats.new ≡ seats.old ++ slot ∷ []) }
    ensures groups { IfOk result (λ more. (s : ℕ) (g : Lines) → in_slot more s ≡ Some g → (in_slot kept.now s ≡ Some g) ⊎ ((s ≡ slot) × (g ≡ group.now))) }
    ensures refusal { OnlyNoMemory result }
{
    let taken = seats.is_taken(slot);
    seats.push(slot)?;
    if taken {
        let same = kept.copy()?;
        return Ok(same);
    }
    let group = group.copy()?;
    let more = kept.put(alloc, slot, group)?;
    Ok(more)
}

impl Schedule {
    /// The places with these slots in order, each of which has the group that stands there. A group whose slot no place
    /// has is left out. Cost: a look-up for each place, and one path of a tree for each group.
    ///
    /// # Errors
    ///
    /// `NoMemory` where there is no room.
    pub fn of(alloc: Global, slots: &[usize], groups: &[Group]) -> Result<Schedule, Refusal>
        requires { (place slot : ℕ) → slice_get slots.now place ≡ Some slot → slot < length groups.now }
        ensures count { IfOk result (λ schedule. length schedule.seats ≡ length slots.now) }
        ensures groups { IfOk result (λ schedule. (place : ℕ) → group_at schedule place ≡ option_and_then (λ slot. slice_get groups.now slot) (slice_get slots.now place)) }
        ensures refusal { OnlyNoMemory result }
    {
        let mut seats = Seats::new(alloc);
        let mut kept = SharedMap::new();
        let mut rest = slots;
        'rest: while let Some((slot, more)) = rest.split_first() {
            let Some(group) = groups.get(*slot) else {
                unreachable!();
            };
            kept = seated_last(alloc, &mut seats, &kept, *slot as u64, group)?;
            rest = more;
        }
        Ok(Schedule {
            seats: Shared::new(alloc, seats)?,
            groups: kept,
        })
    }
}
