//! Whether places are all those that have their slots.
ghost use Rattle.std.specs.Prelude.{◌≡◌, ◌+◌, ◌++◌, ◌∷◌, [], Some, None, IfSome, IsTrue, OnOk};
ghost use Rattle.adr_refusal.specs.Answer.{OnlyNoMemory};
ghost use Rattle.adr_seats.specs.Law.{AreDistinct};
ghost use Rattle.adr_seats.specs.Seats.{members_of};
ghost use Rattle.adr_schedule.specs.Tally.{AreAllOf, IsTallied};

use adr_seats::{Seats, all_of_a_slot};
use adr_value::Refusal;
use std::alloc::Global;

/// The slots of some places, each once, and how many places are left beyond all that have one of those slots; None where
/// there are too few.
#[derive(Drop)]
pub(crate) struct SlotTally {
    pub(crate) slots: Vec<u64>,
    pub(crate) left: Option<usize>,
}

/// So many less, where there are as many.
fn less(count: Option<usize>, members: usize) -> Option<usize>
    ensures { IfSome result (λ left. count ≡ Some (left + members)) }
{
    match count {
        Some(count) if members <= count => Some(count - members),
        _ => None,
    }
}

/// Whether each place is above the one before it.
fn ascend(places: &[usize]) -> bool
    ensures { IsTrue result → AreDistinct places.now }
{
    let mut rest = places;
    'rest: while let Some((place, later)) = rest.split_first() {
        if let Some(next) = later.first() {
            if *next <= *place {
                return false;
            }
        }
        rest = later;
    }
    true
}

impl SlotTally {
    /// No slot yet, and so many places.
    pub(crate) fn new(alloc: Global, places: usize) -> SlotTally
        ensures slots { result.slots.items ≡ [] }
        ensures left { result.left ≡ Some places }
    {
        SlotTally {
            slots: Vec::new(alloc),
            left: Some(places),
        }
    }

    /// One slot more.
    pub(crate) fn add(&mut self, seats: &Seats, slot: u64) -> Result<(), Refusal>
        ensures slots { OnOk result (self.new.slots.items ≡ self.old.slots.items ++ slot ∷ []) }
        ensures left { OnOk result (IfSome self.new.left (λ left. self.old.left ≡ Some (left + members_of slot seats.now))) }
        ensures refusal { OnlyNoMemory result }
    {
        self.slots.push(slot)?;
        self.left = less(self.left, seats.members(slot));
        Ok(())
    }

    /// The slots, if the places, which have them, are all that do.
    pub(crate) fn all(self, seats: &Seats, places: &[usize]) -> Option<Vec<u64>>
        requires { IsTallied places.now [] seats.now self }
        ensures { IfSome result (λ slots. AreAllOf seats.now places.now slots.items) }
    {
        all_of_a_slot();
        let SlotTally { slots, left } = self;
        if left == Some(0) && ascend(places) {
            Some(slots)
        } else {
            drop(slots);
            None
        }
    }
}
