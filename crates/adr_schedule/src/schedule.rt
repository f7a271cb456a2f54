//! The group of timelines of each resource.
ghost use Rattle.std.specs.Prelude.{◌≡◌, ◌<◌, [], Some, length};
ghost use Rattle.std.specs.Option.{option_copied};
ghost use Rattle.adr_refusal.specs.Copy.{IsCopyOf};
ghost use Rattle.adr_group.specs.Group.{Lines};
ghost use Rattle.adr_schedule.specs.Seating.{group_at};

use adr_group::Group;
use adr_seats::Seats;
use adr_shared::{Shared, SharedMap};
use adr_value::Refusal;
use std::alloc::Global;
use std::marker::Model;

/// Which group of timelines each resource has, by its place in order of creation. Resources to which the same events
/// apply share a group, which has a slot of its own; a group without members is let go.
///
/// Nothing changes a schedule: an edit answers a new one, which shares with the old one the groups that it doesn't touch.
pub struct Schedule {
    pub(crate) seats: Shared<Seats>,
    pub(crate) groups: SharedMap<u64, Group>,
}

// A function of its own, so that callers that let a value go need not look into it.
impl Drop for Schedule {
    fn drop(self) {
        let Schedule { seats, groups } = self;
        drop(seats);
        drop(groups);
    }
}

impl Model for Schedule {
    ghost use Rattle.adr_schedule.specs.Seating.{Seating};
    ghost use Rattle.adr_schedule.specs.Slots.{AreSeated};

    ghost Value = { Seating };

    ghost view = { λ s. record { seats = s.seats; groups = s.groups } };

    ghost invariant = { λ s. AreSeated s.seats s.groups };
}

impl Schedule {
    /// The schedule of no resources.
    ///
    /// # Errors
    ///
    /// `NoMemory` where there is no room for it.
    pub fn new(alloc: Global) -> Result<Schedule, Refusal>
        ensures { IsCopyOf result (record { seats = []; groups = [] }) }
    {
        Ok(Schedule {
            seats: Shared::new(alloc, Seats::new(alloc))?,
            groups: SharedMap::new(),
        })
    }

    /// How many resources there are.
    pub fn len(&self) -> usize
        ensures { result ≡ length self.now.seats }
    {
        self.seats.get().len()
    }

    /// The group of the resource at the place. Cost: a look-up in a table and one in a tree of the groups.
    pub fn group(&self, place: usize) -> Option<&Group>
        ensures value { option_copied result ≡ group_at self.now place }
        ensures there { place < length self.now.seats → (g : Lines) × (group_at self.now place ≡ Some g) }
    {
        let slot = self.seats.get().slot(place)?;
        self.groups.get(&slot)
    }

    /// A copy that shares the seats and the groups, whatever their number.
    ///
    /// # Errors
    ///
    /// `NoMemory` only where a count of owners is full.
    pub fn copy(&self) -> Result<Schedule, Refusal>
        ensures { IsCopyOf result self.now }
    {
        Ok(Schedule {
            seats: self.seats.copy()?,
            groups: self.groups.copy()?,
        })
    }
}
