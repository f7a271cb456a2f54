//! An event goes and another comes, for some places: first what becomes of their groups is made, then the places move.
ghost use Rattle.std.specs.Prelude.{◌≡◌, ◌<◌, ◌≤◌, ◌+◌, ◌*◌, ◌∷◌, [], ℕ, List, false, Some, None, slice_get, sum_by, true, IfOk, IfSome, OnOk};
ghost use Rattle.std.specs.Option.{option_copied, option_map};
ghost use Rattle.adr_refusal.specs.Answer.{OnlyNoMemory};
ghost use Rattle.adr_group.specs.Group.{Lines};
ghost use Rattle.adr_group.specs.Jobs.{IsCrew};
ghost use Rattle.adr_schedule.specs.Moves.{is_among, AreMadeFor, AreMoving, HasMoved, IsMadeAt, IsNext, KeepsUnknown};
ghost use Rattle.adr_schedule.specs.declared.change.Change.{Change as AnyChange};
ghost use Rattle.adr_schedule.specs.Shift.{most_at, number_in, AreSidesOf, AreTwo, Becomes, IsLaidBy};
ghost use Rattle.adr_shared.specs.Map.{put};
ghost use Rattle.adr_schedule.specs.Slots.{in_slot, is_taken, AreSeated};
ghost use Rattle.adr_schedule.specs.Seating.{AreRight, IsShifted};
ghost use Rattle.adr_schedule.specs.Tally.{AreAllOf};
ghost use Rattle.adr_model.specs.declared.entry.Tie.{Tie};
ghost use Rattle.adr_model.specs.declared.written.Written.{Written};
ghost use Rattle.adr_lines.specs.declared.indexes.Indexes.{Indexes as AllIndexes};
ghost use Rattle.adr_lines.specs.Exchange.{IsIndexOf};

use crate::change::Change;
use crate::draft::{Drafted, drafts_of};
use crate::exchange::exchanged;
use crate::made::made_by;
use crate::moves::{Moves, sit};
use crate::schedule::Schedule;
use adr_group::{Done, Group, RepairJob};
use adr_lines::Indexes;
use adr_rule::Meter;
use adr_seats::Seats;
use adr_shared::{Shared, SharedMap};
use adr_timeline::Ranks;
use adr_value::Refusal;
use std::alloc::Global;

/// Where the members of a slot go, and the moves that know it.
#[derive(Drop)]
struct Next {
    moves: Moves<Group>,
    slot: u64,
}

/// The members of the slot go to a slot of their own with what their group becomes, or stay where it stays.
fn parted(
    alloc: Global,
    seats: &Seats,
    moves: &Moves<Group>,
    slot: u64,
    made: Option<Group>,
) -> Result<Next, Refusal>
    ensures kept { IfOk result (λ next. made ≡ None → (next.slot ≡ slot) × (next.moves.values ≡ moves.now.values) × (next.moves.slots ≡ put (slot ∷ []) slot moves.now.slots)) }
    ensures parted { IfOk result (λ next. (h : Lines) → made ≡ Some h → (is_taken seats.now next.slot ≡ false) × (next.moves.values ≡ put (next.slot ∷ []) h moves.now.values) × (next.moves.slots ≡ put (next.slot ∷ []) next.slot (put (slot ∷ []) next.slot moves.now.slots))) }
    ensures refusal { OnlyNoMemory result }
{
    match made {
        Some(made) => {
            let next = seats.free_slot()?;
            let moves = moves.part(alloc, slot, next, made)?;
            Ok(Next { moves, slot: next })
        }
        None => {
            let moves = moves.keep(alloc, slot)?;
            Ok(Next { moves, slot })
        }
    }
}

/// What was made for the slot.
fn made_in(made: &SharedMap<u64, Group>, slot: u64) -> Result<Option<Group>, Refusal>
    ensures made { IfOk result (λ group. group ≡ in_slot made.now slot) }
    ensures refusal { OnlyNoMemory result }
{
    match made.get(&slot) {
        Some(group) => Ok(Some(group.copy()?)),
        None => Ok(None),
    }
}

/// Where the members of the slot go: with what was made for it.
fn next_slot(
    alloc: Global,
    seats: &Seats,
    moves: &Moves<Group>,
    slot: u64,
    made: &SharedMap<u64, Group>,
) -> Result<Next, Refusal>
    ensures keeps { IfOk result (λ next. KeepsUnknown moves.now.values moves.now.slots next.moves.values next.moves.slots) }
    ensures next { IfOk result (λ next. (change : AnyChange) (indexes : AllIndexes) → (in_slot moves.now.slots slot ≡ None → IsMadeAt (Becomes change indexes) moves.now.values made.now slot) → (g : Lines) → in_slot moves.now.values slot ≡ Some g → AreMoving (Becomes change indexes) seats.now moves.now.values moves.now.slots → IsNext (Becomes change indexes) seats.now moves.now.values next.moves.values next.moves.slots slot next.slot) }
    ensures refusal { OnlyNoMemory result }
{
    if let Some(next) = moves.next(slot) {
        return Ok(Next {
            moves: moves.copy()?,
            slot: next,
        });
    }
    let group = made_in(made, slot)?;
    let next = parted(alloc, seats, moves, slot, group)?;
    Ok(next)
}

/// The place moves to where the members of its slot go.
fn move_place(
    alloc: Global,
    seats: &mut Seats,
    moves: &Moves<Group>,
    place: usize,
    made: &SharedMap<u64, Group>,
) -> Result<Moves<Group>, Refusal>
    ensures moved { IfOk result (λ after. (change : AnyChange) (indexes : AllIndexes) → ((slot : ℕ) → slice_get seats.old place ≡ Some slot → in_slot moves.now.slots slot ≡ None → IsMadeAt (Becomes change indexes) moves.now.values made.now slot) → AreMoving (Becomes change indexes) seats.old moves.now.values moves.now.slots → HasMoved (Becomes change indexes) (is_among (place ∷ [])) seats.old moves.now.values moves.now.slots seats.new after.values after.slots) }
    ensures refusal { OnlyNoMemory result }
{
    let Some(slot) = seats.slot(place) else {
        return moves.copy();
    };
    let next = next_slot(alloc, seats, moves, slot, made)?;
    let after = sit(alloc, seats, next.moves, place, slot, next.slot)?;
    Ok(after)
}

/// Each of the places moves to where the members of its slot go.
fn move_all(
    alloc: Global,
    seats: &mut Seats,
    groups: SharedMap<u64, Group>,
    places: &[usize],
    made: &SharedMap<u64, Group>,
) -> Result<Moves<Group>, Refusal>
    requires seated { AreSeated seats.old groups }
    ensures moved { IfOk result (λ after. (change : AnyChange) (indexes : AllIndexes) → AreMadeFor (Becomes change indexes) places.now seats.old groups made.now → HasMoved (Becomes change indexes) (is_among places.now) seats.old groups [] seats.new after.values after.slots) }
    ensures refusal { OnlyNoMemory result }
{
    let mut moves = Moves::new(groups);
    let mut rest = places;
    'rest: while let Some((place, more)) = rest.split_first() {
        moves = move_place(alloc, seats, &moves, *place, made)?;
        rest = more;
    }
    Ok(moves)
}

/// What becomes of groups, each in its slot, and the slots of the places, where these are all that have one of them.
#[derive(Drop)]
struct Remade {
    groups: SharedMap<u64, Group>,
    slots: Option<Vec<u64>>,
}

impl Schedule {
    /// What becomes of the groups of the places that the change touches, each in its slot: the crew does their jobs.
    fn made_for<C: Fn(&Indexes, &[RepairJob]) -> Result<Vec<Done>, Refusal>, R: Ranks>(
        &self,
        alloc: Global,
        indexes: &Indexes,
        crew: &C,
        places: &[usize],
        change: &Change,
        ranks: Option<&R>,
        meter: &mut Meter,
    ) -> Result<Remade, Refusal>
        requires two { AreTwo change.now }
        requires laid { IsLaidBy (option_map R.rank (option_copied ranks)) indexes.now change.now }
        requires crew { IsCrew (λ v. v.items) (C.pre crew.now) (C.post crew.now) }
        ensures made { IfOk result (λ made. AreMadeFor (Becomes change.now indexes.now) places.now self.now.seats self.now.groups made.groups) }
        ensures all { IfOk result (λ made. IfSome made.slots (λ slots. AreAllOf self.now.seats places.now slots.items)) }
        ensures least { OnOk result (meter.new ≤ meter.old + sum_by (most_at change.now indexes.now self.now) places.now) }
        ensures refusal { OnlyNoMemory result }
    {
        let drafted = drafts_of(alloc, self.seats.get(), &self.groups, places, change)?;
        let Drafted { list, slots } = drafted;
        let groups = made_by(alloc, indexes, crew, list.as_slice(), change, ranks, meter)?;
        Ok(Remade { groups, slots })
    }

    /// The seats with what was made for these slots in them.
    fn exchanged(
        &self,
        alloc: Global,
        slots: &[u64],
        made: &SharedMap<u64, Group>,
    ) -> Result<Schedule, Refusal>
        requires taken { (slot : ℕ) → is_among slots.now slot ≡ true → is_taken self.now.seats slot ≡ true }
        ensures shifted { IfOk result (λ after. (change : AnyChange) (indexes : AllIndexes) (places : List ℕ) → AreAllOf self.now.seats places slots.now → AreMadeFor (Becomes change indexes) places self.now.seats self.now.groups made.now → IsShifted (number_in change.gone) (number_in change.come) places self.now after) }
        ensures right { IfOk result (λ after. (change : AnyChange) (indexes : AllIndexes) (places : List ℕ) → AreAllOf self.now.seats places slots.now → AreMadeFor (Becomes change indexes) places self.now.seats self.now.groups made.now → (tie : Tie) (events : List Written) → IsIndexOf tie events indexes → AreSidesOf tie events change → AreRight tie events self.now → AreRight tie events after) }
        ensures refusal { OnlyNoMemory result }
    {
        let groups = exchanged(alloc, &self.groups, slots, made)?;
        let seats = self.seats.copy()?;
        Ok(Schedule { seats, groups })
    }

    /// The schedule after an event goes and another comes for the resources at these places: where the one was among
    /// the writes of a place's group it is not any more, and where the other was not it is.
    ///
    /// Members of one group among the places stay together, and each group is made once: in its slot where all its members
    /// are among the places, and so those of all others; else in a slot of its own, to which they move. The crew makes the
    /// groups, one job a payload type. Where there are ranks, the job lays the event that comes over the timeline, which
    /// needs no look at the index, and then builds anew the windows of the one that goes in which it still governs. It
    /// builds anew all entries of the events where the new ones cannot be laid, and where there are no ranks.
    ///
    /// Cost: for each place a look-up; where places move, some more, and a copy of the table of seats; for each group and
    /// each type of the events a copy of the table of its timeline's chunks, a search of the timeline for each entry that
    /// comes and a rank for each segment that is met; and that of the jobs.
    ///
    /// # Errors
    ///
    /// `NoMemory` where there is no room.
    pub fn shifted<C: Fn(&Indexes, &[RepairJob]) -> Result<Vec<Done>, Refusal>, R: Ranks>(
        &self,
        alloc: Global,
        indexes: &Indexes,
        crew: &C,
        places: &[usize],
        change: &Change,
        ranks: Option<&R>,
        meter: &mut Meter,
    ) -> Result<Schedule, Refusal>
        requires two { AreTwo change.now }
        requires laid { IsLaidBy (option_map R.rank (option_copied ranks)) indexes.now change.now }
        requires crew { IsCrew (λ v. v.items) (C.pre crew.now) (C.post crew.now) }
        ensures shifted { IfOk result (λ after. IsShifted (number_in change.now.gone) (number_in change.now.come) places.now self.now after) }
        ensures right { IfOk result (λ after. (tie : Tie) (events : List Written) → IsIndexOf tie events indexes.now → AreSidesOf tie events change.now → AreRight tie events self.now → AreRight tie events after) }
        ensures least { OnOk result (meter.new ≤ meter.old + sum_by (most_at change.now indexes.now self.now) places.now) }
        ensures refusal { OnlyNoMemory result }
    {
        let remade = self.made_for(alloc, indexes, crew, places, change, ranks, meter)?;
        let Remade {
            groups: made,
            slots,
        } = remade;
        if let Some(slots) = slots {
            return self.exchanged(alloc, slots.as_slice(), &made);
        }
        let mut seats = self.seats.get().copy()?;
        let groups = self.groups.copy()?;
        let moves = move_all(alloc, &mut seats, groups, places, &made)?;
        let seats = Shared::new(alloc, seats)?;
        let groups = moves.values.copy()?;
        Ok(Schedule { seats, groups })
    }
}
