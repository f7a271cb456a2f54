//! A place comes, goes, or has other writes.
ghost use Rattle.std.specs.Prelude.{◌≡◌, ◌<◌, ◌≤◌, ◌+◌, ◌∷◌, [], ℕ, List, Some, length, slice_get, IfOk, IfSome, if◌then◌else◌};
ghost use Rattle.adr_refusal.specs.Answer.{OnlyNoMemory};
ghost use Rattle.adr_model.specs.declared.entry.Tie.{Tie};
ghost use Rattle.adr_model.specs.declared.written.Written.{Written};
ghost use Rattle.adr_shared.specs.Map.{without};
ghost use Rattle.adr_lines.specs.Grouped.{entries_under};
ghost use Rattle.adr_lines.specs.Exchange.{IsIndexOf};
ghost use Rattle.adr_group.specs.Group.{AreWindowsOf, IsRightOf, Lines};
ghost use Rattle.adr_group.specs.Jobs.{IsCrew};
ghost use Rattle.adr_group.specs.Repair.{most_repaired};
ghost use Rattle.adr_schedule.specs.Place.{HasPlace, HasValue, IsPlaced, IsRewritten, IsSlotWith, LacksPlace, StaysRight, StaysRightInside};
ghost use Rattle.adr_schedule.specs.Seating.{group_at};
ghost use Rattle.adr_schedule.specs.Slots.{in_slot, is_taken};

use crate::draft::draft_with;
use crate::made::one_made_by;
use crate::moves::{Moves, sit};
use crate::schedule::Schedule;
use adr_group::{Done, Group, RepairJob, Writes};
use adr_lines::{Indexes, TypeEntries};
use adr_rule::Meter;
use adr_seats::Seats;
use adr_shared::{Shared, SharedMap};
use adr_value::Refusal;
use std::alloc::Global;

/// How many groups are looked at for one that has the same writes: a place that is like no other pays for each.
const MOST_LOOKED_AT: usize = 256;

/// The groups but that of the slot, where no place has it.
fn without_unused(
    alloc: Global,
    groups: &SharedMap<u64, Group>,
    seats: &Seats,
    slot: u64,
) -> Result<SharedMap<u64, Group>, Refusal>
    ensures ok { IfOk result (λ kept. kept ≡ (if is_taken seats.now slot then groups.now else without (slot ∷ []) groups.now)) }
    ensures refusal { OnlyNoMemory result }
{
    if seats.is_taken(slot) {
        groups.copy()
    } else {
        groups.without(alloc, &slot)
    }
}

/// The group of those writes, made of the old one, which is in the slot: the crew does its jobs.
fn remade<C: Fn(&Indexes, &[RepairJob]) -> Result<Vec<Done>, Refusal>>(
    alloc: Global,
    indexes: &Indexes,
    crew: &C,
    slot: u64,
    group: &Group,
    writes: &Writes,
    windows: &[TypeEntries],
    meter: &mut Meter,
) -> Result<Group, Refusal>
    requires crew { IsCrew (λ v. v.items) (C.pre crew.now) (C.post crew.now) }
    ensures writes { IfOk result (λ made. made.writes ≡ writes.now) }
    ensures right { IfOk result (λ made. (tie : Tie) (events : List Written) → IsIndexOf tie events indexes.now → AreWindowsOf events group.now.writes writes.now (entries_under windows.now) → IsRightOf tie events group.now → IsRightOf tie events made) }
    ensures least { meter.new ≤ meter.old + most_repaired windows.now writes.now indexes.now }
    ensures refusal { OnlyNoMemory result }
{
    let draft = draft_with(alloc, slot, group, writes, windows)?;
    let made = one_made_by(alloc, indexes, crew, &draft, meter)?;
    Ok(made)
}

impl Schedule {
    /// The law of the places: each has a group.
    pub fn schedule_laws(&self)
        ensures { (place : ℕ) → place < length self.now.seats → (g : Lines) × (group_at self.now place ≡ Some g) }
    {
        let _ = &self.seats;
    }

    /// One more place, last, with a group of no writes. Cost: what is written of the table of seats is copied, 512
    /// places or slots at a time; the rest and the groups are shared.
    ///
    /// # Errors
    ///
    /// `NoMemory` where there is no room for it.
    pub fn with_place(&self, alloc: Global) -> Result<Schedule, Refusal>
        ensures place { IfOk result (λ after. HasPlace self.now after) }
        ensures right { IfOk result (λ after. StaysRight self.now after) }
        ensures refusal { OnlyNoMemory result }
    {
        let slot = self.seats.get().free_slot()?;
        let mut seats = self.seats.get().copy()?;
        seats.push(slot)?;
        let seats = Shared::new(alloc, seats)?;
        let groups = self.groups.put(alloc, slot, Group::new(alloc)?)?;
        Ok(Schedule { seats, groups })
    }

    /// Without the place: those after it move down, and a group that no place has any more goes. Cost: the table of
    /// seats is made anew; the groups are shared.
    ///
    /// # Errors
    ///
    /// `NoMemory` where there is no room for the copy.
    pub fn without_place(&self, alloc: Global, place: usize) -> Result<Schedule, Refusal>
        requires { place < length self.now.seats }
        ensures place { IfOk result (λ after. LacksPlace place self.now after) }
        ensures right { IfOk result (λ after. StaysRight self.now after) }
        ensures refusal { OnlyNoMemory result }
    {
        let Some(slot) = self.seats.get().slot(place) else {
            unreachable!();
        };
        let seats = self.seats.get().without(place)?;
        let groups = without_unused(alloc, &self.groups, &seats, slot)?;
        let seats = Shared::new(alloc, seats)?;
        Ok(Schedule { seats, groups })
    }

    /// The place moves from its slot to the next one.
    fn seated(
        &self,
        alloc: Global,
        groups: SharedMap<u64, Group>,
        place: usize,
        slot: u64,
        next: u64,
    ) -> Result<Schedule, Refusal>
        requires slot { slice_get self.now.seats place ≡ Some slot }
        requires value { HasValue self.now.seats next self.now.groups groups }
        ensures placed { IfOk result (λ after. (g : Lines) → in_slot groups next ≡ Some g → IsPlaced place g self.now after) }
        ensures refusal { OnlyNoMemory result }
    {
        let mut seats = self.seats.get().copy()?;
        let moves = sit(alloc, &mut seats, Moves::new(groups), place, slot, next)?;
        let seats = Shared::new(alloc, seats)?;
        let groups = moves.values.copy()?;
        Ok(Schedule { seats, groups })
    }

    /// The place has the group of that slot, which some place has.
    fn beside(&self, alloc: Global, place: usize, slot: u64, next: u64) -> Result<Schedule, Refusal>
        requires slot { slice_get self.now.seats place ≡ Some slot }
        requires next { (p : ℕ) × (slice_get self.now.seats p ≡ Some next) }
        ensures placed { IfOk result (λ after. (g : Lines) → in_slot self.now.groups next ≡ Some g → IsPlaced place g self.now after) }
        ensures refusal { OnlyNoMemory result }
    {
        let groups = self.groups.copy()?;
        self.seated(alloc, groups, place, slot, next)
    }

    /// The place has this group, in a slot of its own.
    fn apart(
        &self,
        alloc: Global,
        place: usize,
        slot: u64,
        group: Group,
    ) -> Result<Schedule, Refusal>
        requires { slice_get self.now.seats place ≡ Some slot }
        ensures placed { IfOk result (λ after. IsPlaced place group self.now after) }
        ensures refusal { OnlyNoMemory result }
    {
        let next = self.seats.get().free_slot()?;
        let groups = self.groups.put(alloc, next, group)?;
        self.seated(alloc, groups, place, slot, next)
    }

    /// The slot of the place, where its group has these writes.
    fn slot_with(&self, place: Option<usize>, writes: &Writes) -> Option<u64>
        ensures { IfSome result (IsSlotWith self.now writes.now) }
    {
        let slot = self.seats.get().slot(place?)?;
        match self.groups.get(&slot) {
            Some(group) if group.writes().same(writes) => Some(slot),
            _ => None,
        }
    }

    /// The slot of the group at that place among the groups, where it has these writes.
    fn slot_at(&self, at: usize, writes: &Writes) -> Option<u64>
        ensures { IfSome result (IsSlotWith self.now writes.now) }
    {
        let slot = *self.groups.key_at(at)?;
        let taken = self.seats.get().is_taken(slot);
        match self.groups.get(&slot) {
            Some(group) if taken && group.writes().same(writes) => Some(slot),
            _ => None,
        }
    }

    /// The first slot whose group has these writes, among the first groups.
    fn slot_among(&self, writes: &Writes) -> Option<u64>
        ensures { IfSome result (IsSlotWith self.now writes.now) }
    {
        for at in 0..self.groups.len().min(MOST_LOOKED_AT) {
            let found = self.slot_at(at, writes);
            if found.is_some() {
                return found;
            }
        }
        None
    }

    /// The schedule where the place has these writes, if nothing is to be built for them: it shares the group of the
    /// place `like` where that one has them, keeps its own where that has, and else shares one of the first groups that
    /// has.
    ///
    /// Cost: a copy of what is written of the table of seats, and a look at each of the first 256 groups.
    ///
    /// # Errors
    ///
    /// `NoMemory` where there is no room.
    pub fn shared(
        &self,
        alloc: Global,
        place: usize,
        like: Option<usize>,
        writes: &Writes,
    ) -> Result<Option<Schedule>, Refusal>
        requires { place < length self.now.seats }
        ensures writes { IfOk result (λ after. IfSome after (IsRewritten place writes.now self.now)) }
        ensures right { IfOk result (λ after. IfSome after (StaysRight self.now)) }
        ensures refusal { OnlyNoMemory result }
    {
        let Some(slot) = self.seats.get().slot(place) else {
            unreachable!();
        };
        let Some(group) = self.groups.get(&slot) else {
            unreachable!();
        };
        if let Some(next) = self.slot_with(like, writes) {
            let after = self.beside(alloc, place, slot, next)?;
            return Ok(Some(after));
        }
        if group.writes().same(writes) {
            let after = self.copy()?;
            return Ok(Some(after));
        }
        if let Some(next) = self.slot_among(writes) {
            let after = self.beside(alloc, place, slot, next)?;
            return Ok(Some(after));
        }
        Ok(None)
    }

    /// Gives the place these writes: a group is made of the old one by repair inside the windows, which must hold the
    /// entries of each event on which the writes differ. The crew does that, one job a payload type.
    /// [`Schedule::shared`] may spare it.
    ///
    /// Cost: a copy of what is written of the table of seats, one of the windows, and that of the jobs.
    ///
    /// # Errors
    ///
    /// `NoMemory` where there is no room.
    pub fn rewritten<C: Fn(&Indexes, &[RepairJob]) -> Result<Vec<Done>, Refusal>>(
        &self,
        alloc: Global,
        indexes: &Indexes,
        crew: &C,
        place: usize,
        writes: &Writes,
        windows: &[TypeEntries],
        meter: &mut Meter,
    ) -> Result<Schedule, Refusal>
        requires within { place < length self.now.seats }
        requires crew { IsCrew (λ v. v.items) (C.pre crew.now) (C.post crew.now) }
        ensures writes { IfOk result (λ after. IsRewritten place writes.now self.now after) }
        ensures right { IfOk result (λ after. StaysRightInside indexes.now windows.now place writes.now self.now after) }
        ensures least { meter.new ≤ meter.old + most_repaired windows.now writes.now indexes.now }
        ensures refusal { OnlyNoMemory result }
    {
        let Some(slot) = self.seats.get().slot(place) else {
            unreachable!();
        };
        let Some(group) = self.groups.get(&slot) else {
            unreachable!();
        };
        let made = remade(alloc, indexes, crew, slot, group, writes, windows, meter)?;
        self.apart(alloc, place, slot, made)
    }
}
