//! Places get the writes of the events that apply to their resources now.
ghost use Rattle.std.specs.Prelude.{◌≡◌, ◌<◌, ◌≤◌, ◌+◌, ◌*◌, ◌∷◌, ℕ, true, Some, length, sum_by, IfOk, IfSome, OnOk};
ghost use Rattle.std.specs.List.Sorted.{IsStrictlyIncreasing};
ghost use Rattle.adr_refusal.specs.Answer.{OnlyNoMemory};
ghost use Rattle.adr_audience.specs.Asks.{asked_keys};
ghost use Rattle.adr_audience.specs.Offers.{offers};
ghost use Rattle.adr_group.specs.Group.{Lines};
ghost use Rattle.adr_group.specs.Jobs.{IsCrew};
ghost use Rattle.adr_schedule.specs.Moves.{is_among};
ghost use Rattle.adr_schedule.specs.Seating.{group_at, AreSeatedFor};
ghost use Rattle.adr_regroup.specs.Compared.{most_reseated_at};
ghost use Rattle.adr_regroup.specs.Edited.{IsBasis};
ghost use Rattle.adr_regroup.specs.Party.{AreSeatedBut, AreWritesAt, IsSeen};

use crate::basis::Basis;
use crate::spot::{Spot, with_writes, writes_for};
use adr_audience::Asked;
use adr_group::{Done, RepairJob, Writes};
use adr_lines::Indexes;
use adr_object::{Resource, Ven};
use adr_rule::Meter;
use adr_schedule::Schedule;
use adr_value::Refusal;
use std::alloc::Global;
use std::ops::Range;

/// What was seen of a place: what its resource offers of the keys that events ask for, and the writes of the events that
/// apply to it.
#[derive(Drop)]
pub(crate) struct Seen {
    pub(crate) asked: Asked,
    pub(crate) writes: Writes,
}

/// What is seen of the place whose resource has these keys. Where the resource of the last place had the same, it is
/// what was seen there, and no event is judged again.
fn seen_with(
    basis: &Basis<'_>,
    asked: Asked,
    resource: &Resource,
    ven: &Ven,
    last: Option<Seen>,
) -> Result<Seen, Refusal>
    requires basis { IsBasis basis.now }
    requires asked { asked ≡ asked_keys basis.now.keys.now.asks (offers resource.now ven.now) }
    requires last { IfSome last (IsSeen basis.now.old.now.objects) }
    ensures seen { IfOk result (IsSeen basis.now.old.now.objects) }
    ensures asked { IfOk result (λ seen. seen.asked ≡ asked) }
    ensures refusal { OnlyNoMemory result }
{
    if let Some(seen) = last {
        if seen.asked.same(&asked) {
            return Ok(seen);
        }
    }
    let writes = writes_for(basis.old, basis.keys, &asked, resource, ven)?;
    Ok(Seen { asked, writes })
}

/// What is seen of the place of the new book, by the keys of the old one and by what was seen of the last place.
fn seen_at(basis: &Basis<'_>, place: usize, last: Option<Seen>) -> Result<Seen, Refusal>
    requires place { place < length basis.now.new.now.objects.resources }
    requires basis { IsBasis basis.now }
    requires last { IfSome last (IsSeen basis.now.old.now.objects) }
    ensures seen { IfOk result (IsSeen basis.now.old.now.objects) }
    ensures writes { IfOk result (λ seen. AreWritesAt basis.now.new.now.objects place seen.writes) }
    ensures refusal { OnlyNoMemory result }
{
    basis.new.book_laws();
    let Some(resource) = basis.new.resource_at(place) else {
        unreachable!();
    };
    let Some(ven) = basis.new.ven(&resource.ven_id) else {
        unreachable!();
    };
    let asked = basis.keys.asked(resource, ven)?;
    let seen = seen_with(basis, asked, resource, ven, last)?;
    Ok(seen)
}

/// The law of the writes of a group: they ascend.
fn writes_ascend(schedule: &Schedule, place: usize)
    ensures { (g : Lines) → group_at schedule.now place ≡ Some g → IsStrictlyIncreasing g.writes }
{
    if let Some(group) = schedule.group(place) {
        let _ = group.writes().numbers();
    }
}

/// How many places on each side are looked at for a group that a place can share.
const NEAR: usize = 64;

/// Whether the group of the place has these writes.
fn has_writes(schedule: &Schedule, place: usize, writes: &Writes) -> bool {
    match schedule.group(place) {
        Some(group) => group.writes().same(writes),
        None => false,
    }
}

/// The first of the places whose group has these writes.
fn first_with(schedule: &Schedule, places: Range<usize>, writes: &Writes) -> Option<usize> {
    for near in places {
        if has_writes(schedule, near, writes) {
            return Some(near);
        }
    }
    None
}

/// A place whose group has these writes, if the one that is like it does or one a little before the place or behind it.
/// It may be any: a group is shared only where its writes are the same.
fn place_like(schedule: &Schedule, spot: Spot, writes: &Writes) -> Option<usize> {
    if let Some(near) = spot.like {
        if has_writes(schedule, near, writes) {
            return spot.like;
        }
    }
    let before = spot.place.saturating_sub(NEAR)..spot.place;
    let behind = spot.place.saturating_add(1)..spot.place.saturating_add(NEAR);
    first_with(schedule, before, writes).or_else(|| first_with(schedule, behind, writes))
}

/// The schedule where the place has these writes, those of the events that apply to its resource, which leaves the
/// others to be seen to.
fn reseated<C: Fn(&Indexes, &[RepairJob]) -> Result<Vec<Done>, Refusal>>(
    alloc: Global,
    crew: &C,
    basis: &Basis<'_>,
    schedule: &Schedule,
    spot: Spot,
    writes: &Writes,
    others: &[usize],
    meter: &mut Meter,
) -> Result<Schedule, Refusal>
    requires crew { IsCrew (λ v. v.items) (C.pre crew.now) (C.post crew.now) }
    requires place { spot.place < length basis.now.new.now.objects.resources }
    requires basis { IsBasis basis.now }
    requires writes { AreWritesAt basis.now.new.now.objects spot.place writes.now }
    requires seated { AreSeatedBut basis.now.tie basis.now.new.now.objects (spot.place ∷ others.now) schedule.now }
    ensures seated { IfOk result (AreSeatedBut basis.now.tie basis.now.new.now.objects others.now) }
    ensures least { OnOk result (meter.new ≤ meter.old + most_reseated_at basis.now.new.now.objects schedule.now spot.place) }
    ensures fewer { IfOk result (λ after. (p : ℕ) → most_reseated_at basis.now.new.now.objects after p ≤ most_reseated_at basis.now.new.now.objects schedule.now p) }
    ensures refusal { OnlyNoMemory result }
{
    basis.new.book_laws();
    schedule.schedule_laws();
    let place = spot.place;
    let _ = writes.numbers();
    writes_ascend(schedule, place);
    let like = place_like(schedule, spot, writes);
    let near = Spot { place, like };
    let after = with_writes(alloc, crew, basis, schedule, near, writes, meter)?;
    Ok(after)
}

/// The schedule where each of the places has the writes of the events that apply to its resource. A place shares the
/// group of the last one that was seen to, or of one near it, where that has the same writes; and its writes are not
/// asked for where its resource offers the same of what events ask for.
pub(crate) fn reseated_all<C: Fn(&Indexes, &[RepairJob]) -> Result<Vec<Done>, Refusal>>(
    alloc: Global,
    crew: &C,
    basis: &Basis<'_>,
    schedule: Schedule,
    places: &[usize],
    meter: &mut Meter,
) -> Result<Schedule, Refusal>
    requires crew { IsCrew (λ v. v.items) (C.pre crew.now) (C.post crew.now) }
    requires places { (p : ℕ) → is_among places.now p ≡ true → p < length basis.now.new.now.objects.resources }
    requires basis { IsBasis basis.now }
    requires seated { AreSeatedBut basis.now.tie basis.now.new.now.objects places.now schedule }
    ensures seated { IfOk result (AreSeatedFor basis.now.tie basis.now.new.now.objects) }
    ensures least { OnOk result (meter.new ≤ meter.old + sum_by (most_reseated_at basis.now.new.now.objects schedule) places.now) }
    ensures refusal { OnlyNoMemory result }
{
    let mut after = schedule;
    let mut last = None;
    let mut like = None;
    let mut rest = places;
    'rest: while let Some((place, others)) = rest.split_first() {
        let place = *place;
        let seen = seen_at(basis, place, last)?;
        let spot = Spot { place, like };
        after = reseated(
            alloc,
            crew,
            basis,
            &after,
            spot,
            &seen.writes,
            others,
            meter,
        )?;
        last = Some(seen);
        like = Some(place);
        rest = others;
    }
    Ok(after)
}
