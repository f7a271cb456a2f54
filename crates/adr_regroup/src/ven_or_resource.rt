//! What an edit of a ven or of a resource does to the schedule, place by place.
ghost use Rattle.std.specs.Prelude.{◌≡◌, ◌≤◌, ◌<◌, ◌+◌, ◌∷◌, [], ℕ, true, length, is_some, slice_get, sum_by, IfOk, OnOk};
ghost use Rattle.adr_refusal.specs.Answer.{OnlyNoMemory};
ghost use Rattle.adr_model.specs.Book.{resource_by};
ghost use Rattle.adr_model.specs.Touches.{touches};
ghost use Rattle.adr_group.specs.Jobs.{IsCrew};
ghost use Rattle.adr_schedule.specs.Moves.{is_among};
ghost use Rattle.adr_schedule.specs.Place.{LacksPlace, StaysRight};
ghost use Rattle.adr_schedule.specs.Seating.{AreSeatedFor};
ghost use Rattle.adr_regroup.specs.Compared.{most_compared_in, most_reseated_at};
ghost use Rattle.adr_regroup.specs.Edited.{IsEdited};
ghost use Rattle.adr_regroup.specs.Party.{AreSeatedBut, KeepsEvents};
ghost use Rattle.adr_regroup.specs.Kinds.{kind_of_edit};
ghost use Rattle.adr_object.specs.declared.object.Kind.TheVariants.{Ven as ven_kind, Resource as resource_kind};

use crate::basis::Basis;
use crate::edited::Edited;
use crate::places::places_for;
use crate::reseat::reseated_all;
use adr_book::Book;
use adr_group::{Done, RepairJob};
use adr_lines::Indexes;
use adr_object::{Edit, Id};
use adr_rule::Meter;
use adr_schedule::Schedule;
use adr_value::Refusal;
use std::alloc::Global;

/// The schedule where each of the places has the writes of the events that apply to its resource, after an edit that
/// leaves the programs and the events.
fn reseated_in<C: Fn(&Indexes, &[RepairJob]) -> Result<Vec<Done>, Refusal>>(
    alloc: Global,
    crew: &C,
    edited: &Edited<'_>,
    schedule: Schedule,
    places: &[usize],
    meter: &mut Meter,
) -> Result<Schedule, Refusal>
    requires crew { IsCrew (λ v. v.items) (C.pre crew.now) (C.post crew.now) }
    requires edited { IsEdited edited.now }
    requires kept { KeepsEvents edited.now.old.now.objects edited.now.new.now.objects }
    requires places { (p : ℕ) → is_among places.now p ≡ true → p < length edited.now.new.now.objects.resources }
    requires seated { AreSeatedBut edited.now.tie edited.now.new.now.objects places.now schedule }
    ensures seated { IfOk result (AreSeatedFor edited.now.tie edited.now.new.now.objects) }
    ensures least { OnOk result (meter.new ≤ meter.old + sum_by (most_reseated_at edited.now.new.now.objects schedule) places.now) }
    ensures refusal { OnlyNoMemory result }
{
    let basis = Basis {
        tie: edited.tie,
        old: edited.old,
        new: edited.new,
        keys: edited.keys,
        indexes: edited.indexes,
    };
    reseated_all(alloc, crew, &basis, schedule, places, meter)
}

/// The schedule after an edit of a ven. One that comes or goes has no resources. One that changes may have other events
/// apply to each of its resources: see `Schedule::rewritten`.
///
/// Cost: where a ven changes `Audiences::places_of_ven`, and for each of its resources a query of the keys and
/// `Schedule::rewritten`.
///
/// # Errors
///
/// `NoMemory` where there is no room.
pub fn after_ven<C: Fn(&Indexes, &[RepairJob]) -> Result<Vec<Done>, Refusal>>(
    alloc: Global,
    crew: &C,
    edited: &Edited<'_>,
    meter: &mut Meter,
) -> Result<Schedule, Refusal>
    requires crew { IsCrew (λ v. v.items) (C.pre crew.now) (C.post crew.now) }
    requires ven { kind_of_edit edited.now.edit.now ≡ ven_kind }
    requires edited { IsEdited edited.now }
    requires begun { meter.old ≡ 0 }
    ensures seated { IfOk result (AreSeatedFor edited.now.tie edited.now.new.now.objects) }
    ensures least { OnOk result (meter.new ≤ most_compared_in edited.now.new.now.objects (touches edited.now.old.now.objects edited.now.new.now.objects)) }
    ensures refusal { OnlyNoMemory result }
{
    edited.old.book_laws();
    edited.new.book_laws();
    let places = places_for(alloc, edited.old, edited.keys, edited.edit)?;
    let same = edited.schedule.copy()?;
    let after = reseated_in(alloc, crew, edited, same, &places, meter)?;
    Ok(after)
}

/// The schedule where the one place that has other events than before has the writes of those that apply now.
fn reseated_at<C: Fn(&Indexes, &[RepairJob]) -> Result<Vec<Done>, Refusal>>(
    alloc: Global,
    crew: &C,
    edited: &Edited<'_>,
    schedule: Schedule,
    place: usize,
    meter: &mut Meter,
) -> Result<Schedule, Refusal>
    requires crew { IsCrew (λ v. v.items) (C.pre crew.now) (C.post crew.now) }
    requires resource { kind_of_edit edited.now.edit.now ≡ resource_kind }
    requires edited { IsEdited edited.now }
    requires place { place < length edited.now.new.now.objects.resources }
    requires seated { AreSeatedBut edited.now.tie edited.now.new.now.objects (place ∷ []) schedule }
    requires begun { meter.old ≡ 0 }
    ensures seated { IfOk result (AreSeatedFor edited.now.tie edited.now.new.now.objects) }
    ensures least { OnOk result (meter.new ≤ most_reseated_at edited.now.new.now.objects schedule place) }
    ensures refusal { OnlyNoMemory result }
{
    let mut places = Vec::new(alloc);
    places.push(place)?;
    let after = reseated_in(alloc, crew, edited, schedule, &places, meter)?;
    Ok(after)
}

/// The schedule without the resource of the id.
fn without(alloc: Global, old: &Book, schedule: &Schedule, id: &Id) -> Result<Schedule, Refusal>
    requires there { is_some (resource_by old.now.objects id.now) ≡ true }
    requires count { length schedule.now.seats ≡ length old.now.objects.resources }
    ensures place { IfOk result (λ after. (p : ℕ) × (slice_get old.now.objects.resources p ≡ resource_by old.now.objects id.now) × LacksPlace p schedule.now after × StaysRight schedule.now after) }
    ensures refusal { OnlyNoMemory result }
{
    let Some(place) = old.resource_place(id.lent()) else {
        unreachable!();
    };
    schedule.without_place(alloc, place)
}

/// The schedule after an edit of a resource: its place comes, goes, or gets the writes of the events that apply to it
/// now.
///
/// Cost: a query of the keys and `Schedule::rewritten`.
///
/// # Errors
///
/// `NoMemory` where there is no room.
pub fn after_resource<C: Fn(&Indexes, &[RepairJob]) -> Result<Vec<Done>, Refusal>>(
    alloc: Global,
    crew: &C,
    edited: &Edited<'_>,
    meter: &mut Meter,
) -> Result<Schedule, Refusal>
    requires crew { IsCrew (λ v. v.items) (C.pre crew.now) (C.post crew.now) }
    requires resource { kind_of_edit edited.now.edit.now ≡ resource_kind }
    requires edited { IsEdited edited.now }
    requires begun { meter.old ≡ 0 }
    ensures seated { IfOk result (AreSeatedFor edited.now.tie edited.now.new.now.objects) }
    ensures least { OnOk result (meter.new ≤ most_compared_in edited.now.new.now.objects (touches edited.now.old.now.objects edited.now.new.now.objects)) }
    ensures refusal { OnlyNoMemory result }
{
    edited.old.book_laws();
    edited.new.book_laws();
    edited.schedule.schedule_laws();
    match edited.edit {
        Edit::Create(_) => {
            let more = edited.schedule.with_place(alloc)?;
            let place = edited.schedule.len();
            let after = reseated_at(alloc, crew, edited, more, place, meter)?;
            Ok(after)
        }
        Edit::Change(object) => {
            let Some(place) = edited.old.resource_place(object.id().lent()) else {
                unreachable!();
            };
            let same = edited.schedule.copy()?;
            let after = reseated_at(alloc, crew, edited, same, place, meter)?;
            Ok(after)
        }
        Edit::Remove(_, id) => {
            let after = without(alloc, edited.old, edited.schedule, id)?;
            Ok(after)
        }
    }
}
