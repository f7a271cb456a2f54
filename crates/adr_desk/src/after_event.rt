//! An accepted edit of an event, made to the indexes, the keys and the groups.
ghost use Rattle.std.specs.Prelude.{◌≡◌, ◌≤◌, true, IfOk, OnOk, OnErr};
ghost use Rattle.adr_refusal.specs.Answer.{OnlyNoMemory};
ghost use Rattle.adr_value.specs.declared.payload.PayloadType.{PayloadType as AnyType};
ghost use Rattle.adr_model.specs.Edits.{made};
ghost use Rattle.adr_model.specs.Touches.{touches};
ghost use Rattle.adr_audience.specs.Keys.{AreKeysOf};
ghost use Rattle.adr_index.specs.Index.{inserted_all, others_all, AreNew};
ghost use Rattle.adr_lines.specs.Grouped.{entries_under};
ghost use Rattle.adr_group.specs.Jobs.{IsCrew};
ghost use Rattle.adr_lines.specs.Exchange.{IsIndexOf};
ghost use Rattle.adr_lines.specs.Indexes.{under};
ghost use Rattle.adr_schedule.specs.Seating.{AreSeatedFor};
ghost use Rattle.adr_schedule.specs.Shift.{entries_in, AreTwo};
ghost use Rattle.adr_regroup.specs.Compared.{most_compared_in};
ghost use Rattle.adr_desk.specs.Accepted.{IsAccepted, IsChangeBy};
ghost use Rattle.adr_desk.specs.Desk.{IsDesk};
ghost use Rattle.adr_desk.specs.Edited.{come_of, with_come};
ghost use Rattle.adr_regroup.specs.Kinds.{kind_of_edit};
ghost use Rattle.adr_object.specs.declared.object.Kind.TheVariants.{Event as event_kind};

use crate::accepted::Accepted;
use crate::events::{joining, leaving};
use crate::ranks::NewestRanks;
use crate::side::{come_side, gone_side};
use adr_audience::Audiences;
use adr_group::{Done, RepairJob, right_moves};
use adr_lines::{Indexes, TypeEntries, exchange_laws};
use adr_rule::Meter;
use adr_schedule::{Change, Schedule, Side};
use adr_shared::Shared;
use adr_value::Refusal;
use std::alloc::Global;

fn entries(side: &Option<Side>) -> &[TypeEntries]
    ensures { result.now ≡ entries_in side.now }
{
    match side {
        Some(side) => side.entries.as_slice(),
        None => &[],
    }
}

/// Puts the entries of the event that comes into the indexes. `NoMemory` leaves all entries as they were.
fn put_in(alloc: Global, indexes: &mut Indexes, entering: &[TypeEntries]) -> Result<(), Refusal>
    requires fresh { (k : AnyType) → AreNew (entries_under entering.now k) (under indexes.old k) }
    ensures ok { OnOk result ((k : AnyType) → under indexes.new k ≡ inserted_all (entries_under entering.now k) (under indexes.old k)) }
    ensures err { OnErr result ((k : AnyType) → under indexes.new k ≡ under indexes.old k) }
    ensures refusal { OnlyNoMemory result }
{
    indexes.reserve(alloc, &[], entering)?;
    indexes.exchange(&[], entering);
    Ok(())
}

/// Takes the entries of an event out of the indexes.
fn take_out(indexes: &mut Indexes, leaving: &[TypeEntries])
    ensures { (k : AnyType) → under indexes.new k ≡ others_all (entries_under leaving.now k) (under indexes.old k) }
{
    indexes.exchange(leaving, &[]);
}

/// The groups where the one event goes and the other comes: first at the places to which the other comes, and then,
/// where these are not the same, at those which the one leaves.
fn regrouped<C: Fn(&Indexes, &[RepairJob]) -> Result<Vec<Done>, Refusal>>(
    alloc: Global,
    crew: &C,
    accepted: &Accepted<'_>,
    keys: &Audiences,
    indexes: &Indexes,
    change: &Change,
    meter: &mut Meter,
) -> Result<Schedule, Refusal>
    requires crew { IsCrew (λ v. v.items) (C.pre crew.now) (C.post crew.now) }
    requires change { IsChangeBy accepted.now change.now }
    requires two { AreTwo change.now }
    requires keys { AreKeysOf accepted.now.old.now.objects keys.now }
    requires indexed { IsIndexOf accepted.now.tie (with_come accepted.now.old.now.objects (come_of accepted.now.old.now.objects accepted.now.edit.now)) indexes.now }
    requires seated { AreSeatedFor accepted.now.tie accepted.now.old.now.objects accepted.now.schedule.now }
    requires begun { meter.old ≡ 0 }
    ensures seated { IfOk result (AreSeatedFor accepted.now.tie accepted.now.new.now.objects) }
    ensures least { OnOk result (meter.new ≤ most_compared_in accepted.now.new.now.objects (touches accepted.now.old.now.objects accepted.now.new.now.objects)) }
    ensures refusal { OnlyNoMemory result }
{
    right_moves();
    let joining = joining(alloc, keys, accepted.old, accepted.edit)?;
    let leaving = leaving(alloc, keys, accepted.old, accepted.edit)?;
    let newest = NewestRanks::of(accepted.old);
    let ranks = newest.under(accepted.tie);
    let mid = accepted.schedule.shifted(
        alloc,
        indexes,
        crew,
        joining.as_slice(),
        change,
        ranks,
        meter,
    )?;
    if leaving.as_slice() == joining.as_slice() {
        return Ok(mid);
    }
    let gone = gone_side(alloc, accepted.tie, accepted.old, accepted.edit)?;
    let alone = Change { gone, come: None };
    mid.shifted(
        alloc,
        indexes,
        crew,
        leaving.as_slice(),
        &alone,
        ranks,
        meter,
    )
}

/// The groups after the edit, and then the keys. A refused call leaves the keys.
fn followed<C: Fn(&Indexes, &[RepairJob]) -> Result<Vec<Done>, Refusal>>(
    alloc: Global,
    crew: &C,
    accepted: &Accepted<'_>,
    keys: &mut Audiences,
    indexes: &Indexes,
    change: &Change,
    meter: &mut Meter,
) -> Result<Shared<Schedule>, Refusal>
    requires crew { IsCrew (λ v. v.items) (C.pre crew.now) (C.post crew.now) }
    requires change { IsChangeBy accepted.now change.now }
    requires two { AreTwo change.now }
    requires keys { AreKeysOf accepted.now.old.now.objects keys.old }
    requires indexed { IsIndexOf accepted.now.tie (with_come accepted.now.old.now.objects (come_of accepted.now.old.now.objects accepted.now.edit.now)) indexes.now }
    requires seated { AreSeatedFor accepted.now.tie accepted.now.old.now.objects accepted.now.schedule.now }
    requires begun { meter.old ≡ 0 }
    ensures seated { IfOk result (AreSeatedFor accepted.now.tie accepted.now.new.now.objects) }
    ensures least { OnOk result (meter.new ≤ most_compared_in accepted.now.new.now.objects (touches accepted.now.old.now.objects accepted.now.new.now.objects)) }
    ensures keys { OnOk result (AreKeysOf (made accepted.now.old.now.objects accepted.now.edit.now) keys.new) }
    ensures unchanged { OnErr result (keys.new ≡ keys.old) }
    ensures refusal { OnlyNoMemory result }
{
    let after = regrouped(alloc, crew, accepted, keys, indexes, change, meter)?;
    let after = Shared::new(alloc, after)?;
    keys.follow(accepted.old.objects(), accepted.edit)?;
    Ok(after)
}

/// Makes the edit: the entries of the event that comes go in first, and out again where it is refused.
fn exchanged<C: Fn(&Indexes, &[RepairJob]) -> Result<Vec<Done>, Refusal>>(
    alloc: Global,
    crew: &C,
    accepted: &Accepted<'_>,
    keys: &mut Audiences,
    indexes: &mut Indexes,
    change: &Change,
    meter: &mut Meter,
) -> Result<Shared<Schedule>, Refusal>
    requires crew { IsCrew (λ v. v.items) (C.pre crew.now) (C.post crew.now) }
    requires change { IsChangeBy accepted.now change.now }
    requires desk { IsDesk accepted.now.tie accepted.now.old.now.objects keys.old indexes.old accepted.now.schedule.now }
    requires begun { meter.old ≡ 0 }
    ensures ok { IfOk result (λ after. IsDesk accepted.now.tie accepted.now.new.now.objects keys.new indexes.new after) }
    ensures least { OnOk result (meter.new ≤ most_compared_in accepted.now.new.now.objects (touches accepted.now.old.now.objects accepted.now.new.now.objects)) }
    ensures err { OnErr result (IsDesk accepted.now.tie accepted.now.old.now.objects keys.new indexes.new accepted.now.schedule.now) }
    ensures refusal { OnlyNoMemory result }
{
    exchange_laws();
    put_in(alloc, indexes, entries(&change.come))?;
    match followed(alloc, crew, accepted, keys, indexes, change, meter) {
        Ok(after) => {
            take_out(indexes, entries(&change.gone));
            Ok(after)
        }
        Err(refusal) => {
            take_out(indexes, entries(&change.come));
            Err(refusal)
        }
    }
}

/// Makes an accepted edit of an event to the keys and the indexes, and answers the groups after it. A refused call
/// leaves keys and indexes of the old book.
pub(crate) fn after_event<C: Fn(&Indexes, &[RepairJob]) -> Result<Vec<Done>, Refusal>>(
    alloc: Global,
    crew: &C,
    accepted: &Accepted<'_>,
    keys: &mut Audiences,
    indexes: &mut Indexes,
    meter: &mut Meter,
) -> Result<Shared<Schedule>, Refusal>
    requires crew { IsCrew (λ v. v.items) (C.pre crew.now) (C.post crew.now) }
    requires event { kind_of_edit accepted.now.edit.now ≡ event_kind }
    requires accepted { IsAccepted accepted.now keys.old indexes.old }
    requires begun { meter.old ≡ 0 }
    ensures ok { IfOk result (λ after. IsDesk accepted.now.tie accepted.now.new.now.objects keys.new indexes.new after) }
    ensures least { OnOk result (meter.new ≤ most_compared_in accepted.now.new.now.objects (touches accepted.now.old.now.objects accepted.now.new.now.objects)) }
    ensures err { OnErr result (IsDesk accepted.now.tie accepted.now.old.now.objects keys.new indexes.new accepted.now.schedule.now) }
    ensures refusal { OnlyNoMemory result }
{
    accepted.old.book_laws();
    accepted.new.book_laws();
    let come = come_side(
        alloc,
        accepted.tie,
        accepted.old,
        accepted.edit,
        accepted.layout,
    )?;
    let gone = gone_side(alloc, accepted.tie, accepted.old, accepted.edit)?;
    let change = Change { gone, come };
    exchanged(alloc, crew, accepted, keys, indexes, &change, meter)
}
