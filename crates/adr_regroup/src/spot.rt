//! What writes a place gets by an edit of a ven or of a resource, and the group that goes with them.
ghost use Rattle.std.specs.Prelude.{◌≡◌, ◌≤◌, ◌+◌, ◌*◌, ◌<◌, ◌++◌, ℕ, List, Some, length, map, IfOk, OnOk};
ghost use Rattle.adr_refusal.specs.Answer.{OnlyNoMemory};
ghost use Rattle.adr_value.specs.declared.payload.PayloadType.{PayloadType as AnyType};
ghost use Rattle.adr_model.specs.Rank.{ranked};
ghost use Rattle.adr_audience.specs.Asks.{asked_keys};
ghost use Rattle.adr_audience.specs.Keys.{AreKeysOf};
ghost use Rattle.adr_audience.specs.Offers.{offers};
ghost use Rattle.adr_lines.specs.Grouped.{entries_under};
ghost use Rattle.adr_lines.specs.declared.indexes.Indexes.{Indexes as AnyIndexes};
ghost use Rattle.adr_group.specs.Group.{AreWindowsOf, Lines};
ghost use Rattle.adr_group.specs.Jobs.{IsCrew};
ghost use Rattle.adr_group.specs.Repair.{most_repaired};
ghost use Rattle.adr_lines.specs.Exchange.{IsIndexOf};
ghost use Rattle.adr_schedule.specs.Place.{IsRewritten};
ghost use Rattle.adr_schedule.specs.Seating.{group_at, AreRight};
ghost use Rattle.adr_model.specs.declared.written.Written.{Written};
ghost use Rattle.adr_regroup.specs.Compared.{cost_but, cost_unless, IsMostFor};
ghost use Rattle.adr_regroup.specs.Party.{entries_but, entries_unless, AreWritesFor};

use crate::basis::Basis;
use adr_audience::{Asked, Audiences, events_follow_asked};
use adr_book::Book;
use adr_group::{Done, RepairJob, Writes};
use adr_lines::{Indexes, TypeEntries, event_entries};
use adr_model::Tie;
use adr_object::{Resource, Ven};
use adr_rule::Meter;
use adr_schedule::Schedule;
use adr_value::Refusal;
use std::alloc::Global;

/// The numbers of the writes of the events of the book that apply to the resource of the ven, and to each other that
/// offers the same of what the events ask for.
pub(crate) fn writes_for(
    book: &Book,
    keys: &Audiences,
    asked: &Asked,
    resource: &Resource,
    ven: &Ven,
) -> Result<Writes, Refusal>
    requires keys { AreKeysOf book.now.objects keys.now }
    requires asked { asked.now ≡ asked_keys keys.now.asks (offers resource.now ven.now) }
    ensures writes { IfOk result (AreWritesFor book.now.objects asked.now) }
    ensures refusal { OnlyNoMemory result }
{
    book.book_laws();
    events_follow_asked();
    let numbers = keys.numbers_for(book.objects(), asked, resource, ven)?;
    Ok(Writes::of(numbers))
}

/// Adds the entries of the event of that number, unless it is among the others.
fn add_event(
    alloc: Global,
    tie: Tie,
    book: &Book,
    number: u64,
    others: &Writes,
    windows: &mut Vec<TypeEntries>,
) -> Result<(), Refusal>
    ensures entries { OnOk result ((k : AnyType) → entries_under windows.new.items k ≡ entries_under windows.old.items k ++ map (ranked tie) (entries_unless book.now.objects.events others.now number k)) }
    ensures least { OnOk result ((indexes : AnyIndexes) (writes : List ℕ) (cost : Written → ℕ) → IsMostFor tie book.now.objects.events indexes writes cost → most_repaired windows.new.items writes indexes ≤ most_repaired windows.old.items writes indexes + cost_unless cost book.now.objects.events others.now number) }
    ensures refusal { OnlyNoMemory result }
{
    if others.has(number) {
        return Ok(());
    }
    let Some(event) = book.event_by(number) else {
        return Ok(());
    };
    let mut groups = event_entries(alloc, tie, event, number)?;
    windows.append(&mut groups)?;
    Ok(())
}

/// Adds the entries of the events of those numbers that are not among the others.
fn add_events(
    alloc: Global,
    tie: Tie,
    book: &Book,
    numbers: &[u64],
    others: &Writes,
    windows: &mut Vec<TypeEntries>,
) -> Result<(), Refusal>
    ensures entries { OnOk result ((k : AnyType) → entries_under windows.new.items k ≡ entries_under windows.old.items k ++ map (ranked tie) (entries_but book.now.objects.events numbers.now others.now k)) }
    ensures least { OnOk result ((indexes : AnyIndexes) (writes : List ℕ) (cost : Written → ℕ) → IsMostFor tie book.now.objects.events indexes writes cost → most_repaired windows.new.items writes indexes ≤ most_repaired windows.old.items writes indexes + cost_but cost book.now.objects.events numbers.now others.now) }
    ensures refusal { OnlyNoMemory result }
{
    let mut rest = numbers;
    'rest: while let Some((number, more)) = rest.split_first() {
        add_event(alloc, tie, book, *number, others, windows)?;
        rest = more;
    }
    Ok(())
}

/// The entries of each event on which the writes differ.
fn difference(
    alloc: Global,
    tie: Tie,
    book: &Book,
    old: &Writes,
    new: &Writes,
) -> Result<Vec<TypeEntries>, Refusal>
    ensures windows { IfOk result (λ windows. AreWindowsOf book.now.objects.events old.now new.now (entries_under windows.items)) }
    ensures least { IfOk result (λ windows. (indexes : AnyIndexes) (writes : List ℕ) (cost : Written → ℕ) → IsMostFor tie book.now.objects.events indexes writes cost → most_repaired windows.items writes indexes ≤ cost_but cost book.now.objects.events old.now new.now + cost_but cost book.now.objects.events new.now old.now) }
    ensures refusal { OnlyNoMemory result }
{
    book.book_laws();
    let mut windows = Vec::new(alloc);
    add_events(alloc, tie, book, old.numbers(), new, &mut windows)?;
    add_events(alloc, tie, book, new.numbers(), old, &mut windows)?;
    Ok(windows)
}

/// A place, and one whose group it may share.
#[derive(Clone, Copy)]
pub(crate) struct Spot {
    pub(crate) place: usize,
    pub(crate) like: Option<usize>,
}

/// The schedule with these writes at the place, which shares the other's group where that has them.
pub(crate) fn with_writes<C: Fn(&Indexes, &[RepairJob]) -> Result<Vec<Done>, Refusal>>(
    alloc: Global,
    crew: &C,
    basis: &Basis<'_>,
    schedule: &Schedule,
    spot: Spot,
    writes: &Writes,
    meter: &mut Meter,
) -> Result<Schedule, Refusal>
    requires crew { IsCrew (λ v. v.items) (C.pre crew.now) (C.post crew.now) }
    requires within { spot.place < length schedule.now.seats }
    ensures writes { IfOk result (λ after. IsRewritten spot.place writes.now schedule.now after) }
    ensures right { IfOk result (λ after. IsIndexOf basis.now.tie basis.now.new.now.objects.events basis.now.indexes.now → AreRight basis.now.tie basis.now.new.now.objects.events schedule.now → AreRight basis.now.tie basis.now.new.now.objects.events after) }
    ensures least { (g : Lines) (cost : Written → ℕ) → group_at schedule.now spot.place ≡ Some g → IsMostFor basis.now.tie basis.now.new.now.objects.events basis.now.indexes.now writes.now cost → meter.new ≤ meter.old + (cost_but cost basis.now.new.now.objects.events g.writes writes.now + cost_but cost basis.now.new.now.objects.events writes.now g.writes) }
    ensures refusal { OnlyNoMemory result }
{
    schedule.schedule_laws();
    let place = spot.place;
    if let Some(after) = schedule.shared(alloc, place, spot.like, writes)? {
        return Ok(after);
    }
    let Some(group) = schedule.group(place) else {
        unreachable!();
    };
    let windows = difference(alloc, basis.tie, basis.new, group.writes(), writes)?;
    schedule.rewritten(alloc, basis.indexes, crew, place, writes, &windows, meter)
}
