//! The entries of a payload type for a resource, found by going through all events.
ghost use Rattle.std.specs.Prelude.{◌≡◌, ◌++◌, [], OnOk, IfOk};
ghost use Rattle.std.specs.Result.{result_unwrap_or};
ghost use Rattle.adr_refusal.specs.Answer.{OnlyNoMemory};
ghost use Rattle.adr_model.specs.Governor.{entry_at, entries_of, entries_for as entries_of_type, ranked_entries as entries_by_rank};
ghost use Rattle.adr_model.specs.Layout.{layout, placed_from};
ghost use Rattle.adr_model.specs.Rank.{carries as has_type, late_of as lateness, priority_of as priority_number, ranked as ranked_by};
ghost use Rattle.adr_plain.specs.Scan.{entries_at, placed_entries, written_event};
ghost use Rattle.adr_value.specs.Same.{same_type as is_same_type};

use adr_book::Book;
use adr_layout::{Placed, lay_out};
use adr_model::{Entry, Rank, Tie};
use adr_object::{Event, Id, Interval, Kind, Resource};
use adr_time::Moment;
use adr_touches::is_applied;
use adr_value::{PayloadType, Refusal};
use std::alloc::Global;

/// Whether two payload types are one.
pub(crate) fn same_type(a: &PayloadType, b: &PayloadType) -> bool
    ensures { result ≡ is_same_type a.now b.now }
{
    a.name() == b.name()
}

fn carries(interval: &Interval, payload_type: &PayloadType) -> bool
    ensures { result ≡ has_type interval.now payload_type.now }
{
    interval
        .payloads
        .as_slice()
        .iter()
        .any(|payload| same_type(&payload.kind, payload_type))
}

fn priority_of(priority: Option<u32>) -> u64
    ensures { result ≡ priority_number priority }
{
    match priority {
        Some(priority) => u64::from(priority),
        None => 1 << 32,
    }
}

/// The entry of an interval of the event that the edit of that number wrote.
fn entry(event: &Event, written: u64, placed: &Placed) -> Entry
    ensures { result ≡ entry_at (written_event event.now written) placed.now.place placed.now.span }
{
    Entry {
        rank: Rank {
            priority: priority_of(event.priority),
            late: 0,
            written,
            place: placed.place,
        },
        span: placed.span,
    }
}

/// Where the intervals of an event lie; none where its layout has a fault.
#[tactic(auto, using(crate::proofs::Placing::placed_spans), unfolding(adr_model::specs::Layout::layout))]
fn places(alloc: Global, event: &Event) -> Result<Vec<Placed>, Refusal>
    ensures ok { IfOk result (λ places. places.items ≡ placed_from 0 (result_unwrap_or (layout event.now) [])) }
    ensures memory { OnlyNoMemory result }
{
    match lay_out(alloc, event) {
        Ok(places) => Ok(places),
        Err(refusal) => {
            if refusal == Refusal::NoMemory {
                return Err(refusal);
            }
            Ok(Vec::new(alloc))
        }
    }
}

/// Adds the entries of an event's intervals that carry the type.
fn add_entries(
    entries: &mut Vec<Entry>,
    alloc: Global,
    event: &Event,
    written: u64,
    payload_type: &PayloadType,
) -> Result<(), Refusal>
    ensures ok { OnOk result (entries.new.items ≡ entries.old.items ++ entries_of payload_type.now (written_event event.now written)) }
    ensures memory { OnlyNoMemory result }
{
    let places = places(alloc, event)?;
    add_placed(entries, event, written, places.as_slice(), payload_type)
}

// Two lists are walked in step.
fn add_placed(
    entries: &mut Vec<Entry>,
    event: &Event,
    written: u64,
    places: &[Placed],
    payload_type: &PayloadType,
) -> Result<(), Refusal>
    ensures ok { OnOk result (entries.new.items ≡ entries.old.items ++ placed_entries payload_type.now (written_event event.now written) event.now.intervals places.now) }
    ensures memory { OnlyNoMemory result }
{
    let mut intervals = event.intervals.as_slice();
    let mut places = places;
    'rest: while let Some((place, others)) = places.split_first() {
        let Some((interval, more)) = intervals.split_first() else {
            return Ok(());
        };
        if carries(interval, payload_type) {
            entries.push(entry(event, written, place))?;
        }
        intervals = more;
        places = others;
    }
    Ok(())
}

/// Adds the entries of the event at the place, if it applies to the resource.
fn add_event(
    entries: &mut Vec<Entry>,
    book: &Book,
    resource: &Resource,
    place: usize,
    payload_type: &PayloadType,
) -> Result<(), Refusal>
    ensures ok { OnOk result (entries.new.items ≡ entries.old.items ++ entries_at book.now.objects resource.now payload_type.now place) }
    ensures memory { OnlyNoMemory result }
{
    let Some(event) = book.event_at(place) else {
        return Ok(());
    };
    let Some(written) = book.written_at(place) else {
        return Ok(());
    };
    if !is_applied(book, resource, event) {
        return Ok(());
    }
    add_entries(entries, *entries.allocator(), event, written, payload_type)
}

/// The entries of the type in the events that apply to the resource.
#[tactic(auto, using(adr_calendar::proofs::Walked::one_more))]
fn entries_for(
    alloc: Global,
    book: &Book,
    id: &Id,
    payload_type: &PayloadType,
) -> Result<Vec<Entry>, Refusal>
    ensures ok { IfOk result (λ entries. entries.items ≡ entries_of_type book.now.objects id.now payload_type.now) }
    ensures memory { OnlyNoMemory result }
{
    let mut entries = Vec::new(alloc);
    let Some(resource) = book.resource(id) else {
        return Ok(entries);
    };
    for place in 0..book.count(Kind::Event) {
        add_event(&mut entries, book, resource, place, payload_type)?;
    }
    Ok(entries)
}

/// How late an interval counts that starts then.
fn late_of(tie: Tie, start: Moment) -> i128
    ensures { result ≡ lateness tie start }
{
    match tie {
        Tie::Newest => 0,
        Tie::LatestStart => -start.nanoseconds(),
    }
}

fn ranked(tie: Tie, entry: &Entry) -> Entry
    ensures { result ≡ ranked_by tie entry.now }
{
    Entry {
        rank: Rank {
            late: late_of(tie, entry.span.start),
            ..entry.rank
        },
        span: entry.span,
    }
}

/// The entries of the type for the resource, as they compete under the rule for ties.
pub(crate) fn ranked_entries(
    alloc: Global,
    book: &Book,
    tie: Tie,
    id: &Id,
    payload_type: &PayloadType,
) -> Result<Vec<Entry>, Refusal>
    ensures ok { IfOk result (λ entries. entries.items ≡ entries_by_rank tie book.now.objects id.now payload_type.now) }
    ensures memory { OnlyNoMemory result }
{
    let entries = entries_for(alloc, book, id, payload_type)?;
    Ok(
        entries
            .iter()
            .map(|entry| ranked(tie, entry))
            .collect(alloc)?,
    )
}
