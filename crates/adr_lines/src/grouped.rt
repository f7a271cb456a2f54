//! The entries of an event, under each of its payload types.
ghost use Rattle.std.specs.Prelude.{◌≡◌, ◌++◌, ◌∷◌, [], map, position, IfOk, OnOk};
ghost use Rattle.std.specs.List.{list_any};
ghost use Rattle.std.specs.Result.{result_unwrap_or};
ghost use Rattle.adr_refusal.specs.Answer.{OnlyNoMemory};
ghost use Rattle.adr_value.specs.Same.{same_type as is_same_type};
ghost use Rattle.adr_value.specs.declared.payload.PayloadType.{PayloadType as AnyType};
ghost use Rattle.adr_model.specs.Governor.{entries_of, entry_at};
ghost use Rattle.adr_model.specs.Layout.{layout, placed_from};
ghost use Rattle.adr_model.specs.Rank.{late_of as lateness, priority_of as priority_number, ranked};
ghost use Rattle.adr_model.specs.Touches.{types_of};
ghost use Rattle.adr_lines.specs.Grouped.{entries_at, entries_under, once_for_each, unless_carried, written_event, HaveOwnTypes};

use adr_layout::{Placed, lay_out};
use adr_model::{Entry, Rank, Tie};
use adr_object::{Event, Payload};
use adr_time::{Moment, Span};
use adr_value::{PayloadType, Refusal};
use std::alloc::Global;

/// An event's entries under one payload type, as they compete under the rule for ties.
pub struct TypeEntries {
    /// What the entries compete for; no two groups of a list have types of one name.
    pub payload_type: PayloadType,
    /// An entry for each interval that carries the type, in the order in which they were added.
    pub entries: Vec<Entry>,
}

// A function of its own, so that callers that let a value go need not look into it.
impl Drop for TypeEntries {
    fn drop(self) {
        let TypeEntries {
            payload_type,
            entries,
        } = self;
        drop(payload_type);
        drop(entries);
    }
}

fn priority_of(priority: Option<u32>) -> u64
    ensures { result ≡ priority_number priority }
{
    match priority {
        Some(priority) => u64::from(priority),
        None => 1 << 32,
    }
}

/// How late an interval counts that starts then.
fn late_of(tie: Tie, start: Moment) -> i128
    ensures { result ≡ lateness tie start }
{
    match tie {
        Tie::Newest => 0,
        Tie::LatestStart => -start.nanoseconds(),
    }
}

/// The entry of an interval of the event that the edit of that number wrote, as it competes.
fn entry(tie: Tie, event: &Event, written: u64, placed: &Placed) -> Entry
    ensures { result ≡ ranked tie (entry_at (written_event event.now written) placed.now.place placed.now.span) }
{
    Entry {
        rank: Rank {
            priority: priority_of(event.priority),
            late: late_of(tie, placed.span.start),
            written,
            place: placed.place,
        },
        span: placed.span,
    }
}

/// Where the intervals of an event lie; nowhere where its layout has a fault.
#[tactic(auto, using(crate::proofs::Intervals::placed_spans, crate::proofs::Intervals::no_span), unfolding(adr_model::specs::Layout::layout))]
fn places(alloc: Global, event: &Event) -> Result<Vec<Placed>, Refusal>
    ensures ok { IfOk result (λ places. places.items ≡ placed_from 0 (result_unwrap_or (layout event.now) [])) }
    ensures memory { OnlyNoMemory result }
{
    match lay_out(alloc, event) {
        Ok(places) => Ok(places),
        Err(refusal) => {
            if refusal == Refusal::NoMemory {
                return Err(refusal);
            }
            Ok(Vec::new(alloc))
        }
    }
}

fn carry(payloads: &[Payload], payload_type: &PayloadType) -> bool
    ensures { result ≡ list_any (λ p. is_same_type p.kind payload_type.now) payloads.now }
{
    payloads
        .iter()
        .any(|payload| payload.kind.name() == payload_type.name())
}

/// Where the group of the type stands.
fn place_of(groups: &[TypeEntries], payload_type: &PayloadType) -> Option<usize>
    ensures { result ≡ position (λ g. is_same_type g.payload_type payload_type.now) groups.now }
{
    groups
        .iter()
        .position(|group| group.payload_type.name() == payload_type.name())
}

/// Adds an entry at the end.
fn push(entries: &mut Vec<Entry>, entry: &Entry) -> Result<(), Refusal>
    ensures ok { OnOk result (entries.new.items ≡ entries.old.items ++ entry.now ∷ []) }
    ensures memory { OnlyNoMemory result }
{
    let Span { start, end } = entry.span;
    entries.push(Entry {
        rank: entry.rank,
        span: Span { start, end },
    })?;
    Ok(())
}

/// A group of one entry, with room for so many.
fn group_of(
    alloc: Global,
    payload_type: &PayloadType,
    entry: &Entry,
    room: usize,
) -> Result<TypeEntries, Refusal>
    ensures payload_type { IfOk result (λ group. group.payload_type ≡ payload_type.now) }
    ensures entries { IfOk result (λ group. group.entries.items ≡ entry.now ∷ []) }
    ensures memory { OnlyNoMemory result }
{
    let payload_type = payload_type.copy()?;
    let mut entries = Vec::with_capacity(alloc, room)?;
    push(&mut entries, entry)?;
    Ok(TypeEntries {
        payload_type,
        entries,
    })
}

/// Adds the entry under the type. The first group gets room for an entry of each interval that is left, so that it need
/// not grow: most events have one type.
fn add_entry(
    groups: &mut Vec<TypeEntries>,
    payload_type: &PayloadType,
    entry: &Entry,
    left: usize,
) -> Result<(), Refusal>
    requires { HaveOwnTypes groups.old.items }
    ensures entries { OnOk result ((k : AnyType) → entries_under groups.new.items k ≡ entries_under groups.old.items k ++ once_for_each entry.now (payload_type.now ∷ []) k) }
    ensures types { OnOk result (HaveOwnTypes groups.new.items) }
    ensures memory { OnlyNoMemory result }
{
    if let Some(place) = place_of(groups.as_slice(), payload_type) {
        push(&mut groups[place].entries, entry)?;
        return Ok(());
    }
    let room = if groups.is_empty() { left } else { 1 };
    let group = group_of(*groups.allocator(), payload_type, entry, room)?;
    groups.push(group)?;
    Ok(())
}

/// Adds the entry under the type, unless one of the earlier payloads has that.
fn add_type(
    groups: &mut Vec<TypeEntries>,
    entry: &Entry,
    earlier: &[Payload],
    payload_type: &PayloadType,
    left: usize,
) -> Result<(), Refusal>
    requires { HaveOwnTypes groups.old.items }
    ensures entries { OnOk result ((k : AnyType) → entries_under groups.new.items k ≡ entries_under groups.old.items k ++ once_for_each entry.now (unless_carried earlier.now payload_type.now) k) }
    ensures types { OnOk result (HaveOwnTypes groups.new.items) }
    ensures memory { OnlyNoMemory result }
{
    if carry(earlier, payload_type) {
        return Ok(());
    }
    add_entry(groups, payload_type, entry, left)
}

/// Adds the entry under each type of the payloads.
fn add_types(
    groups: &mut Vec<TypeEntries>,
    entry: &Entry,
    payloads: &[Payload],
    left: usize,
) -> Result<(), Refusal>
    requires { HaveOwnTypes groups.old.items }
    ensures entries { OnOk result ((k : AnyType) → entries_under groups.new.items k ≡ entries_under groups.old.items k ++ once_for_each entry.now (types_of payloads.now) k) }
    ensures types { OnOk result (HaveOwnTypes groups.new.items) }
    ensures memory { OnlyNoMemory result }
{
    for (place, payload) in payloads.iter().enumerate() {
        add_type(groups, entry, &payloads[..place], &payload.kind, left)?;
    }
    Ok(())
}

// Two lists are walked in step.
fn add_intervals(
    groups: &mut Vec<TypeEntries>,
    tie: Tie,
    event: &Event,
    written: u64,
    places: &[Placed],
) -> Result<(), Refusal>
    requires { HaveOwnTypes groups.old.items }
    ensures entries { OnOk result ((k : AnyType) → entries_under groups.new.items k ≡ entries_under groups.old.items k ++ entries_at tie (written_event event.now written) event.now.intervals places.now k) }
    ensures types { OnOk result (HaveOwnTypes groups.new.items) }
    ensures memory { OnlyNoMemory result }
{
    let mut intervals = event.intervals.as_slice();
    let mut places = places;
    'rest: while let Some((place, others)) = places.split_first() {
        let Some((interval, more)) = intervals.split_first() else {
            return Ok(());
        };
        let entry = entry(tie, event, written, place);
        add_types(groups, &entry, interval.payloads.as_slice(), places.len())?;
        intervals = more;
        places = others;
    }
    Ok(())
}

/// What [`event_entries`] answers, of an event that is laid out already: its intervals lie at those places.
///
/// Cost: the types of an interval's payloads are compared by name in pairs, and each with those of the groups so far.
/// The groups have an entry for each interval and each of its types.
///
/// # Errors
///
/// `NoMemory` where there is no room for the groups.
pub fn placed_entries(
    alloc: Global,
    tie: Tie,
    event: &Event,
    written: u64,
    places: &[Placed],
) -> Result<Vec<TypeEntries>, Refusal>
    requires { places.now ≡ placed_from 0 (result_unwrap_or (layout event.now) []) }
    ensures entries { IfOk result (λ groups. (k : AnyType) → entries_under groups.items k ≡ map (ranked tie) (entries_of k (written_event event.now written))) }
    ensures types { IfOk result (λ groups. HaveOwnTypes groups.items) }
    ensures memory { OnlyNoMemory result }
{
    let mut groups = Vec::new(alloc);
    add_intervals(&mut groups, tie, event, written, places)?;
    Ok(groups)
}

/// Where the event that the edit of that number wrote competes under the rule for ties: for each of its payload
/// types the entries of the intervals that carry it, in order, and none where its layout has a fault.
///
/// Cost: the event is laid out once; for the rest see [`placed_entries`].
///
/// # Errors
///
/// `NoMemory` where there is no room for the layout or the groups.
pub fn event_entries(
    alloc: Global,
    tie: Tie,
    event: &Event,
    written: u64,
) -> Result<Vec<TypeEntries>, Refusal>
    ensures entries { IfOk result (λ groups. (k : AnyType) → entries_under groups.items k ≡ map (ranked tie) (entries_of k (written_event event.now written))) }
    ensures types { IfOk result (λ groups. HaveOwnTypes groups.items) }
    ensures memory { OnlyNoMemory result }
{
    let places = places(alloc, event)?;
    placed_entries(alloc, tie, event, written, places.as_slice())
}
