//! The segments of a window.
ghost use Rattle.std.specs.Prelude.{◌≡◌, ◌++◌, ◌≤ℤ◌, ◌&&◌, int_le, int_lt, OnOk, IfOk, flat_map};
ghost use Rattle.adr_refusal.specs.Answer.{OnlyNoMemory};
ghost use Rattle.adr_calendar.specs.Segments.{segments_within};
ghost use Rattle.adr_plain.specs.Scan.{begins_in, segment_at, segment_of};

use crate::entries::ranked_entries;
use crate::governing::{bounds, same_winner, until, winner_at};
use crate::order::moments_in_order;
use adr_book::Book;
use adr_calendar::cut;
use adr_model::{Entry, Segment, Tie};
use adr_object::Id;
use adr_time::{End, Moment};
use adr_value::{PayloadType, Refusal};
use std::alloc::Global;

/// Whether a segment begins at the moment: something wins there, and it is the window's first moment or another won
/// at the moment before.
fn begins(entries: &[Entry], first: Moment, moment: Moment) -> bool
    requires { first ≤ℤ moment }
    ensures { result ≡ begins_in entries.now first moment }
{
    let winner = winner_at(entries, moment);
    if winner.is_none() {
        return false;
    }
    if moment.nanoseconds() == first.nanoseconds() {
        return true;
    }
    match Moment::of(moment.nanoseconds() - 1) {
        Some(before) => !same_winner(winner_at(entries, before), winner),
        None => unreachable!(),
    }
}

/// A window of one type's entries.
#[derive(Clone, Copy)]
struct Window<'a> {
    entries: &'a [Entry],
    from: Moment,
    to: Moment,
}

/// Whether a segment begins at the moment in the window.
fn is_listed(window: &Window<'_>, moment: Moment) -> bool
    ensures { result ≡ (int_le window.now.from moment && (int_lt moment window.now.to && begins_in window.now.entries.now window.now.from moment)) }
{
    window.from.nanoseconds() <= moment.nanoseconds()
        && moment.nanoseconds() < window.to.nanoseconds()
        && begins(window.entries, window.from, moment)
}

/// Adds the segment of what wins at the moment, if something does.
fn add_segment(
    segments: &mut Vec<Segment>,
    window: &Window<'_>,
    moment: Moment,
) -> Result<(), Refusal>
    ensures ok { OnOk result (segments.new.items ≡ segments.old.items ++ segment_of window.now.entries.now window.now.to moment) }
    ensures memory { OnlyNoMemory result }
{
    let Some(winner) = winner_at(window.entries, moment) else {
        return Ok(());
    };
    let end = until(*segments.allocator(), window.entries, moment)?;
    segments.push(Segment {
        start: moment,
        end: End::At(cut(window.to, end)),
        winner,
    })?;
    Ok(())
}

/// Adds the segment that begins at the moment, if one does.
fn add_segment_at(
    segments: &mut Vec<Segment>,
    window: &Window<'_>,
    moment: Moment,
) -> Result<(), Refusal>
    ensures ok { OnOk result (segments.new.items ≡ segments.old.items ++ segment_at window.now.entries.now window.now.from window.now.to moment) }
    ensures memory { OnlyNoMemory result }
{
    if is_listed(window, moment) {
        add_segment(segments, window, moment)
    } else {
        Ok(())
    }
}

/// The segments that begin at these moments.
fn segments_at(
    alloc: Global,
    window: &Window<'_>,
    moments: &[Moment],
) -> Result<Vec<Segment>, Refusal>
    ensures ok { IfOk result (λ v. v.items ≡ flat_map (segment_at window.now.entries.now window.now.from window.now.to) moments.now) }
    ensures memory { OnlyNoMemory result }
{
    let mut segments = Vec::new(alloc);
    for moment in moments {
        add_segment_at(&mut segments, window, *moment)?;
    }
    Ok(segments)
}

/// The segments of the window.
#[tactic(auto, using(crate::proofs::Windows::all_segments))]
pub(crate) fn segments_of(
    alloc: Global,
    book: &Book,
    tie: Tie,
    id: &Id,
    payload_type: &PayloadType,
    from: Moment,
    to: Moment,
) -> Result<Vec<Segment>, Refusal>
    ensures ok { IfOk result (λ v. v.items ≡ segments_within tie book.now.objects id.now payload_type.now from to) }
    ensures memory { OnlyNoMemory result }
{
    let entries = ranked_entries(alloc, book, tie, id, payload_type)?;
    let entries = entries.as_slice();
    let bounds = bounds(alloc, entries)?;
    let moments = moments_in_order(alloc, from, bounds.as_slice())?;
    let window = Window { entries, from, to };
    segments_at(alloc, &window, moments.as_slice())
}
