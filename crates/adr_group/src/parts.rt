//! The parts of an event's windows in which it governs.
ghost use Rattle.std.specs.Prelude.{◌≡◌, ◌*◌, ◌+◌, ◌≤◌, ℤ, true, IfOk, IfSome, IsTrue, OnOk};
ghost use Rattle.std.specs.Option.{option_copied};
ghost use Rattle.adr_refusal.specs.Answer.{OnlyNoMemory};
ghost use Rattle.adr_time.specs.Spans.{covers};
ghost use Rattle.adr_timeline.specs.Steps.{is_run as comes_in_turn};
ghost use Rattle.adr_timeline.specs.Windows.{any_covers};
ghost use Rattle.adr_lines.specs.Grouped.{any_covers_at};
ghost use Rattle.adr_group.specs.Governed.{AreInOrder};
ghost use Rattle.adr_group.specs.Repair.{indexed, most_inside};

use crate::governed::open_spans;
use crate::line::Given;
use crate::met::{common, compares_enough};
use adr_model::Entry;
use adr_time::{End, Span};
use adr_timeline::{Source, Timeline};
use adr_value::Refusal;
use std::alloc::Global;

/// Adds the parts of the window that the spans cover.
fn add_parts(parts: &mut Vec<Entry>, window: &Entry, spans: &[Span]) -> Result<(), Refusal>
    requires order { AreInOrder spans.now }
    ensures kept { OnOk result ((t : ℤ) → any_covers_at parts.old.items t ≡ true → any_covers_at parts.new.items t ≡ true) }
    ensures holds { OnOk result ((t : ℤ) → covers window.now.span t ≡ true → any_covers spans.now t ≡ true → any_covers_at parts.new.items t ≡ true) }
    ensures memory { OnlyNoMemory result }
{
    let mut rest = spans;
    'rest: while let Some((span, more)) = rest.split_first() {
        if !span.start.is_before(window.span.end) {
            return Ok(());
        }
        parts.push(Entry {
            rank: window.rank,
            span: common(&window.span, span),
        })?;
        rest = more;
    }
    Ok(())
}

/// The parts that the spans cover of windows that come in turn. `NoMemory` where there is no room for them.
pub(crate) fn parts_of(
    alloc: Global,
    windows: &[Entry],
    spans: &[Span],
) -> Result<Vec<Entry>, Refusal>
    requires in_turn { IsTrue (comes_in_turn windows.now) }
    requires order { AreInOrder spans.now }
    ensures holds { IfOk result (λ parts. (t : ℤ) → any_covers_at windows.now t ≡ true → any_covers spans.now t ≡ true → any_covers_at parts.items t ≡ true) }
    ensures memory { OnlyNoMemory result }
{
    let mut parts = Vec::new(alloc);
    let mut left = spans;
    let mut rest = windows;
    'rest: while let Some((window, more)) = rest.split_first() {
        left = open_spans(left, window.span.start);
        add_parts(&mut parts, window, left)?;
        rest = more;
    }
    Ok(parts)
}

/// How often building compares at most where so many entries meet a window; None where that is no number of 128 bits.
fn most_of(count: u128) -> Option<u128>
    ensures { IfSome result (λ most. most ≡ count * (2 * count + 1)) }
{
    count.checked_mul(2)?.checked_add(1)?.checked_mul(count)
}

/// How often building inside the windows compares at most; None where that is no number of 128 bits.
fn most_built(alloc: Global, given: &Given, windows: &[Entry]) -> Result<Option<u128>, Refusal>
    ensures most { IfOk result (λ most. IfSome most (λ n. n ≡ most_inside given.now.writes.now (indexed (option_copied given.now.index)) windows.now)) }
    ensures memory { OnlyNoMemory result }
{
    let mut most: u128 = 0;
    let mut rest = windows;
    'rest: while let Some((window, more)) = rest.split_first() {
        let count = given.meeting(alloc, window.span)?.len();
        let Some(next) = most_of(count as u128) else {
            return Ok(None);
        };
        let Some(sum) = most.checked_add(next) else {
            return Ok(None);
        };
        most = sum;
        rest = more;
    }
    Ok(Some(most))
}

/// Where the line's segment of that place ends, or where its last one does that has no such place.
fn end_of(line: &Timeline, place: usize) -> Option<End> {
    let mut end = None;
    let mut left = place;
    for chunk in line.segments() {
        let segments = chunk.segments();
        if let Some(segment) = segments.get(left) {
            return Some(segment.end());
        }
        left -= segments.len();
        end = segments.last().map(|segment| segment.end()).or(end);
    }
    end
}

/// Under how many of the segments that windows meet is looked, one number after the other, until enough is given there.
const LOOKS: [usize; 6] = [4, 16, 64, 256, 1024, 4096];

/// Whether building inside the parts surely compares no more than building inside the windows, of which `met` is what
/// they meet. `NoMemory` where there is no room for what is looked at. Cost: a search of the index for each part, and
/// some under the first segments that the windows meet, under four times as many each time, until enough is given there.
pub(crate) fn may_build(
    alloc: Global,
    given: &Given,
    met: &Timeline,
    windows: &[Entry],
    parts: &[Entry],
) -> Result<bool, Refusal>
    ensures may { IfOk result (λ may. may ≡ true → most_inside given.now.writes.now (indexed (option_copied given.now.index)) parts.now ≤ most_inside given.now.writes.now (indexed (option_copied given.now.index)) windows.now) }
    ensures memory { OnlyNoMemory result }
{
    let (Some(first), Some(most)) = (windows.first(), most_built(alloc, given, parts)?) else {
        return Ok(false);
    };
    for count in LOOKS {
        let Some(end) = end_of(met, count) else {
            return Ok(false);
        };
        let near = Span {
            start: first.span.start,
            end,
        };
        if compares_enough(alloc, given, windows, &near, most)? {
            return Ok(true);
        }
        if met.has_at_most(count) {
            return Ok(false);
        }
    }
    Ok(false)
}
