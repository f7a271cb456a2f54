//! The windows of an event in which timelines show it.
ghost use Rattle.std.specs.Prelude.{◌≡◌, ◌≤◌, ◌++◌, ◌≤ℤ◌, ℕ, ℤ, List, true, false, IfOk, IsTrue, OnOk};
ghost use Rattle.std.specs.Option.{option_copied};
ghost use Rattle.adr_refusal.specs.Answer.{OnlyNoMemory};
ghost use Rattle.adr_time.specs.Spans.{covers};
ghost use Rattle.adr_model.specs.declared.entry.Entry.{Entry as AnyEntry};
ghost use Rattle.adr_model.specs.Timeline.{shows};
ghost use Rattle.adr_timeline.specs.Steps.{is_run as comes_in_turn};
ghost use Rattle.adr_timeline.specs.Windows.{any_covers};
ghost use Rattle.adr_lines.specs.Grouped.{any_covers_at};
ghost use Rattle.adr_group.specs.Governed.{is_of, own_spans, AreInOrder};
ghost use Rattle.adr_group.specs.Repair.{indexed, most_inside};

use crate::line::Given;
use crate::parts::{may_build, parts_of};
use adr_model::Entry;
use adr_time::{Moment, Span};
use adr_timeline::{PackedSegment, Timeline, is_run};
use adr_value::Refusal;
use std::alloc::Global;

/// Adds the spans of the segments that the event of that number governs.
fn add_own(spans: &mut Vec<Span>, segments: &[PackedSegment], number: u64) -> Result<(), Refusal>
    ensures spans { OnOk result (spans.new.items ≡ spans.old.items ++ own_spans number segments.now) }
    ensures memory { OnlyNoMemory result }
{
    let mut rest = segments;
    'rest: while let Some((segment, more)) = rest.split_first() {
        if segment.winner().written == number {
            spans.push(Span {
                start: segment.start(),
                end: segment.end(),
            })?;
        }
        rest = more;
    }
    Ok(())
}

/// Where the event of that number governs, in order.
fn governed_spans(alloc: Global, line: &Timeline, number: u64) -> Result<Vec<Span>, Refusal>
    ensures spans { IfOk result (λ spans. spans.items ≡ own_spans number line.now) }
    ensures order { IfOk result (λ spans. AreInOrder spans.items) }
    ensures memory { OnlyNoMemory result }
{
    let mut spans = Vec::new(alloc);
    let mut rest = line.segments();
    'rest: while let Some((chunk, more)) = rest.split_first() {
        add_own(&mut spans, chunk.segments(), number)?;
        rest = more;
    }
    Ok(spans)
}

/// The spans but for the first ones that have ended by the moment.
pub(crate) fn open_spans<'a>(spans: &'a [Span], at: Moment) -> &'a [Span]
    requires { AreInOrder spans.now }
    ensures order { AreInOrder result.now }
    ensures covers { (t : ℤ) → at ≤ℤ t → any_covers result.now t ≡ any_covers spans.now t }
{
    let mut rest = spans;
    'rest: while let Some((span, more)) = rest.split_first() {
        if at.is_before(span.end) {
            return rest;
        }
        rest = more;
    }
    rest
}

/// Whether the first of the spans starts before the window ends.
fn start_in(spans: &[Span], window: &Entry) -> bool
    requires { AreInOrder spans.now }
    ensures { result ≡ false → (t : ℤ) → covers window.now.span t ≡ true → any_covers spans.now t ≡ false }
{
    match spans.first() {
        Some(span) => span.start.is_before(window.span.end),
        None => false,
    }
}

/// Of windows that come in turn those that hold what some of the spans cover inside any of them.
fn met_windows(alloc: Global, windows: &[Entry], spans: &[Span]) -> Result<Vec<Entry>, Refusal>
    requires in_turn { IsTrue (comes_in_turn windows.now) }
    requires order { AreInOrder spans.now }
    ensures holds { IfOk result (λ kept. (t : ℤ) → any_covers_at windows.now t ≡ true → any_covers spans.now t ≡ true → any_covers_at kept.items t ≡ true) }
    ensures cost { IfOk result (λ kept. (writes : List ℕ) (entries : List AnyEntry) → most_inside writes entries kept.items ≤ most_inside writes entries windows.now) }
    ensures memory { OnlyNoMemory result }
{
    let mut kept = Vec::new(alloc);
    let mut left = spans;
    let mut rest = windows;
    'rest: while let Some((window, more)) = rest.split_first() {
        left = open_spans(left, window.span.start);
        if start_in(left, window) {
            kept.push(*window)?;
        }
        rest = more;
    }
    Ok(kept)
}

/// Of how many windows at most their parts are built where that compares no more: an event of more intervals has short
/// ones, which hold little else.
const FEW: usize = 4;

/// Whether one window is all that one span covers.
fn is_whole(windows: &[Entry], spans: &[Span]) -> bool {
    match (windows, spans) {
        ([window], [span]) => window.span == *span,
        _ => false,
    }
}

/// Of windows that come in turn those that hold what some of the spans cover inside any of them, or the parts that they
/// cover, where there are few windows and building inside their parts surely compares no more.
fn covered_windows(
    alloc: Global,
    given: &Given,
    met: &Timeline,
    windows: &[Entry],
    spans: &[Span],
) -> Result<Vec<Entry>, Refusal>
    requires in_turn { IsTrue (comes_in_turn windows.now) }
    requires order { AreInOrder spans.now }
    ensures holds { IfOk result (λ kept. (t : ℤ) → any_covers_at windows.now t ≡ true → any_covers spans.now t ≡ true → any_covers_at kept.items t ≡ true) }
    ensures cost { IfOk result (λ kept. most_inside given.now.writes.now (indexed (option_copied given.now.index)) kept.items ≤ most_inside given.now.writes.now (indexed (option_copied given.now.index)) windows.now) }
    ensures memory { OnlyNoMemory result }
{
    if windows.len() <= FEW && !is_whole(windows, spans) {
        let parts = parts_of(alloc, windows, spans)?;
        if may_build(alloc, given, met, windows, &parts)? {
            return Ok(parts);
        }
    }
    met_windows(alloc, windows, spans)
}

/// The windows in which the line shows the event of that number, or of a few windows the parts in which it does; all of
/// them where they don't come in turn. `NoMemory` where there is no room for them. Cost: that of `Timeline::met`, and a
/// look at each window and at what it meets; of a few windows also that of `may_build`.
pub(crate) fn governed_windows(
    alloc: Global,
    given: &Given,
    line: &Timeline,
    windows: &[Entry],
    number: u64,
) -> Result<Vec<Entry>, Refusal>
    ensures holds { IfOk result (λ kept. (t : ℤ) → any_covers_at windows.now t ≡ true → any_covers_at kept.items t ≡ false → is_of number (shows line.now t) ≡ false) }
    ensures cost { IfOk result (λ kept. most_inside given.now.writes.now (indexed (option_copied given.now.index)) kept.items ≤ most_inside given.now.writes.now (indexed (option_copied given.now.index)) windows.now) }
    ensures memory { OnlyNoMemory result }
{
    if !is_run(windows) {
        return Ok(Vec::from_slice(alloc, windows)?);
    }
    let met = line.met(windows)?;
    let spans = governed_spans(alloc, &met, number)?;
    covered_windows(alloc, given, &met, windows, &spans)
}
