//! What the events of some writes show of one payload type, and its repair inside windows.
ghost use Rattle.std.specs.Prelude.{◌≡◌, ◌+◌, ◌<◌, ◌≤◌, ℤ, None, IfOk, IsTrue, if◌then◌else◌};
ghost use Rattle.std.specs.Option.{option_copied};
ghost use Rattle.adr_refusal.specs.Answer.{OnlyNoMemory};
ghost use Rattle.adr_model.specs.Governor.{winner_at};
ghost use Rattle.adr_model.specs.Timeline.{shows};
ghost use Rattle.adr_timeline.specs.Build.{most_compared_all};
ghost use Rattle.adr_timeline.specs.Windows.{all_last, any_covers, are_apart};
ghost use Rattle.adr_lines.specs.Grouped.{any_covers_at};
ghost use Rattle.adr_lines.specs.Right.{written_in};
ghost use Rattle.adr_lines.specs.Indexes.{under};
ghost use Rattle.adr_group.specs.Repair.{given_entries, indexed, most_inside};

use crate::windows::spans_of;
use crate::writes::Writes;
use adr_index::Index;
use adr_lines::Indexes;
use adr_model::Entry;
use adr_rule::Meter;
use adr_time::Span;
use adr_timeline::{Source, Timeline, first_run, put_together};
use adr_value::{PayloadType, Refusal};
use std::alloc::Global;

/// The entries of an index, where there is one, that are of some writes.
#[derive(Clone, Copy)]
pub(crate) struct Given<'a> {
    index: Option<&'a Index>,
    writes: &'a Writes,
}

impl<'a> Given<'a> {
    /// The entries of the type that are of these writes.
    pub(crate) fn of(
        indexes: &'a Indexes,
        payload_type: &PayloadType,
        writes: &'a Writes,
    ) -> Given<'a>
        ensures writes { result.writes.now ≡ writes.now }
        ensures entries { indexed (option_copied result.index) ≡ under indexes.now payload_type.now }
    {
        Given {
            index: indexes.index(payload_type),
            writes,
        }
    }
}

impl Source for Given<'_> {
    ghost use Rattle.adr_group.specs.Repair.{given_entries};

    ghost entries = { given_entries };

    fn meeting(&self, alloc: Global, window: Span) -> Result<Vec<Entry>, Refusal> {
        match self.index {
            Some(index) => index.overlapping_of(window, self.writes),
            None => Ok(Vec::new(alloc)),
        }
    }
}

/// The inner timeline with what the entries show inside the windows.
#[tactic(auto, using(crate::proofs::Seen::apart_last, crate::proofs::Seen::wide_shown))]
fn with_built(
    alloc: Global,
    inner: Timeline,
    given: &Given,
    windows: &[Span],
    meter: &mut Meter,
) -> Result<Timeline, Refusal>
    requires apart { IsTrue (are_apart windows.now) }
    ensures shows { IfOk result (λ timeline. (t : ℤ) → shows timeline t ≡ (if any_covers windows.now t then winner_at (given_entries given.now) t else shows inner t)) }
    ensures compared { meter.new ≤ meter.old + most_compared_all (given_entries given.now) windows.now }
    ensures memory { OnlyNoMemory result }
{
    let built = Timeline::build_all(alloc, given, windows, meter)?;
    if inner.segments().is_empty() {
        return Ok(built);
    }
    let wide = put_together(alloc, windows)?;
    spliced_in(&inner, &wide, &built)
}

/// What the entries show inside the spans, and nothing outside: one run of spans in order after the other.
fn built_in(
    alloc: Global,
    given: &Given,
    spans: &[Span],
    meter: &mut Meter,
) -> Result<Timeline, Refusal>
    requires last { IsTrue (all_last spans.now) }
    ensures shows { IfOk result (λ timeline. (t : ℤ) → shows timeline t ≡ (if any_covers spans.now t then winner_at (given_entries given.now) t else None)) }
    ensures compared { meter.new ≤ meter.old + most_compared_all (given_entries given.now) spans.now }
    ensures memory { OnlyNoMemory result }
{
    let mut inner = Timeline::new(alloc);
    let mut rest = spans;
    'rest: while !rest.is_empty() {
        let (run, more) = rest.split_at(first_run(rest));
        inner = with_built(alloc, inner, given, run, meter)?;
        rest = more;
    }
    Ok(inner)
}

/// What those writes show inside the windows, and nothing outside. `NoMemory` where there is no room for it. Cost: for
/// each window that lasts, or for some that touch, that of `Index::overlapping_of`, and for each that of a timeline of the
/// entries of those writes that meet it; windows in order, as those of an event mostly are, are built in one pass.
pub(crate) fn built(
    alloc: Global,
    indexes: &Indexes,
    payload_type: &PayloadType,
    windows: &[Entry],
    writes: &Writes,
    meter: &mut Meter,
) -> Result<Timeline, Refusal>
    ensures shows { IfOk result (λ timeline. (t : ℤ) → shows timeline t ≡ (if any_covers_at windows.now t then winner_at (written_in writes.now (under indexes.now payload_type.now)) t else None)) }
    ensures compared { meter.new ≤ meter.old + most_inside writes.now (under indexes.now payload_type.now) windows.now }
    ensures memory { OnlyNoMemory result }
{
    let spans = spans_of(alloc, windows)?;
    let given = Given::of(indexes, payload_type, writes);
    built_in(alloc, &given, &spans, meter)
}

/// The line with what the inner one shows inside the spans: one run of spans in order after the other.
fn spliced_in(line: &Timeline, spans: &[Span], inner: &Timeline) -> Result<Timeline, Refusal>
    requires last { IsTrue (all_last spans.now) }
    ensures shows { IfOk result (λ timeline. (t : ℤ) → shows timeline t ≡ (if any_covers spans.now t then shows inner.now t else shows line.now t)) }
    ensures memory { OnlyNoMemory result }
{
    let (run, others) = spans.split_at(first_run(spans));
    let mut shown = line.splice_all(run, inner)?;
    let mut rest = others;
    'rest: while !rest.is_empty() {
        let (run, more) = rest.split_at(first_run(rest));
        shown = shown.splice_all(run, inner)?;
        rest = more;
    }
    Ok(shown)
}

/// The line with what the inner one shows inside the windows: in one pass where the windows that last are in order, as
/// those of an event mostly are, and those that touch as one. `NoMemory` where there is no room for it.
pub(crate) fn spliced(
    alloc: Global,
    line: &Timeline,
    windows: &[Entry],
    inner: &Timeline,
) -> Result<Timeline, Refusal>
    ensures shows { IfOk result (λ timeline. (t : ℤ) → shows timeline t ≡ (if any_covers_at windows.now t then shows inner.now t else shows line.now t)) }
    ensures memory { OnlyNoMemory result }
{
    let spans = spans_of(alloc, windows)?;
    let wide = put_together(alloc, &spans)?;
    spliced_in(line, &wide, inner)
}
