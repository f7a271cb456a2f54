//! What an event that comes meets of a timeline, and whether it may be laid over it.
ghost use Rattle.std.specs.Prelude.{◌≡◌, ◌+◌, ◌≤◌, ℤ, true, length, IfOk, IfSome};
ghost use Rattle.std.specs.Option.{option_copied};
ghost use Rattle.adr_refusal.specs.Answer.{OnlyNoMemory};
ghost use Rattle.adr_time.specs.Spans.{covers, meets};
ghost use Rattle.adr_time.specs.declared.span.Span.{Span as AnySpan};
ghost use Rattle.adr_group.specs.Laid.{IsMet};
ghost use Rattle.adr_group.specs.Repair.{indexed, most_inside};

use crate::line::Given;
use adr_model::Entry;
use adr_time::Span;
use adr_timeline::{Ranks, Source, Timeline, is_run};
use adr_value::Refusal;
use std::alloc::Global;

/// What two spans have in common, where they do.
pub(crate) fn common(a: &Span, b: &Span) -> Span
    ensures covers { (t : ℤ) → covers a.now t ≡ true → covers b.now t ≡ true → covers result t ≡ true }
    ensures meets { (span : AnySpan) → meets span result ≡ true → meets span a.now ≡ true }
{
    Span {
        start: a.start.later(b.start),
        end: a.end.earlier(b.end),
    }
}

/// Whether building inside the windows compares at least so often: it does where enough of the entries that are given
/// meet what the first of them has in common with a span.
pub(crate) fn compares_enough(
    alloc: Global,
    given: &Given,
    windows: &[Entry],
    near: &Span,
    wanted: u128,
) -> Result<bool, Refusal>
    ensures enough { IfOk result (λ enough. enough ≡ true → wanted ≤ most_inside given.now.writes.now (indexed (option_copied given.now.index)) windows.now) }
    ensures memory { OnlyNoMemory result }
{
    let Some((window, _)) = windows.split_first() else {
        return Ok(false);
    };
    let found = given.meeting(alloc, common(&window.span, near))?;
    let count = found.len() as u128;
    let most = count.saturating_mul(count.saturating_mul(2).saturating_add(1));
    Ok(wanted <= most)
}

/// From the start of the first entry to the end of one behind it; the window where there is none. That many entries and
/// more mostly lie there that building compares as often as there are entries in all: for n of them that takes the root
/// of n / 2, and n / 64 + 16 are more.
fn first_part(window: &Span, shown: &[Entry]) -> Span {
    match (shown.first(), shown.get(shown.len() / 64 + 16)) {
        (Some(first), Some(behind)) => Span {
            start: first.span.start,
            end: behind.span.end,
        },
        _ => *window,
    }
}

/// Whether building inside the entries surely compares as often as both have entries.
fn may_compare(
    alloc: Global,
    given: &Given,
    entries: &[Entry],
    shown: &[Entry],
) -> Result<bool, Refusal>
    ensures may { IfOk result (λ may. may ≡ true → length shown.now + length entries.now ≤ most_inside given.now.writes.now (indexed (option_copied given.now.index)) entries.now) }
    ensures memory { OnlyNoMemory result }
{
    let Some(first) = entries.first() else {
        return Ok(false);
    };
    let near = first_part(&first.span, shown);
    let wanted = shown.len() as u128 + entries.len() as u128;
    compares_enough(alloc, given, entries, &near, wanted)
}

/// What the entries meet of the timeline, as entries by rank. None where they don't come in turn, or meet more than twice as
/// many segments as they are and not few enough beside what is given inside them.
pub(crate) fn met_by<R: Ranks>(
    alloc: Global,
    given: &Given,
    line: &Timeline,
    entries: &[Entry],
    ranks: &R,
) -> Result<Option<Vec<Entry>>, Refusal>
    ensures met { IfOk result (λ met. IfSome met (λ met. IsMet (R.rank ranks.now) given.now.writes.now (indexed (option_copied given.now.index)) line.now entries.now met.items)) }
    ensures memory { OnlyNoMemory result }
{
    if !is_run(entries) {
        return Ok(None);
    }
    let shown = line.met(entries)?.ranked(ranks)?;
    if shown.len() <= entries.len().saturating_mul(2)
        || may_compare(alloc, given, entries, &shown)?
    {
        return Ok(Some(shown));
    }
    Ok(None)
}
