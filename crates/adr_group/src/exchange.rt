//! A timeline over which an event is laid, or which an event leaves.
ghost use Rattle.std.specs.Prelude.{◌≡◌, ◌+◌, ◌<◌, ◌≤◌, ℤ, true, drop, take, length, IfOk, IfSome, if◌then◌else◌};
ghost use Rattle.adr_refusal.specs.Answer.{OnlyNoMemory};
ghost use Rattle.adr_model.specs.Timeline.{shows};
ghost use Rattle.adr_timeline.specs.Overlay.{spans_of};
ghost use Rattle.adr_timeline.specs.Steps.{is_run as comes_in_turn};
ghost use Rattle.adr_timeline.specs.Windows.{any_covers};
ghost use Rattle.adr_lines.specs.Indexes.{under};
ghost use Rattle.adr_group.specs.Governed.{IsWithout};
ghost use Rattle.adr_group.specs.Laid.{least_over, most_exchanged, IsExchanged, IsMet};
ghost use Rattle.adr_group.specs.Repair.{most_inside};

use crate::governed::governed_windows;
use crate::job::Held;
use crate::line::Given;
use crate::met::met_by;
use crate::repair::line_repaired;
use crate::writes::Writes;
use adr_lines::{Indexes, TypeEntries};
use adr_model::Entry;
use adr_rule::Meter;
use adr_timeline::{Ranks, Timeline, is_run};
use adr_value::{PayloadType, Refusal};
use std::alloc::Global;

/// The first windows, so many, which are the entries of the event that goes, and the others, those of the one that comes.
fn parted(windows: &[Entry], leaving: usize) -> (&[Entry], &[Entry])
    ensures leaving { result.0.now ≡ take leaving windows.now }
    ensures coming { result.1.now ≡ drop leaving windows.now }
{
    if leaving <= windows.len() {
        windows.split_at(leaving)
    } else {
        windows.split_at(windows.len())
    }
}

/// What a job needs that exchanges events in the timeline: so many of the windows, the first ones, are entries of the event
/// that goes, the others those of the one that comes. None where these can't be laid over the timeline.
pub(crate) fn held_of<R: Ranks>(
    alloc: Global,
    indexes: &Indexes,
    line: &Timeline,
    writes: &Writes,
    windows: &TypeEntries,
    leaving: usize,
    gone: Option<u64>,
    ranks: &R,
) -> Result<Option<Held>, Refusal>
    ensures leaving { IfOk result (λ held. IfSome held (λ h. h.leaving ≡ leaving)) }
    ensures gone { IfOk result (λ held. IfSome held (λ h. h.gone ≡ gone)) }
    ensures met { IfOk result (λ held. IfSome held (λ h. IsMet (R.rank ranks.now) writes.now (under indexes.now windows.now.payload_type) line.now (drop leaving windows.now.entries.items) h.shown.items)) }
    ensures memory { OnlyNoMemory result }
{
    let (_leaving, coming) = parted(windows.entries.as_slice(), leaving);
    let given = Given::of(indexes, &windows.payload_type, writes);
    let Some(shown) = met_by(alloc, &given, line, coming, ranks)? else {
        return Ok(None);
    };
    Ok(Some(Held {
        shown,
        leaving,
        gone,
    }))
}

/// The timeline with the entries laid over it, where they and what is shown come in turn; else as it is.
fn laid_line(
    line: &Timeline,
    shown: &[Entry],
    coming: &[Entry],
    meter: &mut Meter,
) -> Result<Timeline, Refusal>
    ensures shows { IfOk result (λ laid. comes_in_turn shown.now ≡ true → comes_in_turn coming.now ≡ true → (t : ℤ) → shows laid t ≡ (if any_covers (spans_of coming.now) t then least_over shown.now coming.now t else shows line.now t)) }
    ensures compared { meter.new ≤ meter.old + (length shown.now + length coming.now) }
    ensures memory { OnlyNoMemory result }
{
    if is_run(shown) && is_run(coming) {
        return line.lay_run(shown, coming, meter);
    }
    line.copy()
}

/// The timeline with what the writes show in those windows in which the event of that number governs.
fn left_line(
    alloc: Global,
    line: Timeline,
    indexes: &Indexes,
    payload_type: &PayloadType,
    leaving: &[Entry],
    number: u64,
    writes: &Writes,
    meter: &mut Meter,
) -> Result<Timeline, Refusal>
    ensures shown { IfOk result (IsWithout writes.now (under indexes.now payload_type.now) number leaving.now line) }
    ensures compared { meter.new ≤ meter.old + most_inside writes.now (under indexes.now payload_type.now) leaving.now }
    ensures memory { OnlyNoMemory result }
{
    let given = Given::of(indexes, payload_type, writes);
    let windows = governed_windows(alloc, &given, &line, leaving, number)?;
    if windows.is_empty() {
        return Ok(line);
    }
    line_repaired(alloc, &line, indexes, payload_type, &windows, writes, meter)
}

/// The timeline after one event was laid over it and another was taken out where it governs, if they are there.
///
/// # Errors
///
/// `NoMemory` where there is no room.
pub(crate) fn exchanged_line(
    alloc: Global,
    indexes: &Indexes,
    line: &Timeline,
    windows: &TypeEntries,
    held: &Held,
    writes: &Writes,
    meter: &mut Meter,
) -> Result<Timeline, Refusal>
    ensures after { IfOk result (IsExchanged writes.now (under indexes.now windows.now.payload_type) windows.now.entries.items held.now line.now) }
    ensures compared { meter.new ≤ meter.old + most_exchanged writes.now (under indexes.now windows.now.payload_type) windows.now.entries.items held.now }
    ensures memory { OnlyNoMemory result }
{
    let (leaving, coming) = parted(windows.entries.as_slice(), held.leaving);
    let laid = laid_line(line, held.shown.as_slice(), coming, meter)?;
    match held.gone {
        Some(number) => {
            let kind = &windows.payload_type;
            left_line(alloc, laid, indexes, kind, leaving, number, writes, meter)
        }
        None => Ok(laid),
    }
}
