//! The repair of timelines, type by type.
ghost use Rattle.std.specs.Prelude.{◌≡◌, ◌+◌, ◌<◌, ◌≤◌, ℤ, Option, IfOk, if◌then◌else◌};
ghost use Rattle.std.specs.List.{AllZip};
ghost use Rattle.adr_refusal.specs.Answer.{OnlyNoMemory};
ghost use Rattle.adr_value.specs.declared.payload.PayloadType.{PayloadType as AnyType};
ghost use Rattle.adr_model.specs.Governor.{winner_at};
ghost use Rattle.adr_model.specs.Timeline.{shows};
ghost use Rattle.adr_model.specs.declared.timeline.Winner.{Winner};
ghost use Rattle.adr_lines.specs.Grouped.{any_covers_at, entries_under};
ghost use Rattle.adr_lines.specs.Right.{written_in};
ghost use Rattle.adr_lines.specs.Indexes.{has_type, own_entries, under};
ghost use Rattle.adr_group.specs.Group.{shown_in};
ghost use Rattle.adr_group.specs.Jobs.{IsOfType, ShowsOf};
ghost use Rattle.adr_group.specs.Repair.{most_inside, most_repaired, IsRepaired};

use crate::job::Done;
use crate::line::{built, spliced};
use crate::timelines::Timelines;
use crate::writes::Writes;
use adr_lines::{Indexes, TypeEntries};
use adr_model::Entry;
use adr_rule::Meter;
use adr_shared::Shared;
use adr_timeline::Timeline;
use adr_value::{PayloadType, Refusal};
use std::alloc::Global;

/// The timeline of the type with what the writes show inside the windows.
pub(crate) fn line_repaired(
    alloc: Global,
    line: &Timeline,
    indexes: &Indexes,
    payload_type: &PayloadType,
    windows: &[Entry],
    writes: &Writes,
    meter: &mut Meter,
) -> Result<Timeline, Refusal>
    ensures shows { IfOk result (IsRepaired writes.now (under indexes.now payload_type.now) windows.now (shows line.now)) }
    ensures compared { meter.new ≤ meter.old + most_inside writes.now (under indexes.now payload_type.now) windows.now }
    ensures memory { OnlyNoMemory result }
{
    let inner = built(alloc, indexes, payload_type, windows, writes, meter)?;
    if line.segments().is_empty() {
        return Ok(inner);
    }
    spliced(alloc, line, windows, &inner)
}

/// The timeline of the windows' type with what the writes show inside them.
fn repaired_line(
    alloc: Global,
    lines: &Timelines,
    indexes: &Indexes,
    windows: &TypeEntries,
    writes: &Writes,
    meter: &mut Meter,
) -> Result<Timeline, Refusal>
    ensures shows { IfOk result (IsRepaired writes.now (under indexes.now windows.now.payload_type) windows.now.entries.items (shown_in lines.now windows.now.payload_type)) }
    ensures compared { meter.new ≤ meter.old + most_inside writes.now (under indexes.now windows.now.payload_type) windows.now.entries.items }
    ensures memory { OnlyNoMemory result }
{
    let entries = windows.entries.as_slice();
    let kind = &windows.payload_type;
    match lines.timeline(kind) {
        Some(line) => line_repaired(alloc, line, indexes, kind, entries, writes, meter),
        None => built(alloc, indexes, kind, entries, writes, meter),
    }
}

/// The timelines with what the writes show of the windows' type inside them.
pub(crate) fn repaired_type(
    alloc: Global,
    lines: &Timelines,
    indexes: &Indexes,
    windows: &TypeEntries,
    writes: &Writes,
    meter: &mut Meter,
) -> Result<Timelines, Refusal>
    ensures shown { IfOk result (λ timelines. (k : AnyType) (t : ℤ) → shown_in timelines k t ≡ (if any_covers_at (own_entries windows.now k) t then winner_at (written_in writes.now (under indexes.now k)) t else shown_in lines.now k t)) }
    ensures compared { meter.new ≤ meter.old + most_inside writes.now (under indexes.now windows.now.payload_type) windows.now.entries.items }
    ensures memory { OnlyNoMemory result }
{
    let line = repaired_line(alloc, lines, indexes, windows, writes, meter)?;
    let timelines = lines.with(alloc, &windows.payload_type, line)?;
    Ok(timelines)
}

/// The timelines with what the writes show inside the windows; those of other types are shared.
pub(crate) fn repaired(
    alloc: Global,
    old: &Timelines,
    indexes: &Indexes,
    windows: &[TypeEntries],
    writes: &Writes,
    meter: &mut Meter,
) -> Result<Timelines, Refusal>
    ensures shown { IfOk result (λ timelines. (k : AnyType) (t : ℤ) → shown_in timelines k t ≡ (if any_covers_at (entries_under windows.now k) t then winner_at (written_in writes.now (under indexes.now k)) t else shown_in old.now k t)) }
    ensures compared { meter.new ≤ meter.old + most_repaired windows.now writes.now indexes.now }
    ensures memory { OnlyNoMemory result }
{
    let mut lines = old.copy()?;
    let mut rest = windows;
    'rest: while let Some((group, more)) = rest.split_first() {
        lines = repaired_type(alloc, &lines, indexes, group, writes, meter)?;
        rest = more;
    }
    Ok(lines)
}

/// The timelines with the new ones of some types; those of other types are shared.
pub(crate) fn together(
    alloc: Global,
    old: &Timelines,
    windows: &[Shared<TypeEntries>],
    done: &[Done],
) -> Result<Timelines, Refusal>
    ensures shown { IfOk result (λ timelines. (shown : AnyType → ℤ → Option Winner) → IsOfType shown → AllZip (ShowsOf shown) windows.now done.now → (k : AnyType) (t : ℤ) → shown_in timelines k t ≡ (if has_type windows.now k then shown k t else shown_in old.now k t)) }
    ensures memory { OnlyNoMemory result }
{
    let mut lines = old.copy()?;
    let mut made = done;
    let mut rest = windows;
    'rest: while let Some((group, more)) = rest.split_first() {
        let Some((first, others)) = made.split_first() else {
            return Ok(lines);
        };
        let line = first.line.copy()?;
        lines = lines.with(alloc, &group.get().payload_type, line)?;
        made = others;
        rest = more;
    }
    Ok(lines)
}
