//! One window for each payload type, inside which all entries of the type lie.
ghost use Rattle.std.specs.Prelude.{◌≡◌, ◌≤ℤ◌, ◌<◌, ℤ, true, IfOk, OnOk};
ghost use Rattle.jiff.specs.Words.{IsTimestampNanos};
ghost use Rattle.adr_refusal.specs.Answer.{OnlyNoMemory};
ghost use Rattle.adr_value.specs.declared.payload.PayloadType.{PayloadType as AnyType};
ghost use Rattle.adr_lines.specs.Grouped.{any_covers_at, entries_under};
ghost use Rattle.adr_lines.specs.Indexes.{has_type as the_has_type, own_entries};
ghost use Rattle.adr_desk.specs.Bulk.{AreFrom, IsFrom};

use adr_lines::TypeEntries;
use adr_model::{Entry, Rank};
use adr_time::{End, Moment, Span};
use adr_value::{PayloadType, Refusal};
use std::alloc::Global;

/// The law of the entries: none covers an instant before the first moment.
fn entries_start_late(entries: &[Entry], from: Moment)
    requires { (t : ℤ) → IsTimestampNanos t → from ≤ℤ t }
    ensures { (t : ℤ) → any_covers_at entries.now t ≡ true → from ≤ℤ t }
{
    let mut rest = entries;
    'rest: while let Some((entry, more)) = rest.split_first() {
        let _start = entry.span.start.nanoseconds();
        rest = more;
    }
}

/// A window of the type that covers each instant from that moment on.
fn window_from(
    alloc: Global,
    payload_type: &PayloadType,
    from: Moment,
) -> Result<TypeEntries, Refusal>
    ensures payload_type { IfOk result (λ window. window.payload_type ≡ payload_type.now) }
    ensures covers { IfOk result (IsFrom from) }
    ensures refusal { OnlyNoMemory result }
{
    let payload_type = payload_type.copy()?;
    let mut entries = Vec::new(alloc);
    let rank = Rank {
        priority: 0,
        late: 0,
        written: 0,
        place: 0,
    };
    let span = Span {
        start: from,
        end: End::Endless,
    };
    entries.push(Entry { rank, span })?;
    Ok(TypeEntries {
        payload_type,
        entries,
    })
}

/// Whether one of the windows is of the type.
fn has_type(windows: &[TypeEntries], payload_type: &PayloadType) -> bool
    ensures { result ≡ the_has_type windows.now payload_type.now }
{
    windows
        .iter()
        .any(|window| window.payload_type.name() == payload_type.name())
}

/// Adds a window of the group's type, unless there is one.
fn add_window(
    alloc: Global,
    windows: &mut Vec<TypeEntries>,
    group: &TypeEntries,
    from: Moment,
) -> Result<(), Refusal>
    requires first { (t : ℤ) → IsTimestampNanos t → from ≤ℤ t }
    requires windows { AreFrom from windows.old.items }
    ensures windows { OnOk result (AreFrom from windows.new.items) }
    ensures kept { OnOk result ((k : AnyType) (t : ℤ) → any_covers_at (entries_under windows.old.items k) t ≡ true → any_covers_at (entries_under windows.new.items k) t ≡ true) }
    ensures covers { OnOk result ((k : AnyType) (t : ℤ) → any_covers_at (own_entries group.now k) t ≡ true → any_covers_at (entries_under windows.new.items k) t ≡ true) }
    ensures refusal { OnlyNoMemory result }
{
    entries_start_late(&group.entries, from);
    if has_type(windows.as_slice(), &group.payload_type) {
        return Ok(());
    }
    let window = window_from(alloc, &group.payload_type, from)?;
    windows.push(window)?;
    Ok(())
}

/// For each payload type of the groups one window, which covers all that its entries cover.
pub(crate) fn whole_windows(
    alloc: Global,
    groups: &[TypeEntries],
) -> Result<Vec<TypeEntries>, Refusal>
    ensures covers { IfOk result (λ windows. (k : AnyType) (t : ℤ) → any_covers_at (entries_under groups.now k) t ≡ true → any_covers_at (entries_under windows.items k) t ≡ true) }
    ensures refusal { OnlyNoMemory result }
{
    let from = Moment::first();
    let mut windows = Vec::new(alloc);
    let mut rest = groups;
    'rest: while let Some((group, more)) = rest.split_first() {
        add_window(alloc, &mut windows, group, from)?;
        rest = more;
    }
    let _count = windows.len();
    let _shown = windows.as_slice();
    Ok(windows)
}
