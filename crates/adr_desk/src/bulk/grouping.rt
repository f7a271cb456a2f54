//! A group of timelines, built of the entries of its own events.
ghost use Rattle.std.specs.Prelude.{IfOk};
ghost use Rattle.adr_refusal.specs.Answer.{OnlyNoMemory};
ghost use Rattle.adr_desk.specs.Bulk.{IsGroupFor};

use crate::bulk::gathering::gather;
use crate::bulk::windows::whole_windows;
use adr_book::Book;
use adr_group::{Group, Writes, right_moves};
use adr_lines::Indexes;
use adr_model::Tie;
use adr_rule::Meter;
use adr_value::Refusal;
use std::alloc::Global;

/// The group of the events of those writes. Their entries are indexed by themselves, and each timeline is built in one
/// pass over those of its type.
pub(crate) fn group_for(
    alloc: Global,
    tie: Tie,
    book: &Book,
    writes: &Writes,
) -> Result<Group, Refusal>
    ensures group { IfOk result (IsGroupFor tie book.now.objects.events writes.now) }
    ensures refusal { OnlyNoMemory result }
{
    right_moves();
    let types = gather(alloc, tie, book, writes.numbers())?;
    let windows = whole_windows(alloc, types.as_slice())?;
    let indexes = Indexes::of(alloc, types)?;
    let writes = writes.copy()?;
    let none = Group::new(alloc)?;
    let mut meter = Meter::new();
    let group = none.repaired(alloc, &indexes, windows.as_slice(), &[], writes, &mut meter)?;
    Ok(group)
}
