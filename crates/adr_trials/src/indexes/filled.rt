//! What an index takes: to be filled at once, and to have an event's entries written again.
ghost use Rattle.std.specs.Prelude.{◌≡◌, ◌+◌, ◌*◌, ◌≤◌, IfOk, OnOk, length};
ghost use Rattle.std.specs.List.Sorted.{IsPermutation};
ghost use Rattle.adr_index.specs.Index.{AreDistinct};
ghost use Rattle.adr_trials.specs.Numbers.{AreBelow, AreRising};

use crate::indexes::shape::event;
use adr_index::{Entry, Index};
use adr_test_values::telling::{since, taken};
use std::alloc::Global;
use std::io;
use std::rt::Clock;
use std::time::Instant;

/// How often the event is written again.
const EDITS: u32 = 301;

/// How often each other time is taken, of which the least is told.
pub(crate) const ROUNDS: u32 = 15;

fn no_memory() -> io::Error {
    io::ErrorKind::OutOfMemory.into()
}

/// An index of the entries.
fn filled(alloc: Global, entries: Vec<Entry>) -> io::Result<Index>
    requires { AreDistinct entries.items }
    ensures { IfOk result (λ index. IsPermutation entries.items index.entries) }
{
    match Index::of(alloc, entries) {
        Ok(index) => Ok(index),
        Err(_) => Err(no_memory()),
    }
}

/// An index of a copy of the entries.
fn index_of(alloc: Global, entries: &[Entry]) -> io::Result<Index>
    requires { AreRising 0 entries.now }
    ensures below { IfOk result (λ index. AreBelow (length entries.now) index.entries) }
    ensures length { IfOk result (λ index. length index.entries ≡ length entries.now) }
{
    let copy = Vec::from_slice(alloc, entries)?;
    filled(alloc, copy)
}

/// Makes room for that many more entries.
fn make_room(index: &mut Index, more: usize) -> io::Result<()>
    ensures entries { index.new.entries ≡ index.old.entries }
    ensures spare { OnOk result (more ≤ index.new.spare) }
{
    match index.reserve(more) {
        Ok(()) => Ok(()),
        Err(_) => Err(no_memory()),
    }
}

/// Writes the event again, for that time, and answers its entries.
fn write_again(
    alloc: Global,
    index: &mut Index,
    old: &[Entry],
    count: u32,
    time: u32,
) -> io::Result<Vec<Entry>>
    requires { AreBelow (count + 16 * time) index.old.entries }
    ensures below { OnOk result (AreBelow (count + 16 * (time + 1)) index.new.entries) }
    ensures length { IfOk result (λ new. length new.items ≡ 16) }
{
    let new = event(alloc, count, time)?;
    make_room(index, new.len())?;
    index.replace(old, &new);
    Ok(new)
}

/// The nanoseconds in which the event is written again, for that time. Its entries take the place of the old ones.
fn edit_time<R: AllocGlobal + Clock>(
    rt: &R,
    index: &mut Index,
    old: &mut Vec<Entry>,
    count: u32,
    time: u32,
) -> io::Result<u128>
    requires { AreBelow (count + 16 * time) index.old.entries }
    ensures { OnOk result (AreBelow (count + 16 * (time + 1)) index.new.entries) }
{
    let start = Instant::now(rt);
    let new = write_again(rt.alloc(), index, old, count, time);
    let nanoseconds = since(rt, start);
    *old = new?;
    nanoseconds
}

/// The nanoseconds in which the event is written again, in an index of the entries: the least of some times.
pub(crate) fn fastest_edit<R: AllocGlobal + Clock>(
    rt: &R,
    entries: &[Entry],
    count: u32,
) -> io::Result<u128>
    requires rising { AreRising 0 entries.now }
    requires length { length entries.now ≡ count }
{
    let mut index = index_of(rt.alloc(), entries)?;
    let mut least = u128::MAX;
    let mut old = write_again(rt.alloc(), &mut index, &[], count, 0)?;
    for time in 1..EDITS {
        least = least.min(edit_time(rt, &mut index, &mut old, count, time)?);
    }
    Ok(least)
}

/// The nanoseconds in which an index is filled at once with a copy of the entries: the least of some times.
pub(crate) fn fastest_fill<R: AllocGlobal + Clock>(rt: &R, entries: &[Entry]) -> io::Result<u128>
    requires { AreRising 0 entries.now }
{
    let mut least = u128::MAX;
    for _ in 0..ROUNDS {
        let start = Instant::now(rt);
        let index = index_of(rt.alloc(), entries);
        least = least.min(taken(rt, start, index)?);
    }
    Ok(least)
}
