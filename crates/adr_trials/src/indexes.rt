//! How long it takes to fill an index, beside a sort of a plain list, and to write an event's entries again.
ghost use Rattle.std.specs.Prelude.{◌≡◌, length};
ghost use Rattle.adr_trials.specs.Numbers.{AreRising};

mod filled;
mod list;
mod shape;

use crate::indexes::filled::{fastest_edit, fastest_fill};
use crate::indexes::list::fastest_sort;
use crate::indexes::shape::entries;
use adr_index::Entry;
use std::io;
use std::rt::Clock;

/// A row of the table: the number of entries, and the nanoseconds of filling an index, of a sort and of an event.
fn print_row<R: AllocGlobal + Print + Clock>(
    rt: &R,
    entries: &[Entry],
    count: u32,
) -> io::Result<()>
    requires rising { AreRising 0 entries.now }
    requires length { length entries.now ≡ count }
{
    let fill = fastest_fill(rt, entries)?;
    let sort = fastest_sort(rt, entries)?;
    let event = fastest_edit(rt, entries, count)?;
    println!(rt; "| {count} | {fill} | {sort} | {event} |")
}

pub(crate) fn print_indexes<R: AllocGlobal + Print + Clock>(rt: &R) -> io::Result<()> {
    println!(rt; "| Entries | ns filled | ns sorted | ns an event |\n|---|---|---|---|")?;
    for count in [256, 4096, 65_536, 262_144] {
        let entries = entries(rt.alloc(), 0, count, count)?;
        print_row(rt, &entries, count)?;
    }
    Ok(())
}
