//! How much the building of a timeline compares and, where it is timed, how long it takes, as a table over how many
//! entries there are and how they lie; and how many segments a repair leaves.

mod measure;
mod repair;
mod shape;

use crate::timelines::measure::{fastest_build, measured};
use crate::timelines::repair::Repair;
pub(crate) use crate::timelines::shape::at;
use crate::timelines::shape::{TimelineShape, entries};
use adr_timeline::Entry;
use std::io;
use std::rt::Clock;

const BUILDS: &str = "| Entries lie | Entries | Segments | Comparisons |\n|---|---|---|---|";

const TIMED_BUILDS: &str =
    "| Entries lie | Entries | Segments | Comparisons | ns a build |\n|---|---|---|---|---|";

const REPAIRS: &str = "\n| Segments | Repaired |\n|---|---|";

const TIMED_REPAIRS: &str = "\n| Segments | Repaired | ns a repair |\n|---|---|---|";

/// The end of a row, with the nanoseconds where they were taken.
fn print_time<R: Print>(rt: &R, nanoseconds: Option<u128>) -> io::Result<()> {
    match nanoseconds {
        Some(nanoseconds) => println!(rt; " {nanoseconds} |"),
        None => println!(rt; ""),
    }
}

/// A row of the table: how the entries lie, their number, the segments and the comparisons of a build and, where it is
/// timed, the nanoseconds of a build.
fn print_build<R: AllocGlobal + Print + Clock>(
    rt: &R,
    shape: TimelineShape,
    entries: &[Entry],
    is_timed: bool,
) -> io::Result<()> {
    let (segments, compares) = measured(rt.alloc(), entries)?;
    let (name, count) = (shape.name(), entries.len());
    print!(rt; "| {name} | {count} | {segments} | {compares} |")?;
    let nanoseconds = if is_timed {
        Some(fastest_build(rt, entries)?)
    } else {
        None
    };
    print_time(rt, nanoseconds)
}

fn print_builds<R: AllocGlobal + Print + Clock>(rt: &R, is_timed: bool) -> io::Result<()> {
    println!(rt; "{}", if is_timed { TIMED_BUILDS } else { BUILDS })?;
    for shape in [
        TimelineShape::Disjoint,
        TimelineShape::Nested,
        TimelineShape::EndlessBelow,
    ] {
        for count in [256, 4096, 65_536] {
            let entries = entries(rt.alloc(), shape, count)?;
            print_build(rt, shape, &entries, is_timed)?;
        }
    }
    Ok(())
}

/// A row of the table: the segments of the line, those of the repaired one and, where it is timed, the nanoseconds of a
/// repair.
fn print_repair<R: Print + Clock>(
    rt: &R,
    repair: &Repair,
    count: u32,
    is_timed: bool,
) -> io::Result<()> {
    let segments = repair.segments()?;
    print!(rt; "| {count} | {segments} |")?;
    let nanoseconds = if is_timed {
        Some(repair.fastest(rt)?)
    } else {
        None
    };
    print_time(rt, nanoseconds)
}

fn print_repairs<R: AllocGlobal + Print + Clock>(rt: &R, is_timed: bool) -> io::Result<()> {
    println!(rt; "{}", if is_timed { TIMED_REPAIRS } else { REPAIRS })?;
    for count in [256, 4096, 65_536] {
        let repair = Repair::of(rt.alloc(), count)?;
        print_repair(rt, &repair, count, is_timed)?;
    }
    Ok(())
}

/// How builds compare, and how many segments repairs leave.
pub(crate) fn print_timelines<R: AllocGlobal + Print + Clock>(
    rt: &R,
    is_timed: bool,
) -> io::Result<()> {
    print_builds(rt, is_timed)?;
    print_repairs(rt, is_timed)
}
