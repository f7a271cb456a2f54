//! An index over few entries, and over many.
use crate::moments::at;
use crate::spans::{endless, entry, span};
use adr_index::{Entry, Index, Wanted};
use adr_rule::Meter;
use adr_time::Span;
use adr_value::Refusal;
use std::alloc::Global;
use std::test::Fail;

/// Adds an entry, in the place of any that has its written number and place.
fn put(index: &mut Index, entry: Entry) -> Result<(), Refusal> {
    let _ = index.remove(entry.rank.written, entry.rank.place);
    index.insert(entry)
}

/// The entry with that written number: of three, whose numbers are 4 to 6, or of many, from 10 on, each of which covers
/// one instant of its own.
fn written(number: u64) -> Entry {
    match number {
        4 => entry(5, 4, span(0, 10)),
        5 => entry(1, 5, span(5, 15)),
        6 => entry(9, 6, endless(10)),
        _ => {
            let start = i128::from(number) - 10;
            entry(0, number, span(start, start + 1))
        }
    }
}

/// The three entries. The last of them comes first, so that the index has something to put in order.
fn three(alloc: Global) -> Result<Index, Refusal> {
    let mut index = Index::new(alloc);
    for number in [6, 4, 5] {
        put(&mut index, written(number))?;
    }
    Ok(index)
}

/// Whether the two are alike in their rank, their place in the event and their span.
fn is_same(entry: &Entry, other: &Entry) -> bool {
    entry.rank.priority == other.rank.priority
        && entry.rank.late == other.rank.late
        && entry.rank.written == other.rank.written
        && entry.rank.place == other.rank.place
        && entry.span == other.span
}

/// Whether the entries with these written numbers were found whole, in this order, and no others.
fn are(found: &[Entry], wanted: &[u64]) -> bool {
    let mut rest = wanted;
    for entry in found {
        let Some((number, later)) = rest.split_first() else {
            return false;
        };
        if !is_same(entry, &written(*number)) {
            return false;
        }
        rest = later;
    }
    rest.is_empty()
}

/// Moments, and the written numbers of those of the three that cover them.
const COVERING: [(i128, &[u64]); 5] = [
    (-1, &[]),
    (0, &[4]),
    (5, &[4, 5]),
    (10, &[5, 6]),
    (15, &[6]),
];

/// Whether what meets a window of the three is found.
fn finds_what_overlaps(index: &Index) -> Result<bool, Refusal> {
    let windows: [(Span, &[u64]); 5] = [
        (span(9, 10), &[4, 5]),
        (span(0, 20), &[4, 5, 6]),
        (span(-5, 0), &[]),
        (span(7, 7), &[]),
        (endless(15), &[6]),
    ];
    for (window, wanted) in windows {
        if !are(&index.overlapping(window)?, wanted) {
            return Ok(false);
        }
    }
    Ok(true)
}

/// One write alone.
struct Alone(u64);

impl Wanted for Alone {
    ghost use Rattle.std.specs.Prelude.{◌==◌};

    ghost is_wanted = { λ alone written. written == alone.0 };

    fn wants(&self, written: u64) -> bool {
        written == self.0
    }
}

/// Whether of what meets a window of the three one write's alone is found, and nothing where that doesn't meet it.
fn finds_one_write(index: &Index) -> Result<bool, Refusal> {
    let is_found = are(&index.overlapping_of(span(0, 20), &Alone(5))?, &[5]);
    Ok(is_found && are(&index.overlapping_of(span(0, 10), &Alone(6))?, &[]))
}

/// Whether what covers a moment of the three is found, and what meets a window, of all writes and of one.
fn finds_all(index: &Index) -> Result<bool, Refusal> {
    for (moment, wanted) in COVERING {
        if !are(&index.covering(at(moment))?, wanted) {
            return Ok(false);
        }
    }
    Ok(finds_what_overlaps(index)? && finds_one_write(index)?)
}

/// Whether an entry of the three is found, taken out once, and then found no more.
fn is_removed_once(index: &mut Index) -> Result<bool, Refusal> {
    let is_found = finds_all(index)?;
    let is_removed = index.remove(5, 0);
    let is_left_out = are(&index.covering(at(5))?, &[4]);
    Ok(is_found && is_removed && is_left_out && !index.remove(5, 0))
}

/// A copy keeps what is taken out.
#[test]
fn entries_are_found_and_removed_once(rt: HostRuntime) -> Result<(), Fail> {
    let mut index = three(rt.alloc())?;
    let copy = index.copy()?;
    let is_removed = is_removed_once(&mut index);
    let are_kept = finds_all(&copy);
    drop(copy);
    drop(index);
    assert!(rt; is_removed == Ok(true) && are_kept == Ok(true));
    Ok(())
}

/// Whether room that is reserved for two entries takes them, with less of it left after the first.
fn keeps_room(index: &mut Index) -> Result<bool, Refusal> {
    index.reserve(2)?;
    let spare = index.spare();
    put(index, written(4))?;
    let left = index.spare();
    put(index, written(5))?;
    Ok(spare >= 2 && left >= 1 && index.len() == 2)
}

#[test]
fn reserved_room_is_there(rt: HostRuntime) {
    let mut index = Index::new(rt.alloc());
    let keeps_room = keeps_room(&mut index);
    drop(index);
    assert!(rt; keeps_room == Ok(true));
}

/// Whether one of 4,096 entries, each of which covers an instant of its own, is found by a moment and by a window, with
/// few looks at each.
fn finds_one_of_many(index: &mut Index) -> Result<bool, Refusal> {
    for number in 10..4106u64 {
        put(index, written(number))?;
    }
    if index.len() != 4096 {
        return Ok(false);
    }
    let mut meter = Meter::new();
    let covering = index.covering_counted(at(100), &mut meter)?;
    let mut other = Meter::new();
    let meeting = index.overlapping_counted(span(100, 101), &mut other)?;
    let are_few = meter.count() <= 112 && other.count() <= 112;
    Ok(are_few && are(&covering, &[110]) && are(&meeting, &[110]))
}

#[test]
fn few_of_many_entries_are_looked_at(rt: HostRuntime) {
    let mut index = Index::new(rt.alloc());
    let is_found = finds_one_of_many(&mut index);
    drop(index);
    assert!(rt; is_found == Ok(true));
}
