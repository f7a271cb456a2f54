//! Timelines of few entries.

use crate::moments::at;
use crate::spans::{endless, entry, span};
use adr_rule::Meter;
use adr_time::{End, Span};
use adr_timeline::{PackedSegment, Timeline, timeline_laws};
use adr_value::Refusal;
use std::alloc::Global;
use std::test::Fail;

/// The timeline of three entries from 0 up to 20, of which the second goes first and the third last.
fn three(alloc: Global, meter: &mut Meter) -> Result<Timeline, Refusal> {
    let entries = [
        entry(5, 4, span(0, 10)),
        entry(1, 5, span(5, 15)),
        entry(9, 6, endless(10)),
    ];
    Timeline::build(alloc, &entries, span(0, 20), meter)
}

/// The timeline of one entry.
fn one(alloc: Global, start: i128, end: i128, written: u64) -> Result<Timeline, Refusal> {
    let mut meter = Meter::new();
    let entries = [entry(5, written, span(start, end))];
    Timeline::build(alloc, &entries, span(start, end), &mut meter)
}

/// The start, the end and the written number of a segment, whose place is 0.
type SegmentRow = (i128, i128, u64);

fn is_row(segment: &PackedSegment, row: SegmentRow) -> bool {
    let (start, end, written) = row;
    let winner = segment.winner();
    let is_alike = segment.start() == at(start) && segment.end() == End::At(at(end));
    is_alike && winner.written == written && winner.place == 0
}

/// The rows behind those of the segments, or none where the first ones aren't theirs.
fn rows_behind<'a>(segments: &[PackedSegment], rows: &'a [SegmentRow]) -> Option<&'a [SegmentRow]> {
    let mut rest = rows;
    for segment in segments {
        let (row, later) = rest.split_first()?;
        if !is_row(segment, *row) {
            return None;
        }
        rest = later;
    }
    Some(rest)
}

/// Whether these are the segments of the timeline, in this order, and no others.
fn has(timeline: &Timeline, wanted: &[SegmentRow]) -> bool {
    let mut rest = wanted;
    for chunk in timeline.segments() {
        match rows_behind(chunk.segments(), rest) {
            Some(later) => rest = later,
            None => return false,
        }
    }
    rest.is_empty()
}

/// What the three show.
const SHOWN: &[SegmentRow] = &[(0, 5, 4), (5, 15, 5), (15, 20, 6)];

/// Whether the timeline of the three tells whose entry governs, or 0, and until when.
fn is_told(timeline: &Timeline) -> bool {
    let rows = [
        (-3, 0, End::At(at(0))),
        (0, 4, End::At(at(5))),
        (5, 5, End::At(at(15))),
        (15, 6, End::At(at(20))),
        (20, 0, End::Endless),
    ];
    for (moment, wanted, end) in rows {
        let written = match timeline.governor(at(moment)) {
            Some(winner) => winner.written,
            None => 0,
        };
        if written != wanted || timeline.next_change(at(moment)) != end {
            return false;
        }
    }
    true
}

/// Windows of the timeline of the three, and what is shown inside.
const CLIPPED: [(i128, i128, &[SegmentRow]); 2] = [
    (5, 6, &[(5, 6, 5)]),
    (4, 16, &[(4, 5, 4), (5, 15, 5), (15, 16, 6)]),
];

/// Whether what the timeline of the three shows inside of windows is clipped.
fn is_clipped(timeline: &Timeline) -> Result<bool, Refusal> {
    for (start, end, wanted) in CLIPPED {
        let clipped = timeline.clip(span(start, end))?;
        let has = has(&clipped, wanted);
        drop(clipped);
        if !has {
            return Ok(false);
        }
    }
    Ok(true)
}

/// Whether a copy of the timeline shows this.
fn is_copied(timeline: &Timeline, wanted: &[SegmentRow]) -> Result<bool, Refusal> {
    let copy = timeline.copy()?;
    let has = has(&copy, wanted);
    drop(copy);
    Ok(has)
}

/// Whether a timeline of three entries, of which each goes before the one before, is copied.
fn is_overlap_copied(alloc: Global) -> Result<bool, Refusal> {
    let mut meter = Meter::new();
    let entries = [
        entry(4_294_967_296, 4, span(0, 2)),
        entry(5, 5, span(1, 3)),
        entry(0, 6, span(2, 4)),
    ];
    let timeline = Timeline::build(alloc, &entries, span(0, 4), &mut meter)?;
    let is_copied = is_copied(&timeline, &[(0, 1, 4), (1, 2, 5), (2, 4, 6)]);
    drop(timeline);
    is_copied
}

#[test]
fn the_least_entry_is_shown(rt: HostRuntime) -> Result<(), Fail> {
    timeline_laws();
    let mut meter = Meter::new();
    let timeline = three(rt.alloc(), &mut meter)?;
    let is_shown = has(&timeline, SHOWN) && is_told(&timeline);
    let is_clipped = is_clipped(&timeline);
    let is_copied = is_copied(&timeline, SHOWN);
    drop(timeline);
    assert!(rt; is_shown && meter.count() <= 21);
    assert!(rt; is_clipped == Ok(true) && is_copied == Ok(true));
    assert!(rt; is_overlap_copied(rt.alloc()) == Ok(true));
    Ok(())
}

/// Windows of a timeline from 0 up to 10 into which timelines of one entry are spliced in turn, behind its start, its
/// end and its number, and the segments after each. The first entry parts the timeline, the second shows what was shown
/// before and makes it whole, and the third follows with the same winner and makes the segment longer.
const SPLICED: [(i128, i128, u64, &[SegmentRow]); 3] = [
    (4, 6, 5, &[(0, 4, 4), (4, 6, 5), (6, 10, 4)]),
    (4, 6, 4, &[(0, 10, 4)]),
    (10, 12, 4, &[(0, 12, 4)]),
];

/// Whether the rows are spliced in turn.
fn is_spliced_in_turn(alloc: Global) -> Result<bool, Refusal> {
    let mut timeline = one(alloc, 0, 10, 4)?;
    for (start, end, written, wanted) in SPLICED {
        let inner = one(alloc, start, end, written)?;
        let spliced = timeline.splice(span(start, end), &inner)?;
        timeline = spliced;
        if !has(&timeline, wanted) {
            return Ok(false);
        }
    }
    Ok(true)
}

/// Whether a window of the same timeline that shows nothing opens it.
fn is_opened(alloc: Global) -> Result<bool, Refusal> {
    let timeline = one(alloc, 0, 10, 4)?;
    let opened = timeline.splice(span(4, 6), &Timeline::new(alloc))?;
    Ok(has(&opened, &[(0, 4, 4), (6, 10, 4)]))
}

#[test]
fn windows_are_spliced(rt: HostRuntime) {
    assert!(rt; is_spliced_in_turn(rt.alloc()) == Ok(true));
    assert!(rt; is_opened(rt.alloc()) == Ok(true));
}
