//! What is measured: the segments, the comparisons and the time of a build.

use adr_rule::Meter;
use adr_test_values::telling::taken;
use adr_time::{End, Moment, Span};
use adr_timeline::{Entry, Timeline};
use std::alloc::Global;
use std::io;
use std::rt::Clock;
use std::time::Instant;

/// How often each time is taken, of which the least is told.
const ROUNDS: u32 = 31;

pub(crate) fn all_time() -> Span {
    Span {
        start: Moment::MIN,
        end: End::Endless,
    }
}

/// How many segments the timeline has.
pub(crate) fn segments_in(timeline: &Timeline) -> usize {
    let mut count: usize = 0;
    for chunk in timeline.segments() {
        count = count.saturating_add(chunk.segments().len());
    }
    count
}

/// The segments of a build, and its comparisons.
pub(crate) fn measured(alloc: Global, entries: &[Entry]) -> io::Result<(usize, u128)> {
    let mut meter = Meter::new();
    match Timeline::build(alloc, entries, all_time(), &mut meter) {
        Ok(timeline) => Ok((segments_in(&timeline), meter.count())),
        Err(_) => Err(io::ErrorKind::OutOfMemory.into()),
    }
}

/// The nanoseconds of a build: the least of some times.
pub(crate) fn fastest_build<R: AllocGlobal + Clock>(rt: &R, entries: &[Entry]) -> io::Result<u128> {
    let mut least = u128::MAX;
    for _ in 0..ROUNDS {
        let start = Instant::now(rt);
        let segments = measured(rt.alloc(), entries);
        least = least.min(taken(rt, start, segments)?);
    }
    Ok(least)
}
