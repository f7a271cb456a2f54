//! A repair of a long timeline in the windows of one edit.

use crate::timelines::measure::{all_time, segments_in};
use crate::timelines::shape::{TimelineShape, entries};
use adr_rule::Meter;
use adr_test_values::telling::{taken, told};
use adr_time::Span;
use adr_timeline::{Entry, Timeline, are_apart};
use std::alloc::Global;
use std::io;
use std::rt::Clock;
use std::time::Instant;

/// How many windows an edit has here.
const WINDOWS: u32 = 16;

/// How often each time is taken, of which the least is told.
const ROUNDS: u32 = 301;

/// A timeline of the entries.
fn built(alloc: Global, entries: &[Entry]) -> io::Result<Timeline> {
    let mut meter = Meter::new();
    told(Timeline::build(alloc, entries, all_time(), &mut meter))
}

/// A long timeline, the windows of an edit in it, and what is to be shown in them.
pub(crate) struct Repair {
    line: Timeline,
    windows: Vec<Span>,
    inner: Timeline,
}

// A function of its own, so that callers that let a value go need not look into it.
impl Drop for Repair {
    fn drop(self) {
        let Repair {
            line,
            windows,
            inner,
        } = self;
        drop(line);
        drop(windows);
        drop(inner);
    }
}

impl Repair {
    /// A line of that many segments, and windows over four segments each.
    pub(crate) fn of(alloc: Global, count: u32) -> io::Result<Repair> {
        let inside = entries(alloc, TimelineShape::Spread(count / WINDOWS), WINDOWS)?;
        let entries = entries(alloc, TimelineShape::Disjoint, count)?;
        let windows = inside.iter().map(|entry| entry.span).collect(alloc)?;
        let inner = built(alloc, &inside)?;
        let line = built(alloc, &entries)?;
        Ok(Repair {
            line,
            windows,
            inner,
        })
    }

    /// The line with what is to be shown in the windows.
    fn repaired(&self) -> io::Result<Timeline> {
        if !are_apart(&self.windows) {
            return Err(io::ErrorKind::Other.into());
        }
        told(self.line.splice_all(&self.windows, &self.inner))
    }

    /// How many segments the repaired line has.
    pub(crate) fn segments(&self) -> io::Result<usize> {
        Ok(segments_in(&self.repaired()?))
    }

    /// The nanoseconds of a repair: the least of some times.
    pub(crate) fn fastest(&self, clock: &impl Clock) -> io::Result<u128> {
        let mut least = u128::MAX;
        for _ in 0..ROUNDS {
            let start = Instant::now(clock);
            let line = self.repaired();
            least = least.min(taken(clock, start, line)?);
        }
        Ok(least)
    }
}
