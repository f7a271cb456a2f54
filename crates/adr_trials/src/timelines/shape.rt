//! Entries to build on.
ghost use Rattle.std.specs.Prelude.{◌≡◌, IfOk, length};

use adr_rule::Rank;
use adr_time::{End, Moment, Span};
use adr_timeline::Entry;
use std::alloc::{AllocError, Global};

/// How entries lie in time.
#[derive(Clone, Copy)]
pub(crate) enum TimelineShape {
    /// Each after the one before, with a gap between.
    Disjoint,
    /// Each inside the one before, and before it in rank.
    Nested,
    /// Disjoint, over an endless one.
    EndlessBelow,
    /// Each over four disjoint ones, of which so many lie from one to the next.
    Spread(u32),
}

impl TimelineShape {
    pub(crate) fn name(self) -> &'static str {
        match self {
            TimelineShape::Disjoint => "disjoint",
            TimelineShape::Nested => "nested",
            TimelineShape::EndlessBelow => "one endless below",
            TimelineShape::Spread(_) => "spread",
        }
    }
}

/// The moment so many nanoseconds after the first one of 1970.
pub(crate) fn at(nanoseconds: i128) -> Moment {
    match Moment::of(nanoseconds) {
        Some(moment) => moment,
        None => Moment::MIN,
    }
}

fn span(start: i128, end: i128) -> Span {
    Span {
        start: at(start),
        end: End::At(at(end)),
    }
}

/// Where the entry of that place lies, of so many.
fn span_of(shape: TimelineShape, place: u32, count: u32) -> Span {
    let number = i128::from(place);
    match shape {
        TimelineShape::Nested => span(number, 2 * i128::from(count) - number),
        TimelineShape::EndlessBelow if place == 0 => Span {
            start: at(0),
            end: End::Endless,
        },
        TimelineShape::Spread(step) => {
            let start = 2 * number * i128::from(step);
            span(start, start + 8)
        }
        _ => span(2 * number, 2 * number + 1),
    }
}

/// Later ones go before earlier ones in rank.
fn entry_of(shape: TimelineShape, place: u32, count: u32) -> Entry {
    let rank = Rank {
        priority: u64::from(u32::MAX - place),
        late: 0,
        written: 1,
        place,
    };
    Entry {
        rank,
        span: span_of(shape, place, count),
    }
}

/// So many entries, in order of their starts.
pub(crate) fn entries(
    alloc: Global,
    shape: TimelineShape,
    count: u32,
) -> Result<Vec<Entry>, AllocError>
    ensures { IfOk result (λ entries. length entries.items ≡ count) }
{
    (0..count)
        .map(|place| entry_of(shape, place, count))
        .collect(alloc)
}
