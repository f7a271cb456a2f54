//! Spans and entries for the index and the timeline.
use crate::moments::at;
use adr_model::{Entry, Rank};
use adr_time::{End, Span};

pub(crate) fn span(start: i128, end: i128) -> Span {
    Span {
        start: at(start),
        end: End::At(at(end)),
    }
}

pub(crate) fn endless(start: i128) -> Span {
    Span {
        start: at(start),
        end: End::Endless,
    }
}

/// An entry at place 0.
pub(crate) fn entry(priority: u64, written: u64, span: Span) -> Entry {
    let rank = Rank {
        priority,
        late: 0,
        written,
        place: 0,
    };
    Entry { rank, span }
}
