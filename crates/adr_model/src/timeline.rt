//! Who governs, and a stretch of time that one governs.
use adr_time::{End, Moment};

/// The interval that governs: the number of its event's edit, and its place in the event.
#[derive(Clone, Copy)]
pub struct Winner {
    /// The number of the edit that last wrote the event, by which the book finds it.
    pub written: u64,
    /// Where the interval stands in the event's list, counted from 0.
    pub place: u32,
}

/// A stretch of time that one interval governs.
#[derive(Clone, Copy)]
pub struct Segment {
    /// The first moment that it covers.
    pub start: Moment,
    /// Up to when it lasts, that moment not covered, or that it never ends.
    pub end: End,
    /// Which interval governs at each moment of it.
    pub winner: Winner,
}
