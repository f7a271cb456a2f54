//! Intervals as they compete: where they lie, and what decides between two of them.
use adr_time::Span;

/// Where an interval lies in time, and its place in its event.
#[derive(Clone, Copy)]
pub struct Placed {
    /// From its start up to its end, which it doesn't cover; of no length where no duration is given.
    pub span: Span,
    /// Where it stands in the event's list, counted from 0.
    pub place: u32,
}

/// Which of two intervals of one priority goes before the other.
#[derive(Clone, Copy, PartialEq, Eq, Debug)]
pub enum Tie {
    /// The one that was written later.
    Newest,
    /// The one that starts later, and of two that start together the one that was written later.
    LatestStart,
}

/// What decides between two intervals that cover one instant: the lesser rank goes before the other, by its fields
/// in order, but for `written`, of which the greater comes first.
#[derive(Clone, Copy)]
pub struct Rank {
    /// The event's priority, or 2^32 where it has none.
    pub priority: u64,
    /// Under [`Tie::LatestStart`] minus the start of the span, in nanoseconds; else 0.
    pub late: i128,
    /// The number of the edit that last wrote the event.
    pub written: u64,
    /// The interval's place in its event.
    pub place: u32,
}

/// An interval that carries a payload type, as it competes for a timeline.
#[derive(Clone, Copy)]
pub struct Entry {
    /// What decides between it and others; its `written` and `place` name the interval.
    pub rank: Rank,
    /// The stretch of time in which it competes; one that covers nothing never governs.
    pub span: Span,
}
