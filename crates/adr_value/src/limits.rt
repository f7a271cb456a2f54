//! The limits of a server's objects and of what is done to them: constants that definitions, contracts and code cite.

/// Programs in a book.
pub const MOST_PROGRAMS: usize = 1_024;

/// Vens in a book.
pub const MOST_VENS: usize = 16_384;

/// Resources in a book.
pub const MOST_RESOURCES: usize = 16_384;

/// Events in a book.
pub const MOST_EVENTS: usize = 16_384;

/// Entries in a book: intervals, each with each of its payload types.
pub const MOST_ENTRIES: usize = 262_144;

/// Intervals of an event.
pub const MOST_INTERVALS: usize = 16_384;

/// Accepted edits above the version of a journal's base.
pub const MOST_EDITS: u64 = 1_000_000;

/// The greatest version that a book can have.
pub const MOST_VERSION: u64 = 1_000_000_000_000;

/// Publications after number 0.
pub const MOST_PUBLICATIONS: u64 = 1_000_000;
