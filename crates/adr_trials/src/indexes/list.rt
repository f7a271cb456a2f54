//! A sort of a plain list of the same entries.
use crate::indexes::filled::ROUNDS;
use adr_index::Entry;
use adr_test_values::telling::taken;
use std::alloc::{AllocError, Global};
use std::cmp::Ordering;
use std::io;
use std::rt::Clock;
use std::time::Instant;

/// By the start, and where entries start together by the written number.
fn compare(first: &Entry, second: &Entry) -> Ordering {
    let (start, other) = (first.span.start, second.span.start);
    start
        .cmp(&other)
        .then(first.rank.written.cmp(&second.rank.written))
}

/// A copy of the entries, in order.
fn sorted(alloc: Global, entries: &[Entry]) -> Result<Vec<Entry>, AllocError> {
    let mut list = Vec::from_slice(alloc, entries)?;
    list.sort_unstable_by(compare);
    Ok(list)
}

/// The nanoseconds in which a copy of the entries is sorted: the least of some times.
pub(crate) fn fastest_sort<R: AllocGlobal + Clock>(rt: &R, entries: &[Entry]) -> io::Result<u128> {
    let mut least = u128::MAX;
    for _ in 0..ROUNDS {
        let start = Instant::now(rt);
        let list = sorted(rt.alloc(), entries);
        least = least.min(taken(rt, start, list)?);
    }
    Ok(least)
}
