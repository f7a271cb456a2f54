//! Timelines by what they show.
use adr_model::Winner;
use adr_timeline::{Chunk, Timeline};

fn same_winner(a: Option<Winner>, b: Option<Winner>) -> bool {
    match (a, b) {
        (Some(a), Some(b)) => a.written == b.written && a.place == b.place,
        (None, None) => true,
        _ => false,
    }
}

/// Whether both show the same from the start of each of the segments to its end.
fn is_chunk_shown(chunk: &Chunk, a: &Timeline, b: &Timeline) -> bool {
    for segment in chunk.segments() {
        let start = segment.start();
        if !same_winner(a.governor(start), b.governor(start))
            || a.next_change(start) != b.next_change(start)
        {
            return false;
        }
    }
    true
}

/// Whether the second shows what the first does wherever the first shows something.
fn is_shown(a: &Timeline, b: &Timeline) -> bool {
    for chunk in a.segments() {
        if !is_chunk_shown(chunk, a, b) {
            return false;
        }
    }
    true
}

/// Whether both are there and show the same, however their segments stand in chunks, or neither is there.
pub fn same_timeline(a: Option<&Timeline>, b: Option<&Timeline>) -> bool {
    match (a, b) {
        (Some(a), Some(b)) => is_shown(a, b) && is_shown(b, a),
        (None, None) => true,
        _ => false,
    }
}
