//! Makes the calls of a book, a desk and a board that lines name, and tells what they answer: for stored runs, and for
//! a test that refuses growths of memory from outside.
#![tactic(auto)]

ghost use Rattle.std.specs.Prelude.{◌<◌, ◌≤◌};

mod board;
mod book;
mod calls;
mod desk;
mod listing;
mod receipts;
mod same;

pub use crate::board::{make, publish};
use crate::board::{READERS, try_board, try_load, try_replay};
use crate::book::try_book;
use crate::desk::try_desk;
use crate::listing::list_touches;
use crate::receipts::tell_receipts;
use adr_model::Tie;
use adr_test_values::lines::word;
use std::io;
use std::sync::Wait;
use std::thread::Threads;

/// The rule for ties that the title begins with, behind its first word, or that of the newest.
fn tie_of(title: &str) -> Tie {
    match word(title) {
        ("latest-start", _) => Tie::LatestStart,
        _ => Tie::Newest,
    }
}

/// How many readers the steps of a part have, which its title says.
fn readers_of(title: &str) -> usize
    ensures { (0 < result) × (result ≤ 64) }
{
    match title.split_once("one reader") {
        Some(_) => 1,
        None => READERS,
    }
}

fn try_part<R: AllocGlobal + Print + Wait + Threads + Sync>(rt: &R, part: &str) -> io::Result<()> {
    let (title, lines) = part.split_once('\n').unwrap_or((part, ""));
    let (name, title) = word(title);
    let tie = tie_of(title);
    match name {
        "book" => try_book(rt, lines),
        "desk" => try_desk(rt, tie, lines),
        "load" => try_load(rt, tie, lines),
        "touches" => list_touches(rt, tie, lines),
        "receipts" => tell_receipts(rt, lines),
        "replay" => try_replay(rt, tie, readers_of(title), lines),
        _ => try_board(rt, tie, lines),
    }
}

/// Makes the calls of a text of parts, with an empty line between two. The first word of a part is `book`, `desk`,
/// `load`, `touches`, `receipts`, `replay` or `board`; what its other lines may be stands with each. Behind it a title
/// may stand: it may begin with `latest-start`, the rule for ties of all but a book and receipts, and `one reader` in
/// that of a replay says how many there are.
///
/// Before a call stands a line that names it, by which the test knows where to count growths. Where the call is refused
/// for want of memory, what is there is compared with another that the same calls made, or with what was there before,
/// and the call is made again.
///
/// # Errors
///
/// Those of the standard output; `OutOfMemory` where a refusal ends a part.
pub fn try_parts<R: AllocGlobal + Print + Wait + Threads + Sync>(
    rt: &R,
    text: &str,
) -> io::Result<()> {
    for part in text.split("\n\n") {
        try_part(rt, part)?;
    }
    Ok(())
}
