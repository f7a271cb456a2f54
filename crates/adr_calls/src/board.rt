//! The calls of a board and of its publications.
mod asking;
mod loading;
mod opening;
mod replaying;
mod session;

pub(crate) use crate::board::loading::try_load;
pub(crate) use crate::board::opening::READERS;
use crate::board::opening::{try_open, try_over};
pub(crate) use crate::board::replaying::try_replay;
use crate::board::session::try_lines;
pub use crate::board::session::{make, publish};
use adr_model::Tie;
use std::io;
use std::sync::Wait;
use std::thread::Threads;

/// Opens a board empty, and over a desk; and then makes the calls of the lines on a new board under that rule for ties,
/// and asks its last publication what they ask.
pub(crate) fn try_board<R: AllocGlobal + Print + Wait + Threads + Sync>(
    rt: &R,
    tie: Tie,
    lines: &str,
) -> io::Result<()> {
    let lines = String::from_str(rt.alloc(), lines)?;
    try_open(rt, tie)?;
    try_over(rt, tie)?;
    try_lines(rt, tie, lines)
}
