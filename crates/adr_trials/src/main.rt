//! What is measured and tried beside the program itself: timelines and indexes, edits of desks, boards, calls whose
//! growths of memory are refused from outside, and the plain machine.
//!
//! With no word, what timelines compare, and then the calls that standard input says. With a word, what it names alone:
//! `timelines` or `indexes`, and how long they take; or, with lines from standard input, `calls`, those that they say;
//! `edits` of a desk, or its `load` with all at once; `looks READERS` of a board, `live THOUSANDS` or `hold
//! PUBLICATIONS`, whose edits the lines are; and `newest` or `latest-start`, the plain machine's replies under that
//! rule for ties.
#![tactic(auto)]

mod boards;
mod desk;
mod indexes;
mod lives;
mod looking;
mod plain;
mod timelines;

use crate::desk::{print_edits, print_load};
use crate::indexes::print_indexes;
use crate::lives::{Life, print_life};
use crate::looking::print_lookers;
use crate::plain::print_replies;
use crate::timelines::print_timelines;
use adr_calls::try_parts;
use adr_resolver::Tie;
use std::rt::{Clock, Env};
use std::sync::Wait;
use std::thread::Threads;
use std::{env, io};

/// The first word, if there is one, and the number behind it, or 1.
fn words<R: AllocGlobal + Env>(rt: &R) -> io::Result<(Option<String>, u64)> {
    let mut words = env::args(rt)?;
    let _program = words.next();
    let name = words.next();
    let count = words
        .next()
        .and_then(|word| word.parse::<u64>().ok())
        .unwrap_or(1);
    Ok((name, count))
}

/// A board of the lines, as the word says.
fn print_board<R: AllocGlobal + Print + Clock + Threads + Wait + Sync>(
    rt: &R,
    name: &str,
    count: u64,
    lines: String,
) -> io::Result<()> {
    let life = match name {
        "live" => Life {
            rounds: count,
            places: 100,
            edits: 10,
        },
        "hold" => Life {
            rounds: 1,
            places: count,
            edits: 1,
        },
        _ => return print_lookers(rt, count.clamp(1, 64) as usize, lines),
    };
    print_life(rt, life, lines)
}

/// What the word says of the lines.
fn print_named<R: AllocGlobal + Print + Clock + Threads + Wait + Sync>(
    rt: &R,
    name: &str,
    count: u64,
    lines: String,
) -> io::Result<()> {
    match name {
        "calls" => try_parts(rt, lines.as_str()),
        "edits" => print_edits(rt, lines.as_str()),
        "load" => print_load(rt, lines.as_str()),
        "newest" => print_replies(rt, Tie::Newest, lines.as_str()),
        "latest-start" => print_replies(rt, Tie::LatestStart, lines.as_str()),
        _ => print_board(rt, name, count, lines),
    }
}

/// The lines of standard input.
fn lines(rt: &HostRuntime) -> io::Result<String> {
    io::read_to_string(rt.alloc(), rt.reader())
}

fn main(rt: HostRuntime) -> io::Result<()> {
    let (name, count) = words(&rt)?;
    match name.as_deref().unwrap_or("") {
        "timelines" => print_timelines(&rt, true),
        "indexes" => print_indexes(&rt),
        "" => {
            print_timelines(&rt, false)?;
            println!(&rt; "")?;
            try_parts(&rt, lines(&rt)?.as_str())
        }
        name => print_named(&rt, name, count, lines(&rt)?),
    }
}
