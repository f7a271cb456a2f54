//! Steps that are replayed.
ghost use Rattle.std.specs.Prelude.{◌<◌, ◌≤◌, All, IfOk, OnOk};
ghost use Rattle.adr_board.specs.Replay.{NamesReader};

use crate::board::asking::tell_at;
use adr_board::{Published, Shown, Snapshot, Step, replay};
use adr_model::Tie;
use adr_test_values::lines::{edit, word};
use adr_test_values::telling::{tell_next, tell_want, told};
use adr_value::Refusal;
use std::alloc::Global;
use std::io;
use std::sync::Wait;

/// The place of a reader, if there is such a reader of so many.
fn reader(word: &str, readers: usize) -> Result<usize, Refusal>
    ensures { IfOk result (λ place. place < readers) }
{
    let place = word.parse::<usize>().unwrap_or(readers);
    if place < readers {
        Ok(place)
    } else {
        Err(Refusal::BadLine)
    }
}

/// The step of a line.
fn step_of(alloc: Global, readers: usize, line: &str) -> Result<Step, Refusal>
    ensures { IfOk result (NamesReader readers) }
{
    let (first, rest) = word(line);
    match first {
        "publish" => Ok(Step::Publish),
        "condense" => Ok(Step::Condense),
        "tell" => Ok(Step::Tell(reader(rest, readers)?)),
        "look" => Ok(Step::Look(reader(rest, readers)?)),
        _ => Ok(Step::Edit(edit(alloc, line)?)),
    }
}

/// Adds the step of the line.
#[tactic(auto, using(crate::proofs::Stepping::one_more))]
fn add_step(alloc: Global, readers: usize, line: &str, steps: &mut Vec<Step>) -> Result<(), Refusal>
    requires { All (NamesReader readers) steps.old.items }
    ensures { OnOk result (All (NamesReader readers) steps.new.items) }
{
    let step = step_of(alloc, readers, line)?;
    steps.push(step)?;
    Ok(())
}

/// The steps of the lines.
fn steps_of(alloc: Global, readers: usize, lines: &str) -> Result<Vec<Step>, Refusal>
    ensures { IfOk result (λ steps. All (NamesReader readers) steps.items) }
{
    let mut steps = Vec::new(alloc);
    for line in lines.lines() {
        add_step(alloc, readers, line, &mut steps)?;
    }
    Ok(steps)
}

/// Replays the steps of the lines.
fn replayed<R: AllocGlobal + Wait>(
    rt: &R,
    tie: Tie,
    readers: usize,
    lines: &str,
) -> Result<Vec<Shown>, Refusal>
    requires { (0 < readers) × (readers ≤ 64) }
{
    let steps = steps_of(rt.alloc(), readers, lines)?;
    replay(rt, rt.alloc(), readers, steps, tie)
}

fn tell_number<R: Print>(rt: &R, what: &str, number: u64) -> io::Result<()> {
    println!(rt; "  ordinary: {what} {number}")
}

fn tell_refusal<R: Print>(rt: &R, refusal: Refusal) -> io::Result<()> {
    println!(rt; "  ordinary: refused {refusal}")
}

/// The number and the version of a publication.
pub(crate) fn tell_published<R: Print>(rt: &R, published: Published) -> io::Result<()> {
    let Published { number, version } = published;
    tell_numbers(rt, "published", number, version)
}

fn tell_numbers<R: Print>(rt: &R, what: &str, number: u64, version: u64) -> io::Result<()> {
    println!(rt; "  ordinary: {what} {number} version {version}")
}

/// The number and the version of the snapshot, and what it answers of the price of `r1` in the first half hour of 2024.
fn tell_seen<R: AllocGlobal + Print>(rt: &R, snapshot: &Snapshot) -> io::Result<()> {
    tell_numbers(rt, "seen", snapshot.number(), snapshot.version())?;
    tell_at(rt, snapshot, "r1 2024-01-01T00:30:00Z")
}

fn tell_shown<R: AllocGlobal + Print>(rt: &R, shown: &Shown) -> io::Result<()> {
    match shown {
        Shown::Done(version) => tell_number(rt, "done", *version),
        Shown::Refused(refusal) => tell_refusal(rt, *refusal),
        Shown::Published(published) => tell_published(rt, *published),
        Shown::Told => tell_next(rt, "  ordinary: told"),
        Shown::Condensed(version) => tell_number(rt, "condensed", *version),
        Shown::Seen(snapshot) => tell_seen(rt, &**snapshot),
    }
}

fn tell_all<R: AllocGlobal + Print>(rt: &R, shown: &[Shown]) -> io::Result<()> {
    for shown in shown {
        tell_shown(rt, shown)?;
    }
    Ok(())
}

fn tell_replayed<R: AllocGlobal + Print>(
    rt: &R,
    answer: Result<Vec<Shown>, Refusal>,
) -> io::Result<()> {
    let shown = told(answer)?;
    let all = tell_all(rt, shown.as_slice());
    drop(shown);
    all
}

/// Replays the steps of the lines, of so many readers: edits, `publish`, `condense`, `tell READER` and `look READER`.
pub(crate) fn try_replay<R: AllocGlobal + Print + Wait>(
    rt: &R,
    tie: Tie,
    readers: usize,
    lines: &str,
) -> io::Result<()>
    requires { (0 < readers) × (readers ≤ 64) }
{
    tell_next(rt, "replay: version 0")?;
    match replayed(rt, tie, readers, lines) {
        Err(Refusal::NoMemory) => {
            tell_want(rt)?;
            tell_replayed(rt, replayed(rt, tie, readers, lines))
        }
        answer => tell_replayed(rt, answer),
    }
}
