//! Looks of readers in threads of their own, beside an editor that publishes as fast as it can.
ghost use Rattle.std.specs.Prelude.{◌≡◌, ◌<◌, ◌≤◌};
ghost use Rattle.adr_model.specs.declared.entry.Tie.TheVariants.{Newest};

use crate::boards::{CHANGE, fill, make};
use adr_board::{Board, Editor, Naming, NewBoard, Reader};
use adr_calls::publish;
use adr_model::Tie;
use adr_refusal::Refusal;
use adr_test_values::telling::told;
use std::alloc::Global;
use std::io;
use std::marker::Brand;
use std::rt::Clock;
use std::sync::Wait;
use std::sync::atomic::{AtomicU64, Ordering};
use std::thread::{Threads, for_each_mut, join};
use std::time::Instant;

/// How long readers look and the editor publishes, in milliseconds.
const MILLISECONDS: u128 = 1000;

/// How often each of them looks or publishes before it reads the clock again.
const BETWEEN: u64 = 100;

/// How often all readers looked, and how often the editor published.
#[derive(Clone, Copy)]
struct LookCounts {
    looks: u64,
    publications: u64,
}

/// Whether the time since then is over, or can't be told.
fn is_over<R: Clock>(rt: &R, start: &Instant) -> bool {
    match start.elapsed(rt) {
        Ok(elapsed) => MILLISECONDS <= elapsed.as_millis(),
        Err(_) => true,
    }
}

/// Looks so often, and answers how often it saw something.
fn look_often<J: Naming>(reader: &mut Reader<J>) -> u64 {
    let mut looks = 0_u64;
    for _ in 0..BETWEEN {
        if reader.look().is_ok() {
            looks = looks.wrapping_add(1);
        }
    }
    looks
}

/// Looks until the time is over, and then adds how often that was.
fn look_on<J: Naming, R: Clock>(rt: &R, reader: &mut Reader<J>, all: &AtomicU64) {
    let Ok(start) = Instant::now(rt) else {
        return;
    };
    let mut looks = 0_u64;
    for _ in 0..u32::MAX {
        if is_over(rt, &start) {
            break;
        }
        looks = looks.wrapping_add(look_often(reader));
    }
    all.fetch_add(looks, Ordering::Relaxed);
}

fn publish_often<J: Naming, R: Wait>(
    rt: &R,
    alloc: Global,
    editor: &mut Editor<J>,
) -> Result<(), Refusal> {
    for _ in 0..BETWEEN {
        make(alloc, editor, CHANGE)?;
        publish(rt, editor)?;
    }
    Ok(())
}

/// Publishes until the time is over, and counts the publications.
fn publish_on<J: Naming, R: Clock + Wait>(rt: &R, alloc: Global, editor: &mut Editor<J>) -> u64 {
    let first = editor.last().number();
    let Ok(start) = Instant::now(rt) else {
        return 0;
    };
    for _ in 0..u32::MAX {
        if is_over(rt, &start) || publish_often(rt, alloc, editor).is_err() {
            break;
        }
    }
    editor.last().number().wrapping_sub(first)
}

/// Each reader looks in a thread of its own.
fn look_all<J: Naming + Send, R: Clock + Threads + Sync>(
    rt: &R,
    readers: &mut [Reader<J>],
    all: &AtomicU64,
) {
    let count = readers.len().max(1);
    for_each_mut(
        rt,
        readers,
        count,
        &|_place: usize, reader: &mut Reader<J>| look_on(rt, reader, all),
    );
}

/// The readers look while the editor publishes.
fn look_beside<J: Naming + Send, R: Clock + Threads + Wait + Sync>(
    rt: &R,
    alloc: Global,
    editor: &mut Editor<J>,
    readers: &mut [Reader<J>],
) -> LookCounts {
    let looks = AtomicU64::new(0);
    let (_, publications) = join(
        rt,
        || look_all(rt, readers, &looks),
        || publish_on(rt, alloc, editor),
    );
    LookCounts {
        looks: looks.load(Ordering::Relaxed),
        publications,
    }
}

/// How often so many readers look in a second, and how often their editor publishes meanwhile. The lines are owned, as
/// the history of a board can't be named at a call that is given a `&str`.
fn looked<J: Naming + Send, R: AllocGlobal + Clock + Threads + Wait + Sync>(
    rt: &R,
    board: NewBoard,
    readers: usize,
    lines: String,
) -> Result<LookCounts, Refusal>
    requires history { board.diary.page.book ≡ J.history }
    requires tie { J.tie ≡ Newest }
    requires readers { (0 < readers) × (readers ≤ 64) }
{
    let alloc = rt.alloc();
    let (mut editor, mut readers) = Board::open::<J, R>(rt, alloc, board, readers, Tie::Newest)?;
    let filled = fill(rt, alloc, &mut editor, lines.as_str());
    let counts = look_beside(rt, alloc, &mut editor, readers.as_mut_slice());
    drop(readers);
    editor.close(rt);
    filled?;
    Ok(counts)
}

/// A row: the readers of a board that the lines fill, their looks in a second, and the publications of its editor.
pub(crate) fn print_lookers<R: AllocGlobal + Print + Clock + Threads + Wait + Sync>(
    rt: &R,
    readers: usize,
    lines: String,
) -> io::Result<()>
    requires { (0 < readers) × (readers ≤ 64) }
{
    let LookCounts {
        looks,
        publications,
    } = told(looked::<Brand, R>(rt, NewBoard::new(), readers, lines))?;
    println!(rt; "| {readers} | {looks} | {publications} |")
}
