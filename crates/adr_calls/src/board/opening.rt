//! Boards that are opened and closed.
ghost use Rattle.std.specs.Prelude.{◌≡◌, [], IfOk};
ghost use Rattle.adr_model.specs.Book.{empty};

use adr_board::{Board, Desk, Editor, Naming, NewBoard, Reader};
use adr_model::Tie;
use adr_object::Edit;
use adr_test_values::lines::edit;
use adr_test_values::telling::{tell_next, tell_ordinary, tell_same, tell_want, told};
use adr_value::Refusal;
use std::alloc::Global;
use std::io;
use std::marker::Brand;
use std::sync::Wait;
use std::thread::Threads;

/// How many readers each board has.
pub(crate) const READERS: usize = 2;

/// What the desk is made of that a board is opened over.
const EDITS: &str = "create program p1
create ven v1
create resource r1 v1
create event e1 p1 2024-01-01T00:00:00Z PT2H 3 10 -";

fn version_of<J: Naming>(editor: &Editor<J>) -> u64 {
    editor.desk().book().version()
}

/// Ends the board, and answers the version of its desk.
fn end<J: Naming, R: Wait>(rt: &R, editor: Editor<J>, readers: Vec<Reader<J>>) -> u64 {
    let version = version_of(&editor);
    drop(readers);
    editor.close(rt);
    version
}

/// How many readers looked, and the greatest number and version of what they saw.
#[derive(Clone, Copy)]
struct Looks {
    readers: u64,
    number: u64,
    version: u64,
}

/// Lets each reader look.
fn look_each<J: Naming>(readers: &mut [Reader<J>]) -> Result<Looks, Refusal> {
    let mut looks = Looks {
        readers: 0,
        number: 0,
        version: 0,
    };
    for reader in readers.iter_mut() {
        let seen = reader.look()?;
        looks.readers = looks.readers.wrapping_add(1);
        looks.number = looks.number.max(seen.number());
        looks.version = looks.version.max(seen.version());
    }
    Ok(looks)
}

/// Opens a board, lets each reader look, and ends it.
fn open<J: Naming, R: AllocGlobal + Wait>(
    rt: &R,
    board: NewBoard,
    tie: Tie,
) -> Result<Looks, Refusal>
    requires history { board.diary.page.book ≡ J.history }
    requires tie { J.tie ≡ tie }
{
    let (editor, mut readers) = Board::open::<J, R>(rt, rt.alloc(), board, READERS, tie)?;
    let looks = look_each(readers.as_mut_slice());
    end(rt, editor, readers);
    looks
}

fn open_new<R: AllocGlobal + Wait>(rt: &R, tie: Tie) -> Result<Looks, Refusal> {
    open::<Brand, R>(rt, NewBoard::new(), tie)
}

fn tell_looks<R: Print>(rt: &R, looks: Result<Looks, Refusal>) -> io::Result<()> {
    let Looks {
        readers,
        number,
        version,
    } = told(looks)?;
    println!(rt; "  ordinary: {readers} readers see at most number {number} version {version}")
}

/// Opens a board, and tells what its readers see first.
pub(crate) fn try_open<R: AllocGlobal + Print + Wait>(rt: &R, tie: Tie) -> io::Result<()> {
    tell_next(rt, "open: version 0")?;
    let mut answer = open_new(rt, tie);
    if answer.is_err() {
        tell_want(rt)?;
        answer = open_new(rt, tie);
    }
    tell_looks(rt, answer)
}

fn over<J: Naming, R: AllocGlobal + Wait>(
    rt: &R,
    board: NewBoard,
    desk: Desk,
) -> Result<u64, Refusal>
    requires history { board.diary.page.book ≡ J.history }
    requires tie { desk.tie ≡ J.tie }
    requires base { desk.book.base ≡ empty }
    requires closed { desk.book.closed ≡ [] }
{
    let (editor, readers) = Board::over::<J, R>(rt, rt.alloc(), board, desk, READERS)?;
    Ok(end(rt, editor, readers))
}

fn over_new<R: AllocGlobal + Wait>(rt: &R, desk: Desk) -> Result<u64, Refusal>
    requires base { desk.book.base ≡ empty }
    requires closed { desk.book.closed ≡ [] }
{
    over::<Brand, R>(rt, NewBoard::new(), desk)
}

/// The desk of those edits under that rule for ties.
fn desk_of<R: AllocGlobal + Threads + Sync>(rt: &R, tie: Tie) -> Result<Desk, Refusal>
    ensures base { IfOk result (λ desk. desk.book.base ≡ empty) }
    ensures closed { IfOk result (λ desk. desk.book.closed ≡ []) }
{
    let edits = edits_of(rt.alloc())?;
    let (desk, answers) = Desk::load(rt, rt.alloc(), edits, tie)?;
    drop(answers);
    Ok(desk)
}

/// Adds the edit of the line.
pub(crate) fn add_edit(alloc: Global, line: &str, edits: &mut Vec<Edit>) -> Result<(), Refusal> {
    let edit = edit(alloc, line)?;
    edits.push(edit)?;
    Ok(())
}

fn edits_of(alloc: Global) -> Result<Vec<Edit>, Refusal> {
    let mut edits = Vec::new(alloc);
    for line in EDITS.lines() {
        add_edit(alloc, line, &mut edits)?;
    }
    Ok(edits)
}

fn over_again<R: AllocGlobal + Wait + Threads + Sync>(rt: &R, tie: Tie) -> Result<u64, Refusal> {
    let desk = desk_of(rt, tie)?;
    over_new(rt, desk)
}

/// Opens a board over a desk, and ends it.
pub(crate) fn try_over<R: AllocGlobal + Print + Wait + Threads + Sync>(
    rt: &R,
    tie: Tie,
) -> io::Result<()> {
    let desk = told(desk_of(rt, tie))?;
    tell_next(rt, "over: version 4")?;
    let mut answer = over_new(rt, desk);
    if answer.is_err() {
        tell_want(rt)?;
        answer = over_again(rt, tie);
    }
    tell_ordinary(rt, answer)?;
    tell_same(rt, answer == Ok(4))
}
