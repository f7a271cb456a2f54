//! Desks that are filled at once, and boards over them.
ghost use Rattle.std.specs.Prelude.{◌≡◌, [], IfOk};
ghost use Rattle.adr_model.specs.Book.{empty};

use crate::board::asking::try_ask;
use crate::board::opening::{READERS, add_edit};
use crate::board::replaying::tell_published;
use crate::desk::apply;
use crate::same::are_same;
use adr_board::{Board, Desk, Editor, Naming, NewBoard};
use adr_model::Tie;
use adr_object::Edit;
use adr_test_values::lines::word;
use adr_test_values::telling::{tell_next, tell_ordinary, tell_same, told};
use adr_value::Refusal;
use std::alloc::Global;
use std::io;
use std::marker::Brand;
use std::sync::Wait;
use std::thread::Threads;

fn is_question(line: &str) -> bool {
    matches!(word(line).0, "at" | "list" | "roll" | "types")
}

/// The edits of those lines that are no questions.
fn edits_of(alloc: Global, lines: &str) -> Result<Vec<Edit>, Refusal> {
    let mut edits = Vec::new(alloc);
    for line in lines.lines() {
        if !is_question(line) {
            add_edit(alloc, line, &mut edits)?;
        }
    }
    Ok(edits)
}

/// Makes those of the edits that are accepted, one after the other.
fn apply_each(desk: &mut Desk, edits: &[Edit]) -> Result<(), Refusal> {
    for edit in edits {
        if apply(desk, edit) == Err(Refusal::NoMemory) {
            return Err(Refusal::NoMemory);
        }
    }
    Ok(())
}

/// Whether a new desk shows the same after the edits of the lines.
fn is_as_applied(alloc: Global, desk: &Desk, lines: &str) -> Result<bool, Refusal> {
    let edits = edits_of(alloc, lines)?;
    let mut other = Desk::new(alloc, desk.tie())?;
    let applied = apply_each(&mut other, edits.as_slice());
    drop(edits);
    let is_same = are_same(desk, &other);
    drop(other);
    applied?;
    Ok(is_same)
}

fn tell_answers<R: Print>(rt: &R, answers: &[Result<u64, Refusal>]) -> io::Result<()> {
    for answer in answers {
        tell_ordinary(rt, *answer)?;
    }
    Ok(())
}

/// The desk of the edits of the lines, filled at once. What each of them is answered is told.
fn loaded<R: AllocGlobal + Print + Threads + Sync>(
    rt: &R,
    tie: Tie,
    lines: &str,
) -> io::Result<Desk>
    ensures base { IfOk result (λ desk. desk.book.base ≡ empty) }
    ensures closed { IfOk result (λ desk. desk.book.closed ≡ []) }
{
    let edits = told(edits_of(rt.alloc(), lines))?;
    let (desk, answers) = told(Desk::load(rt, rt.alloc(), edits, tie))?;
    let all = tell_answers(rt, answers.as_slice());
    drop(answers);
    all?;
    Ok(desk)
}

/// Publishes what is there, and asks the publication the questions of the lines.
fn tell_publication<J: Naming, R: AllocGlobal + Print + Wait>(
    rt: &R,
    editor: &mut Editor<J>,
    lines: &str,
) -> io::Result<()> {
    let published = told(editor.publish(rt))?;
    tell_published(rt, published)?;
    for (number, line) in lines.lines().enumerate() {
        if is_question(line) {
            try_ask(rt, &**editor.last(), number, line)?;
        }
    }
    Ok(())
}

/// Opens a board over the desk, publishes, and asks. The lines are owned, as the history of a board can't be named at a
/// call that is given a `&str`.
fn on_board<J: Naming, R: AllocGlobal + Print + Wait>(
    rt: &R,
    board: NewBoard,
    desk: Desk,
    lines: String,
) -> Result<io::Result<()>, Refusal>
    requires history { board.diary.page.book ≡ J.history }
    requires tie { desk.tie ≡ J.tie }
    requires base { desk.book.base ≡ empty }
    requires closed { desk.book.closed ≡ [] }
{
    let (mut editor, readers) = Board::over::<J, R>(rt, rt.alloc(), board, desk, READERS)?;
    drop(readers);
    let told = tell_publication(rt, &mut editor, lines.as_str());
    editor.close(rt);
    Ok(told)
}

/// Fills a desk at once with the edits of the lines, tells what each is answered and whether the desk is as if they had
/// been made one after the other, opens a board over it, publishes, and asks the publication the questions of the other
/// lines.
pub(crate) fn try_load<R: AllocGlobal + Print + Wait + Threads + Sync>(
    rt: &R,
    tie: Tie,
    lines: &str,
) -> io::Result<()> {
    tell_next(rt, "load: all edits")?;
    let desk = loaded(rt, tie, lines)?;
    tell_same(rt, is_as_applied(rt.alloc(), &desk, lines) == Ok(true))?;
    let lines = String::from_str(rt.alloc(), lines)?;
    told(on_board::<Brand, R>(rt, NewBoard::new(), desk, lines))?
}
