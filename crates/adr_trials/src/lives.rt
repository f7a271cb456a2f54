//! A long life of a board: edits and publications without end, of which a reader holds the last ones.
ghost use Rattle.std.specs.Prelude.{◌≡◌};
ghost use Rattle.adr_model.specs.declared.entry.Tie.TheVariants.{Newest};

use crate::boards::{CHANGE, fill, make};
use adr_board::{Board, Editor, Naming, NewBoard, Reader, Snapshot};
use adr_calls::publish;
use adr_model::Tie;
use adr_refusal::Refusal;
use adr_test_values::telling::told;
use std::alloc::Global;
use std::io;
use std::marker::Brand;
use std::sync::{Arc, Wait};

/// How long a board lives, and how much is held meanwhile.
#[derive(Clone, Copy)]
pub(crate) struct Life {
    /// How often each of the places is taken by a publication.
    pub(crate) rounds: u64,
    /// How many places there are, each of which holds a publication.
    pub(crate) places: u64,
    /// How many edits come before a publication.
    pub(crate) edits: u64,
}

/// For each place some edits and a publication, which lets the one go that stood there; and then a base, whose version
/// it answers.
fn live<J: Naming, R: Wait>(
    rt: &R,
    alloc: Global,
    editor: &mut Editor<J>,
    reader: &mut Reader<J>,
    held: &mut [Option<Arc<Snapshot>>],
    edits: u64,
) -> Result<u64, Refusal> {
    for place in held.iter_mut() {
        for _ in 0..edits {
            make(alloc, editor, CHANGE)?;
        }
        publish(rt, editor)?;
        *place = Some(reader.look()?);
    }
    editor.condense()
}

fn places(alloc: Global, count: u64) -> Result<Vec<Option<Arc<Snapshot>>>, Refusal> {
    let mut held = Vec::new(alloc);
    for _ in 0..count {
        held.push(None)?;
    }
    Ok(held)
}

fn print_number<R: Print>(rt: &R, number: u64) -> io::Result<()> {
    println!(rt; "{number}")
}

/// The rounds of the life. After each stands a line with the last publication's number, for a measurement of time and
/// memory from outside.
fn live_with<J: Naming, R: Print + Wait>(
    rt: &R,
    alloc: Global,
    editor: &mut Editor<J>,
    reader: &mut Reader<J>,
    held: &mut [Option<Arc<Snapshot>>],
    life: Life,
) -> io::Result<()> {
    for _ in 0..life.rounds {
        told(live(rt, alloc, editor, reader, held, life.edits))?;
        print_number(rt, editor.last().number())?;
    }
    Ok(())
}

/// The life of a board that the lines fill.
fn live_on<J: Naming, R: Print + Wait>(
    rt: &R,
    alloc: Global,
    editor: &mut Editor<J>,
    reader: &mut Reader<J>,
    life: Life,
    lines: &str,
) -> io::Result<()> {
    told(fill(rt, alloc, editor, lines))?;
    let mut held = told(places(alloc, life.places))?;
    let lived = live_with(rt, alloc, editor, reader, held.as_mut_slice(), life);
    drop(held);
    lived
}

/// Opens a board with one reader and lets it live. Within is what printing answered. The lines are owned, as the
/// history of a board can't be named at a call that is given a `&str`.
fn lived<J: Naming, R: AllocGlobal + Print + Wait>(
    rt: &R,
    board: NewBoard,
    life: Life,
    lines: String,
) -> Result<io::Result<()>, Refusal>
    requires history { board.diary.page.book ≡ J.history }
    requires tie { J.tie ≡ Newest }
{
    let alloc = rt.alloc();
    let (mut editor, mut readers) = Board::open::<J, R>(rt, alloc, board, 1, Tie::Newest)?;
    let lived = match readers.first_mut() {
        Some(reader) => live_on(rt, alloc, &mut editor, reader, life, lines.as_str()),
        None => Ok(()),
    };
    editor.close(rt);
    Ok(lived)
}

/// The life of a board that the lines fill, which holds publications.
pub(crate) fn print_life<R: AllocGlobal + Print + Wait>(
    rt: &R,
    life: Life,
    lines: String,
) -> io::Result<()> {
    told(lived::<Brand, R>(rt, NewBoard::new(), life, lines))?
}
