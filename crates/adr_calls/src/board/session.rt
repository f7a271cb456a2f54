//! Lines, on one board.
ghost use Rattle.std.specs.Prelude.{◌≡◌};

use crate::board::asking::try_ask;
use crate::board::opening::READERS;
use crate::calls::{Call, Tried, try_line};
use crate::desk::{apply, version_of};
use crate::same::{are_same, show_same};
use adr_board::{Board, Desk, Editor, Naming, NewBoard, NoGate, Reader, Snapshot};
use adr_model::Tie;
use adr_object::Edit;
use adr_test_values::lines::word;
use adr_test_values::same::same_store;
use adr_test_values::telling::{tell_next, tell_ordinary, told};
use adr_value::Refusal;
use std::marker::Brand;
use std::sync::{Arc, Wait};
use std::thread::Threads;
use std::{io, mem};

/// Copies of the desk and of the last publication, from before a call: the desk's repeats it.
struct Twin {
    desk: Desk,
    last: Snapshot,
}

// A function of its own, so that callers that let a value go need not look into it.
impl Drop for Twin {
    fn drop(self) {
        let Twin { desk, last } = self;
        drop(desk);
        drop(last);
    }
}

impl Twin {
    fn of(desk: &Desk, last: &Snapshot) -> Result<Twin, Refusal> {
        Ok(Twin {
            desk: desk.copy()?,
            last: last.copy()?,
        })
    }

    /// Whether the publication is the one that was last.
    fn has_last(&self, last: &Snapshot) -> bool {
        last.number() == self.last.number() && are_same(last, &self.last)
    }

    /// Whether the desk is as the twin's, and the publication the one that was last.
    fn is_as(&self, desk: &Desk, last: &Snapshot) -> bool {
        self.has_last(last) && are_same(desk, &self.desk)
    }

    /// Whether the desk is as the twin's, whose open batch is closed now, and is what was published next.
    fn is_published(&self, desk: &Desk, last: &Snapshot) -> bool {
        last.number() == self.last.number().wrapping_add(1)
            && are_same(last, &self.desk)
            && are_same(desk, &self.desk)
    }

    /// Whether the last publication is the base of the desk, and all else as before.
    fn is_condensed(&self, desk: &Desk, last: &Snapshot) -> bool {
        same_store(desk.book().base().objects(), self.last.book().objects())
            && show_same(desk, &self.desk)
            && self.has_last(last)
    }

    /// Whether what was seen last is what was published last.
    fn is_seen(&self, seen: &Option<Arc<Snapshot>>) -> bool {
        match seen {
            Some(seen) => self.has_last(&**seen),
            None => false,
        }
    }

    /// Whether all is as the call leaves it.
    fn is_made(
        &self,
        desk: &Desk,
        last: &Snapshot,
        seen: &Option<Arc<Snapshot>>,
        call: &Call,
    ) -> bool {
        match call {
            Call::Publish => self.is_published(desk, last),
            Call::Condense => self.is_condensed(desk, last),
            Call::Look(_) => self.is_seen(seen) && self.is_as(desk, last),
            _ => self.is_as(desk, last),
        }
    }

    /// Goes on with copies of what is there now.
    fn renew(&mut self, desk: &Desk, last: &Snapshot) -> Result<(), Refusal> {
        let twin = Twin::of(desk, last)?;
        drop(mem::replace(self, twin));
        Ok(())
    }

    /// Makes the call, and answers what the board is to answer.
    fn make(&mut self, call: &Call) -> Result<u64, Refusal> {
        match call {
            Call::Apply(_, edit) => apply(&mut self.desk, edit),
            Call::Publish => {
                self.desk.seal()?;
                Ok(self.last.number().wrapping_add(1))
            }
            _ => Ok(self.last.version()),
        }
    }
}

/// A board, its twin, and what a reader saw last.
struct BoardSession<J: Naming> {
    editor: Editor<J>,
    readers: Vec<Reader<J>>,
    twin: Twin,
    seen: Option<Arc<Snapshot>>,
}

/// Makes the edit on the board, and answers the version.
///
/// # Errors
///
/// That of `Editor::apply`: the least of the edit's faults, or `NoMemory`; then all is as it was.
pub fn make<J: Naming>(editor: &mut Editor<J>, edit: Edit) -> Result<u64, Refusal> {
    version_of(editor.apply(edit))
}

fn apply_with<J: Naming, R: Threads + Sync>(
    rt: &R,
    editor: &mut Editor<J>,
    workers: usize,
    edit: &Edit,
) -> Result<u64, Refusal> {
    let edit = edit.copy()?;
    match workers {
        0 => make(editor, edit),
        _ => version_of(editor.apply_with(rt, workers, &NoGate, edit)),
    }
}

/// Publishes, and answers the publication's number, from 1 on.
///
/// # Errors
///
/// That of `Editor::publish`: `Full` after the last number, else `NoMemory`; then all is as it was.
pub fn publish<J: Naming, R: Wait>(rt: &R, editor: &mut Editor<J>) -> Result<u64, Refusal> {
    match editor.publish(rt) {
        Ok(published) => Ok(published.number),
        Err(refusal) => Err(refusal),
    }
}

/// Lets the reader look, keeps what it sees, and answers the version of that.
fn look<J: Naming>(
    readers: &mut [Reader<J>],
    seen: &mut Option<Arc<Snapshot>>,
    place: usize,
) -> Result<u64, Refusal> {
    let Some(reader) = readers.get_mut(place) else {
        return Err(Refusal::BadLine);
    };
    let look = reader.look()?;
    let version = look.version();
    drop(mem::replace(seen, Some(look)));
    Ok(version)
}

/// Tells the reader which publication is the last, and answers that one's version.
fn tell<J: Naming>(
    editor: &Editor<J>,
    readers: &mut [Reader<J>],
    place: usize,
) -> Result<u64, Refusal> {
    let Some(reader) = readers.get_mut(place) else {
        return Err(Refusal::BadLine);
    };
    reader.learn(&editor.tell());
    Ok(editor.last().version())
}

/// The refusal of a look by each reader, or the number of a publication that is still seen.
fn look_in_vain<J: Naming>(readers: &mut [Reader<J>]) -> Result<u64, Refusal> {
    for reader in readers.iter_mut() {
        match reader.look() {
            Err(Refusal::NoRuntime) => {}
            Err(refusal) => return Err(refusal),
            Ok(seen) => return Ok(seen.number()),
        }
    }
    Err(Refusal::NoRuntime)
}

impl<J: Naming> BoardSession<J> {
    /// Ends the board, and answers what its readers see after that.
    fn end<R: Wait>(self, rt: &R) -> Result<u64, Refusal> {
        let BoardSession {
            editor,
            mut readers,
            twin,
            seen,
        } = self;
        drop(twin);
        drop(seen);
        editor.close(rt);
        let seen = look_in_vain(readers.as_mut_slice());
        drop(readers);
        seen
    }
}

impl<J: Naming> Tried for BoardSession<J> {
    fn prepare(&mut self, _call: &Call) -> Result<(), Refusal> {
        self.twin.renew(self.editor.desk(), &**self.editor.last())
    }

    fn make<R: AllocGlobal + Wait + Threads + Sync>(
        &mut self,
        rt: &R,
        call: &Call,
    ) -> Result<u64, Refusal> {
        match call {
            Call::Apply(workers, edit) => apply_with(rt, &mut self.editor, *workers, edit),
            Call::Publish => publish(rt, &mut self.editor),
            Call::Condense => self.editor.condense(),
            Call::Look(place) => look(self.readers.as_mut_slice(), &mut self.seen, *place),
            Call::Tell(place) => tell(&self.editor, self.readers.as_mut_slice(), *place),
            _ => Err(Refusal::BadLine),
        }
    }

    fn repeat(&mut self, call: &Call) -> Result<u64, Refusal> {
        self.twin.make(call)
    }

    fn is_left(&self, call: &Call, is_made: bool) -> bool {
        let (desk, last) = (self.editor.desk(), &**self.editor.last());
        if is_made {
            self.twin.is_made(desk, last, &self.seen, call)
        } else {
            self.twin.is_as(desk, last)
        }
    }
}

/// What has publications that can be asked.
trait Questioned {
    /// The last publication.
    fn last(&self) -> &Snapshot;

    /// What a reader saw last.
    fn seen(&self) -> Option<&Snapshot>;
}

impl<J: Naming> Questioned for BoardSession<J> {
    fn last(&self) -> &Snapshot {
        &**self.editor.last()
    }

    fn seen(&self) -> Option<&Snapshot> {
        match &self.seen {
            Some(seen) => Some(&**seen),
            None => None,
        }
    }
}

/// Asks what a reader saw last the question, if one has looked.
fn try_seen<R: AllocGlobal + Print>(
    rt: &R,
    seen: Option<&Snapshot>,
    number: usize,
    question: &str,
) -> io::Result<()> {
    match seen {
        Some(seen) => try_ask(rt, seen, number, question),
        None => told(Err(Refusal::BadLine)),
    }
}

/// Makes the call of the line, or asks the last publication its question, or, behind `seen`, what a reader saw last.
fn try_one<B: Tried + Questioned, R: AllocGlobal + Print + Wait + Threads + Sync>(
    rt: &R,
    board: &mut B,
    number: usize,
    line: &str,
) -> io::Result<()> {
    match word(line) {
        ("at" | "list" | "roll" | "types", _) => try_ask(rt, board.last(), number, line),
        ("seen", question) => try_seen(rt, board.seen(), number, question),
        _ => try_line(rt, board, number, line),
    }
}

fn try_each<B: Tried + Questioned, R: AllocGlobal + Print + Wait + Threads + Sync>(
    rt: &R,
    board: &mut B,
    lines: &str,
) -> io::Result<()> {
    for (number, line) in lines.lines().enumerate() {
        try_one(rt, board, number, line)?;
    }
    Ok(())
}

fn tell_end<R: Print>(rt: &R, seen: Result<u64, Refusal>) -> io::Result<()> {
    tell_next(rt, "end: each reader looks")?;
    tell_ordinary(rt, seen)
}

/// Does what the lines say on the board, ends it, and tells what its readers see then. The lines are owned, as the
/// history of a board can't be named at a call that is given a `&str`.
fn on_board<J: Naming, R: AllocGlobal + Print + Wait + Threads + Sync>(
    rt: &R,
    board: NewBoard,
    tie: Tie,
    lines: String,
) -> Result<io::Result<()>, Refusal>
    requires history { board.diary.page.book ≡ J.history }
    requires tie { J.tie ≡ tie }
{
    let alloc = rt.alloc();
    let (editor, readers) = Board::open::<J, R>(rt, alloc, board, READERS, tie)?;
    let twin = match Twin::of(editor.desk(), &**editor.last()) {
        Ok(twin) => twin,
        Err(refusal) => {
            drop(readers);
            editor.close(rt);
            return Err(refusal);
        }
    };
    let mut session = BoardSession {
        editor,
        readers,
        twin,
        seen: None,
    };
    let tried = try_each(rt, &mut session, lines.as_str());
    let seen = session.end(rt);
    match tried {
        Ok(()) => Ok(tell_end(rt, seen)),
        Err(error) => Ok(Err(error)),
    }
}

/// Does what the lines say on a new board under that rule for ties.
pub(crate) fn try_lines<R: AllocGlobal + Print + Wait + Threads + Sync>(
    rt: &R,
    tie: Tie,
    lines: String,
) -> io::Result<()> {
    told(on_board::<Brand, R>(rt, NewBoard::new(), tie, lines))?
}
