//! The calls of a book.
ghost use Rattle.std.specs.Prelude.{◌≡◌, IsTrue};
ghost use Rattle.adr_book.specs.Ledger.{sealed_of};

use crate::calls::{Call, Tried, try_line};
use adr_book::{Book, Journal, SharedList, judge};
use adr_object::{Edit, Kind};
use adr_test_values::same::{edited_id, same_book, same_by_id};
use adr_test_values::telling::tell_next;
use adr_value::Refusal;
use std::alloc::Global;
use std::sync::Wait;
use std::thread::Threads;
use std::{io, mem};

/// A book, and its twin, for which the same calls are made once those of the book have answered.
struct Books {
    book: Book,
    twin: Book,
}

// A function of its own, so that callers that let a value go need not look into it.
impl Drop for Books {
    fn drop(self) {
        let Books { book, twin } = self;
        drop(book);
        drop(twin);
    }
}

/// How many closed batches a book has.
pub(crate) fn closed_batches(book: &Book) -> u64 {
    book.journal().closed().len() as u64
}

/// Whether no batch is open, and the closed ones lead to all that the book holds.
pub(crate) fn is_closed(book: &Book) -> bool
    ensures { IsTrue result → sealed_of book.now ≡ book.now.objects }
{
    book.journal().pending().len() == 0
}

fn judged(book: &Book, edit: &Edit) -> Result<u64, Refusal> {
    judge(book, edit)?;
    Ok(book.version())
}

fn apply(book: &mut Book, edit: &Edit) -> Result<u64, Refusal> {
    judge(book, edit)?;
    book.commit(edit.copy()?)
}

fn seal(book: &mut Book) -> Result<u64, Refusal> {
    book.seal()?;
    Ok(closed_batches(book))
}

fn go_on_with_a_copy(book: &mut Book) -> Result<u64, Refusal> {
    let copy = book.copy()?;
    drop(mem::replace(book, copy));
    Ok(book.version())
}

/// Makes the objects of the book its base, where no batch is open.
fn condense(book: &mut Book) -> Result<u64, Refusal> {
    if !is_closed(book) {
        return Err(Refusal::BadLine);
    }
    let at = book.copy()?;
    let version = book.condense(&at);
    drop(at);
    version
}

fn make(book: &mut Book, call: &Call) -> Result<u64, Refusal> {
    match call {
        Call::Apply(_, edit) => apply(book, edit),
        Call::Judge(edit) => judged(book, edit),
        Call::Seal => seal(book),
        Call::Copy => go_on_with_a_copy(book),
        Call::Condense => condense(book),
        _ => Err(Refusal::BadLine),
    }
}

impl Tried for Books {
    fn prepare(&mut self, call: &Call) -> Result<(), Refusal> {
        match call {
            Call::Condense => {
                self.book.seal()?;
                self.twin.seal()
            }
            _ => Ok(()),
        }
    }

    fn make<R: AllocGlobal + Wait + Threads + Sync>(
        &mut self,
        _rt: &R,
        call: &Call,
    ) -> Result<u64, Refusal> {
        make(&mut self.book, call)
    }

    fn repeat(&mut self, call: &Call) -> Result<u64, Refusal> {
        match call {
            Call::Copy => Ok(self.twin.version()),
            call => make(&mut self.twin, call),
        }
    }

    fn is_left(&self, call: &Call, _is_made: bool) -> bool {
        let is_same_beside = match call {
            Call::Apply(_, edit) | Call::Judge(edit) => {
                same_by_id(self.book.objects(), self.twin.objects(), edited_id(edit))
            }
            _ => true,
        };
        is_same_beside && same_book(&self.book, &self.twin)
    }
}

impl Books {
    fn new(alloc: Global) -> Books {
        Books {
            book: Book::new(alloc),
            twin: Book::new(alloc),
        }
    }
}

fn verb_of(edit: &Edit) -> &str {
    match edit {
        Edit::Create(_) => "create",
        Edit::Change(_) => "change",
        Edit::Remove(_, _) => "delete",
    }
}

/// The name of the kind of what the edit creates, changes or removes.
fn kind_of(edit: &Edit) -> &str {
    let kind = match edit {
        Edit::Create(object) | Edit::Change(object) => object.kind(),
        Edit::Remove(kind, _) => *kind,
    };
    match kind {
        Kind::Program => "program",
        Kind::Event => "event",
        Kind::Ven => "ven",
        Kind::Resource => "resource",
    }
}

fn tell_edit<R: Print>(rt: &R, edit: &Edit) -> io::Result<()> {
    let id = edited_id(edit).text();
    println!(rt; "    {} {} {id}", verb_of(edit), kind_of(edit))
}

fn tell_edits<R: Print>(rt: &R, edits: &SharedList<Edit>) -> io::Result<()> {
    for place in 0..edits.len() {
        if let Some(edit) = edits.at(place) {
            tell_edit(rt, edit)?;
        }
    }
    Ok(())
}

/// Tells the edits of each batch of the journal, the open one last.
fn tell_journal<R: Print>(rt: &R, journal: &Journal) -> io::Result<()> {
    for place in 0..journal.closed().len() {
        tell_next(rt, "  closed batch")?;
        if let Some(batch) = journal.closed().at(place) {
            tell_edits(rt, batch.edits())?;
        }
    }
    tell_next(rt, "  open batch")?;
    tell_edits(rt, journal.pending())
}

/// Makes the calls of the lines, of which `journal` tells the journal.
fn try_each<R: AllocGlobal + Print + Wait + Threads + Sync>(
    rt: &R,
    books: &mut Books,
    lines: &str,
) -> io::Result<()> {
    for (place, line) in lines.lines().enumerate() {
        match line {
            "journal" => tell_journal(rt, books.book.journal())?,
            _ => try_line(rt, books, place, line)?,
        }
    }
    Ok(())
}

/// Makes the calls of the lines, of a new book.
pub(crate) fn try_book<R: AllocGlobal + Print + Wait + Threads + Sync>(
    rt: &R,
    lines: &str,
) -> io::Result<()> {
    let mut books = Books::new(rt.alloc());
    let tried = try_each(rt, &mut books, lines);
    drop(books);
    tried
}
