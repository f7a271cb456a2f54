//! The calls of a desk.
use crate::book::{closed_batches, is_closed};
use crate::calls::{Call, Tried, try_lines};
use crate::same::{are_same, same_of_id};
use adr_desk::{Desk, NoGate, Receipt};
use adr_model::Tie;
use adr_object::Edit;
use adr_test_values::same::{edited_id, same_by_id};
use adr_test_values::telling::{tell_next, tell_ordinary, tell_want, told};
use adr_value::Refusal;
use std::alloc::Global;
use std::sync::Wait;
use std::thread::Threads;
use std::{io, mem};

/// A desk, its twin, for which the same calls are made once those of the desk have answered, and the edits so far.
struct Desks {
    desk: Desk,
    twin: Desk,
    made: Vec<Edit>,
}

// A function of its own, so that callers that let a value go need not look into it.
impl Drop for Desks {
    fn drop(self) {
        let Desks { desk, twin, made } = self;
        drop(desk);
        drop(twin);
        drop(made);
    }
}

/// The version that the receipt tells.
pub(crate) fn version_of(answer: Result<Receipt, Refusal>) -> Result<u64, Refusal> {
    let receipt = answer?;
    let version = receipt.version;
    drop(receipt);
    Ok(version)
}

/// Makes a copy of the edit on the desk.
pub(crate) fn apply(desk: &mut Desk, edit: &Edit) -> Result<u64, Refusal> {
    let edit = edit.copy()?;
    version_of(desk.apply(edit))
}

fn apply_with<R: Threads + Sync>(
    rt: &R,
    desk: &mut Desk,
    workers: usize,
    edit: &Edit,
) -> Result<u64, Refusal> {
    let edit = edit.copy()?;
    version_of(desk.apply_with(rt, workers, &NoGate, edit))
}

fn seal(desk: &mut Desk) -> Result<u64, Refusal> {
    desk.seal()?;
    Ok(closed_batches(desk.book()))
}

/// Lets the desk go for the other, and answers its version.
fn go_on_with(desk: &mut Desk, other: Desk) -> u64 {
    drop(mem::replace(desk, other));
    desk.book().version()
}

fn go_on_with_a_copy(desk: &mut Desk) -> Result<u64, Refusal> {
    let copy = desk.copy()?;
    Ok(go_on_with(desk, copy))
}

fn copies(alloc: Global, edits: &[Edit]) -> Result<Vec<Edit>, Refusal> {
    let mut copies = Vec::new(alloc);
    for edit in edits {
        let copy = edit.copy()?;
        copies.push(copy)?;
    }
    Ok(copies)
}

/// Goes on with a desk that is loaded with the edits, where no batch was closed.
fn load<R: Threads + Sync>(
    rt: &R,
    alloc: Global,
    desk: &mut Desk,
    edits: &[Edit],
) -> Result<u64, Refusal> {
    let edits = copies(alloc, edits)?;
    let (loaded, answers) = Desk::load(rt, alloc, edits, desk.tie())?;
    drop(answers);
    Ok(go_on_with(desk, loaded))
}

/// Makes the objects of the desk its base, where no batch is open.
fn condense(desk: &mut Desk) -> Result<u64, Refusal> {
    if !is_closed(desk.book()) {
        return Err(Refusal::BadLine);
    }
    let at = desk.book().copy()?;
    let version = desk.condense(&at);
    drop(at);
    version
}

/// Whether both have the same book and the same timelines, under one rule for ties.
fn same_desk(a: &Desk, b: &Desk) -> bool {
    are_same(a, b) && a.tie() == b.tie()
}

/// Whether both have the same under the id of the edit, which may not be there.
fn same_beside(a: &Desk, b: &Desk, edit: &Edit) -> bool {
    let id = edited_id(edit);
    same_by_id(a.book().objects(), b.book().objects(), id) && same_of_id(a, b, id)
}

impl Tried for Desks {
    fn prepare(&mut self, call: &Call) -> Result<(), Refusal> {
        match call {
            Call::Apply(_, edit) => {
                let copy = edit.copy()?;
                self.made.push(copy)?;
                Ok(())
            }
            Call::Condense => {
                self.desk.seal()?;
                self.twin.seal()
            }
            _ => Ok(()),
        }
    }

    fn make<R: AllocGlobal + Wait + Threads + Sync>(
        &mut self,
        rt: &R,
        call: &Call,
    ) -> Result<u64, Refusal> {
        match call {
            Call::Apply(0, edit) => apply(&mut self.desk, edit),
            Call::Apply(workers, edit) => apply_with(rt, &mut self.desk, *workers, edit),
            Call::Seal => seal(&mut self.desk),
            Call::Copy => go_on_with_a_copy(&mut self.desk),
            Call::Load => load(rt, rt.alloc(), &mut self.desk, self.made.as_slice()),
            Call::Condense => condense(&mut self.desk),
            _ => Err(Refusal::BadLine),
        }
    }

    fn repeat(&mut self, call: &Call) -> Result<u64, Refusal> {
        match call {
            Call::Apply(_, edit) => apply(&mut self.twin, edit),
            Call::Seal => seal(&mut self.twin),
            Call::Condense => condense(&mut self.twin),
            _ => Ok(self.twin.book().version()),
        }
    }

    fn is_left(&self, call: &Call, _is_made: bool) -> bool {
        let is_same_beside = match call {
            Call::Apply(_, edit) => same_beside(&self.desk, &self.twin, edit),
            _ => true,
        };
        is_same_beside && same_desk(&self.desk, &self.twin)
    }
}

impl Desks {
    fn of(alloc: Global, desk: Desk) -> Result<Desks, Refusal> {
        let twin = Desk::new(alloc, desk.tie())?;
        Ok(Desks {
            desk,
            twin,
            made: Vec::new(alloc),
        })
    }
}

/// A new desk, made again where there was no memory for the first.
fn try_new<R: AllocGlobal + Print>(rt: &R, tie: Tie) -> io::Result<Desk> {
    tell_next(rt, "new: version 0")?;
    match Desk::new(rt.alloc(), tie) {
        Err(Refusal::NoMemory) => {
            tell_want(rt)?;
            told(Desk::new(rt.alloc(), tie))
        }
        desk => told(desk),
    }
}

/// Makes the calls of the lines, of a new desk under that rule for ties.
pub(crate) fn try_desk<R: AllocGlobal + Print + Wait + Threads + Sync>(
    rt: &R,
    tie: Tie,
    lines: &str,
) -> io::Result<()> {
    let desk = try_new(rt, tie)?;
    tell_ordinary(rt, Ok(desk.book().version()))?;
    let mut desks = told(Desks::of(rt.alloc(), desk))?;
    let tried = try_lines(rt, &mut desks, lines);
    drop(desks);
    tried
}
