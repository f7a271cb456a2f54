//! A run of steps, one function for each kind.
ghost use Rattle.std.specs.Prelude.{◌≡◌, ◌≢◌, ◌+◌, ◌<◌, ◌≤◌, List, length, All, IfOk, OnOk, vec_len};
ghost use Rattle.std.specs.Arc.{arc_value};
ghost use mathlib.Core.List.{IsPrefix};
ghost use Rattle.adr_refusal.specs.declared.refusal.Refusal.TheVariants.{NoMemory};
ghost use Rattle.adr_model.specs.Machine.{start, State};
ghost use Rattle.adr_board.specs.Boards.{View};
ghost use Rattle.adr_board.specs.Publications.{publications_in};
ghost use Rattle.adr_board.specs.Replay.{AreSteps, IsOf, IsRun, IsStep, NamesReader, OnlyWant, reach};

use crate::board::{Board, Editor, NewBoard, Reader};
use crate::rule::Naming;
use crate::run_steps::{Shown, Step};
use crate::snapshot::Snapshot;
use adr_model::Tie;
use adr_object::Edit;
use adr_value::Refusal;
use std::alloc::Global;
use std::marker::Brand;
use std::sync::{Arc, Wait};

/// What a refusal shows, where it isn't want of memory.
fn refused(refusal: Refusal) -> Result<Shown, Refusal>
    ensures shown { IfOk result (λ shown. shown ≡ Shown.Refused refusal) }
    ensures fault { OnOk result (refusal ≢ NoMemory) }
    ensures want { OnlyWant result }
{
    if refusal == Refusal::NoMemory {
        return Err(refusal);
    }
    Ok(Shown::Refused(refusal))
}

#[tactic(auto, using(crate::proofs::Taken::edited, crate::proofs::Taken::edit_refused))]
fn apply<J: Naming>(editor: &mut Editor<J>, edit: Edit) -> Result<Shown, Refusal>
    ensures step { IfOk result (λ shown. (views : List View) → IsStep editor.old views (Step.Edit edit) shown editor.new views) }
    ensures want { OnlyWant result }
{
    match editor.apply(edit) {
        Ok(receipt) => {
            let version = receipt.version;
            drop(receipt);
            Ok(Shown::Done(version))
        }
        Err(refusal) => refused(refusal),
    }
}

#[tactic(auto, using(crate::proofs::Taken::publicized, crate::proofs::Taken::publication_refused))]
fn publish<J: Naming, R: Wait>(rt: &R, editor: &mut Editor<J>) -> Result<Shown, Refusal>
    ensures step { IfOk result (λ shown. (views : List View) → IsStep editor.old views Step.Publish shown editor.new views) }
    ensures want { OnlyWant result }
{
    let _last = editor.last();
    match editor.publish(rt) {
        Ok(published) => Ok(Shown::Published(published)),
        Err(refusal) => refused(refusal),
    }
}

#[tactic(auto, using(crate::proofs::Taken::based))]
fn condense<J: Naming>(editor: &mut Editor<J>) -> Result<Shown, Refusal>
    ensures step { IfOk result (λ shown. (views : List View) → IsStep editor.old views Step.Condense shown editor.new views) }
    ensures want { OnlyWant result }
{
    let version = editor.condense()?;
    Ok(Shown::Condensed(version))
}

/// Tells a reader of all publications.
fn inform<J: Naming>(editor: &Editor<J>, reader: &mut Reader<J>)
    ensures told { length editor.now.published ≤ reach reader.new }
    ensures kept { reach reader.old ≤ reach reader.new }
{
    let told = editor.tell();
    reader.learn(&told);
}

#[tactic(auto, using(crate::proofs::Taken::informed))]
fn tell<J: Naming>(editor: &Editor<J>, readers: &mut Vec<Reader<J>>, place: usize) -> Shown
    requires { place < vec_len readers.old }
    ensures step { IsStep editor.now readers.old.items (Step.Tell place) result editor.now readers.new.items }
    ensures count { vec_len readers.new ≡ vec_len readers.old }
{
    let _last = editor.last();
    inform(editor, &mut readers[place]);
    Shown::Told
}

/// Tells the reader of all publications and lets it look once more, so that it is known to have seen these and no
/// others.
#[tactic(auto, using(crate::proofs::Settled::all_seen))]
fn settle<J: Naming>(editor: &Editor<J>, reader: &mut Reader<J>) -> Result<(), Refusal>
    ensures seen { OnOk result (reader.new.seen ≡ editor.now.published) }
    ensures kept { OnOk result (IsPrefix reader.old.seen reader.new.seen) }
    ensures want { OnlyWant result }
{
    reader.learn(&editor.tell());
    let seen = reader.look()?;
    if seen.number() != editor.last().number() {
        return Err(Refusal::NoRuntime);
    }
    Ok(())
}

/// What the reader sees, which is known to be one of the publications so far.
#[tactic(auto, using(crate::proofs::Settled::seen_one, crate::proofs::Settled::seen_later))]
fn seen_by<J: Naming>(editor: &Editor<J>, reader: &mut Reader<J>) -> Result<Arc<Snapshot>, Refusal>
    ensures later { IfOk result (λ s. reach reader.old ≤ (arc_value s).number + 1) }
    ensures shown { IfOk result (λ s. IsOf editor.now.tie (publications_in editor.now.published) (arc_value s)) }
    ensures known { IfOk result (λ s. (arc_value s).number < reach reader.new) }
    ensures want { OnlyWant result }
{
    editor.editor_laws();
    let seen = reader.look()?;
    seen.snapshot_laws();
    settle(editor, reader)?;
    Ok(seen)
}

#[tactic(auto, using(crate::proofs::Taken::looked))]
fn look<J: Naming>(
    editor: &Editor<J>,
    readers: &mut Vec<Reader<J>>,
    place: usize,
) -> Result<Shown, Refusal>
    requires { place < vec_len readers.old }
    ensures step { IfOk result (λ shown. IsStep editor.now readers.old.items (Step.Look place) shown editor.now readers.new.items) }
    ensures count { vec_len readers.new ≡ vec_len readers.old }
    ensures want { OnlyWant result }
{
    let seen = seen_by(editor, &mut readers[place])?;
    Ok(Shown::Seen(seen))
}

fn take_step<J: Naming, R: Wait>(
    rt: &R,
    editor: &mut Editor<J>,
    readers: &mut Vec<Reader<J>>,
    step: Step,
) -> Result<Shown, Refusal>
    requires { NamesReader (vec_len readers.old) step }
    ensures step { IfOk result (λ shown. IsStep editor.old readers.old.items step shown editor.new readers.new.items) }
    ensures count { vec_len readers.new ≡ vec_len readers.old }
    ensures want { OnlyWant result }
{
    match step {
        Step::Edit(edit) => apply(editor, edit),
        Step::Publish => publish(rt, editor),
        Step::Condense => condense(editor),
        Step::Tell(place) => Ok(tell(editor, readers, place)),
        Step::Look(place) => look(editor, readers, place),
    }
}

#[tactic(auto, using(crate::proofs::Runs::leads_first, crate::proofs::Runs::leads_next, crate::proofs::Runs::leads_last))]
fn take_steps<J: Naming, R: Wait>(
    alloc: Global,
    rt: &R,
    editor: &mut Editor<J>,
    readers: &mut Vec<Reader<J>>,
    steps: Vec<Step>,
) -> Result<Vec<Shown>, Refusal>
    requires { All (NamesReader (vec_len readers.old)) steps.items }
    ensures steps { IfOk result (λ shown. AreSteps editor.old readers.old.items steps.items shown.items editor.new readers.new.items) }
    ensures want { OnlyWant result }
{
    let mut shown = Vec::new(alloc);
    for step in steps {
        let next = take_step(rt, editor, readers, step)?;
        shown.push(next)?;
    }
    Ok(shown)
}

#[tactic(auto, using(crate::proofs::Reached::newcomers_reached))]
fn replay_as<J: Naming, R: Wait>(
    rt: &R,
    alloc: Global,
    board: NewBoard,
    readers: usize,
    steps: Vec<Step>,
    tie: Tie,
) -> Result<Vec<Shown>, Refusal>
    requires history { board.diary.page.book ≡ J.history }
    requires tie { tie ≡ J.tie }
    requires readers { (0 < readers) × (readers ≤ 64) }
    requires named { All (NamesReader readers) steps.items }
    ensures run { IfOk result (λ shown. (end : State) × IsRun (start tie readers) steps.items shown.items end) }
    ensures want { OnlyWant result }
{
    match Board::open::<J, R>(rt, alloc, board, readers, tie) {
        Ok((mut editor, mut readers)) => {
            let shown = take_steps(alloc, rt, &mut editor, &mut readers, steps);
            editor.close(rt);
            shown
        }
        Err(Refusal::NoMemory) => Err(Refusal::NoMemory),
        Err(_) => Err(Refusal::NoRuntime),
    }
}

/// Takes the steps on a new board with so many readers, all on this thread, and answers what each of them shows.
///
/// A refused edit and a publication past the last are shown. It waits where `Editor::publish` does. Cost: that of the
/// calls, and a look more for each look.
///
/// # Errors
///
/// Want of memory ends the run with nothing but `NoMemory`, and a look that is refused, or a board that can't be
/// opened, with `NoRuntime`.
pub fn replay<R: Wait>(
    rt: &R,
    alloc: Global,
    readers: usize,
    steps: Vec<Step>,
    tie: Tie,
) -> Result<Vec<Shown>, Refusal>
    requires readers { (0 < readers) × (readers ≤ 64) }
    requires named { All (NamesReader readers) steps.items }
    ensures run { IfOk result (λ shown. (end : State) × IsRun (start tie readers) steps.items shown.items end) }
    ensures want { OnlyWant result }
{
    replay_as::<Brand, R>(rt, alloc, NewBoard::new(), readers, steps, tie)
}
