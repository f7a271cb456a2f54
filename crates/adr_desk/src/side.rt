//! The event that an edit takes away and the one that it makes, with their entries.
ghost use Rattle.std.specs.Prelude.{◌≡◌, ◌+◌, Some, IfOk};
ghost use Rattle.adr_refusal.specs.Answer.{OnlyNoMemory};
ghost use Rattle.adr_model.specs.Book.{event_by};
ghost use Rattle.adr_lines.specs.Grouped.{written_event};
ghost use Rattle.adr_book.specs.Judged.{placed_by, placed_of};
ghost use Rattle.adr_desk.specs.Desk.{IsSideOf};
ghost use Rattle.adr_desk.specs.Edited.{come_of, gone_for, gone_of, made_of};

use adr_book::Book;
use adr_lines::{event_entries, placed_entries};
use adr_model::{Placed, Tie};
use adr_object::{Edit, Event, Id, Kind, Object};
use adr_schedule::Side;
use adr_value::Refusal;
use std::alloc::Global;

/// The event as the edit of that number wrote it.
fn side(alloc: Global, tie: Tie, event: &Event, written: u64) -> Result<Side, Refusal>
    ensures side { IfOk result (λ side. IsSideOf tie (Some (written_event event.now written)) (Some side)) }
    ensures refusal { OnlyNoMemory result }
{
    let entries = event_entries(alloc, tie, event, written)?;
    Ok(Side { written, entries })
}

/// The event with the id, if there is one.
fn side_by(alloc: Global, tie: Tie, book: &Book, id: &Id) -> Result<Option<Side>, Refusal>
    ensures side { IfOk result (λ side. IsSideOf tie (event_by book.now.objects id.now) side) }
    ensures refusal { OnlyNoMemory result }
{
    let Some(event) = book.event(id) else {
        return Ok(None);
    };
    let Some(written) = book.written(id) else {
        return Ok(None);
    };
    let side = side(alloc, tie, event, written)?;
    Ok(Some(side))
}

fn side_for(alloc: Global, tie: Tie, book: &Book, object: &Object) -> Result<Option<Side>, Refusal>
    ensures side { IfOk result (λ side. IsSideOf tie (gone_for book.now.objects object.now) side) }
    ensures refusal { OnlyNoMemory result }
{
    match object {
        Object::Event(event) => side_by(alloc, tie, book, &event.get().id),
        _ => Ok(None),
    }
}

/// The event that the edit takes away.
pub(crate) fn gone_side(
    alloc: Global,
    tie: Tie,
    book: &Book,
    edit: &Edit,
) -> Result<Option<Side>, Refusal>
    ensures side { IfOk result (λ side. IsSideOf tie (gone_of book.now.objects edit.now) side) }
    ensures refusal { OnlyNoMemory result }
{
    match edit {
        Edit::Create(_) => Ok(None),
        Edit::Change(object) => side_for(alloc, tie, book, object),
        Edit::Remove(Kind::Event, id) => side_by(alloc, tie, book, id),
        Edit::Remove(_, _) => Ok(None),
    }
}

/// The event that an edit makes of the object, whose intervals lie at those places.
fn made_side(
    alloc: Global,
    tie: Tie,
    book: &Book,
    object: &Object,
    places: &[Placed],
) -> Result<Option<Side>, Refusal>
    requires { places.now ≡ placed_of object.now }
    ensures side { IfOk result (λ side. IsSideOf tie (made_of book.now.objects object.now) side) }
    ensures refusal { OnlyNoMemory result }
{
    match object {
        Object::Event(event) => {
            let written = book.version() + 1;
            let entries = placed_entries(alloc, tie, event.get(), written, places)?;
            Ok(Some(Side { written, entries }))
        }
        _ => Ok(None),
    }
}

/// The event that the edit makes, whose intervals lie at those places.
pub(crate) fn come_side(
    alloc: Global,
    tie: Tie,
    book: &Book,
    edit: &Edit,
    places: &[Placed],
) -> Result<Option<Side>, Refusal>
    requires { places.now ≡ placed_by edit.now }
    ensures side { IfOk result (λ side. IsSideOf tie (come_of book.now.objects edit.now) side) }
    ensures refusal { OnlyNoMemory result }
{
    match edit {
        Edit::Create(object) => made_side(alloc, tie, book, object, places),
        Edit::Change(object) => made_side(alloc, tie, book, object, places),
        Edit::Remove(_, _) => Ok(None),
    }
}
