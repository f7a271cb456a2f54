//! The places of the resources to which the event of an edit applies, that which goes and that which comes.
ghost use Rattle.std.specs.Prelude.{◌≡◌, ◌≤◌, ℕ, length, slice_get, IfOk};
ghost use Rattle.adr_refusal.specs.Answer.{OnlyNoMemory};
ghost use Rattle.adr_object.specs.declared.party.Resource.{Resource as OneResource};
ghost use Rattle.adr_model.specs.Book.{event_by};
ghost use Rattle.adr_model.specs.Governor.{applies_to};
ghost use Rattle.adr_model.specs.Whole.{IsWhole};
ghost use Rattle.adr_audience.specs.Keys.{AreKeysOf};
ghost use Rattle.adr_lines.specs.Grouped.{written_event};
ghost use Rattle.adr_schedule.specs.Moves.{is_among};
ghost use Rattle.adr_regroup.specs.Compared.{StandOnce};
ghost use Rattle.adr_desk.specs.Edited.{come_of, gone_for, gone_of, made_of, ArePlacesOf};

use adr_audience::Audiences;
use adr_book::Book;
use adr_object::{Edit, Event, Id, Kind, Object};
use adr_value::Refusal;
use std::alloc::Global;

/// The places of the resources to which the event applies.
#[tactic(auto, using(crate::proofs::Joining::no_place_applies))]
fn places_for(
    alloc: Global,
    keys: &Audiences,
    book: &Book,
    event: &Event,
) -> Result<Vec<usize>, Refusal>
    requires whole { IsWhole book.now.objects }
    requires keys { AreKeysOf book.now.objects keys.now }
    ensures apply { IfOk result (λ places. (p : ℕ) (r : OneResource) (n : ℕ) → slice_get book.now.objects.resources p ≡ Some r → is_among places.items p ≡ applies_to book.now.objects r (written_event event.now n)) }
    ensures count { IfOk result (λ places. length places.items ≤ length book.now.objects.resources) }
    ensures once { IfOk result (λ places. StandOnce places.items (length book.now.objects.resources)) }
    ensures refusal { OnlyNoMemory result }
{
    match book.program(&event.program_id) {
        Some(program) => {
            let places = keys.resources_for(event, program)?;
            Ok(places)
        }
        None => Ok(Vec::new(alloc)),
    }
}

/// The places of the resources to which the event with the id applies.
fn places_by(alloc: Global, keys: &Audiences, book: &Book, id: &Id) -> Result<Vec<usize>, Refusal>
    requires whole { IsWhole book.now.objects }
    requires keys { AreKeysOf book.now.objects keys.now }
    ensures places { IfOk result (λ places. ArePlacesOf book.now.objects (event_by book.now.objects id.now) places.items) }
    ensures refusal { OnlyNoMemory result }
{
    match book.event(id) {
        Some(event) => {
            let places = places_for(alloc, keys, book, event)?;
            Ok(places)
        }
        None => Ok(Vec::new(alloc)),
    }
}

fn leaving_for(
    alloc: Global,
    keys: &Audiences,
    book: &Book,
    object: &Object,
) -> Result<Vec<usize>, Refusal>
    requires whole { IsWhole book.now.objects }
    requires keys { AreKeysOf book.now.objects keys.now }
    ensures places { IfOk result (λ places. ArePlacesOf book.now.objects (gone_for book.now.objects object.now) places.items) }
    ensures refusal { OnlyNoMemory result }
{
    match object {
        Object::Event(event) => places_by(alloc, keys, book, &event.get().id),
        _ => Ok(Vec::new(alloc)),
    }
}

/// The places of the resources to which the event that goes applies.
pub(crate) fn leaving(
    alloc: Global,
    keys: &Audiences,
    book: &Book,
    edit: &Edit,
) -> Result<Vec<usize>, Refusal>
    requires whole { IsWhole book.now.objects }
    requires keys { AreKeysOf book.now.objects keys.now }
    ensures places { IfOk result (λ places. ArePlacesOf book.now.objects (gone_of book.now.objects edit.now) places.items) }
    ensures refusal { OnlyNoMemory result }
{
    match edit {
        Edit::Create(_) => Ok(Vec::new(alloc)),
        Edit::Change(object) => leaving_for(alloc, keys, book, object),
        Edit::Remove(Kind::Event, id) => places_by(alloc, keys, book, id),
        Edit::Remove(_, _) => Ok(Vec::new(alloc)),
    }
}

fn joining_for(
    alloc: Global,
    keys: &Audiences,
    book: &Book,
    object: &Object,
) -> Result<Vec<usize>, Refusal>
    requires whole { IsWhole book.now.objects }
    requires keys { AreKeysOf book.now.objects keys.now }
    ensures places { IfOk result (λ places. ArePlacesOf book.now.objects (made_of book.now.objects object.now) places.items) }
    ensures refusal { OnlyNoMemory result }
{
    match object {
        Object::Event(event) => {
            let places = places_for(alloc, keys, book, event.get())?;
            Ok(places)
        }
        _ => Ok(Vec::new(alloc)),
    }
}

/// The places of the resources to which the event that comes applies.
pub(crate) fn joining(
    alloc: Global,
    keys: &Audiences,
    book: &Book,
    edit: &Edit,
) -> Result<Vec<usize>, Refusal>
    requires whole { IsWhole book.now.objects }
    requires keys { AreKeysOf book.now.objects keys.now }
    ensures places { IfOk result (λ places. ArePlacesOf book.now.objects (come_of book.now.objects edit.now) places.items) }
    ensures refusal { OnlyNoMemory result }
{
    match edit {
        Edit::Create(object) => joining_for(alloc, keys, book, object),
        Edit::Change(object) => joining_for(alloc, keys, book, object),
        Edit::Remove(_, _) => Ok(Vec::new(alloc)),
    }
}
