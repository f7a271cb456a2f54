//! The names of private types in edits and books.
ghost use Rattle.std.specs.Prelude.{◌≡◌, ℕ, [], Ok};
ghost use Rattle.std.specs.List.{flat_map};
ghost use Rattle.adr_object.specs.declared.object.Edit.{Edit as AnyEdit};
ghost use Rattle.adr_model.specs.Book.{Book, empty};
ghost use Rattle.adr_model.specs.Edits.{step_to};
ghost use Rattle.adr_board.specs.Types.{edit_names, event_names, interval_names, object_names, payload_names, ArePrivate, HasPrivateNames};

use adr_desk::Desk;
use adr_object::{Edit, Event, Interval, Object, Payload};
use adr_shared::SharedList;
use adr_value::PayloadType;

fn payload_has_private_names(payload: &Payload)
    ensures { ArePrivate (payload_names payload.now) }
{
    if let PayloadType::Private(name) = &payload.kind {
        let _name = name.as_str();
    }
}

fn interval_has_private_names(interval: &Interval)
    ensures { ArePrivate (interval_names interval.now) }
{
    for payload in interval.payloads.as_slice() {
        payload_has_private_names(payload);
    }
}

fn event_has_private_names(event: &Event)
    ensures { ArePrivate (event_names event.now) }
{
    for interval in event.intervals.as_slice() {
        interval_has_private_names(interval);
    }
}

fn object_has_private_names(object: &Object)
    ensures { ArePrivate (object_names object.now) }
{
    if let Object::Event(event) = object {
        event_has_private_names(event.get());
    }
}

/// The law of the names in an edit: no private type that it brings has a name of the table. Cost: its payloads.
pub(crate) fn has_private_names(edit: &Edit)
    ensures { ArePrivate (edit_names edit.now) }
{
    match edit {
        Edit::Create(object) => object_has_private_names(object),
        Edit::Change(object) => object_has_private_names(object),
        Edit::Remove(_, _) => {}
    }
}

/// The law of the names in books: an accepted edit that brings private types under names of their own alone leaves
/// those names alone in a book that has no others.
#[tactic(auto, using(crate::proofs::PrivateNames::step_private))]
pub(crate) fn names_stay_private()
    ensures { (full : ℕ) (old new : Book) (edit : AnyEdit) → HasPrivateNames old → ArePrivate (edit_names edit) → step_to full old edit ≡ Ok new → HasPrivateNames new }
{}

// Each edit of a batch brings private types under names of their own alone.
fn names_in(edits: &SharedList<Edit>)
    ensures { ArePrivate (flat_map edit_names edits.now) }
{
    for place in 0..edits.len() {
        let Some(edit) = edits.at(place) else {
            unreachable!();
        };
        has_private_names(edit);
    }
}

/// The law of the names in a new desk: one whose batches are all open has private types under names of their
/// own, as its edits have.
#[tactic(auto, using(crate::proofs::Named::first_batch_private))]
pub(crate) fn names_of_first_batch(desk: &Desk)
    requires base { desk.now.book.base ≡ empty }
    requires closed { desk.now.book.closed ≡ [] }
    ensures { HasPrivateNames desk.now.book.objects }
{
    let journal = desk.book().journal();
    names_stay_private();
    names_in(journal.pending());
}
