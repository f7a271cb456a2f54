//! What an edit concerns.
ghost use Rattle.std.specs.Prelude.{◌≡◌, IfOk};
ghost use Rattle.adr_refusal.specs.Answer.{OnlyNoMemory};
ghost use Rattle.adr_repair.specs.Table.{is_event_of as the_is_event_of, is_resource_of as the_is_resource_of};
ghost use Rattle.adr_touches.specs.Edited.{concern_of as the_concern_of, concern_of_change, concern_of_create, concerns_event, concerns_resource, rows_of as the_rows_of};

use adr_book::Book;
use adr_object::{Edit, Id, Kind, Object};
use adr_value::Refusal;

/// The resources and the events that an edit may touch together.
#[derive(Drop)]
pub(crate) enum Concern {
    /// None.
    Nothing,
    /// All resources, and the events of the program with the id.
    Program(Id),
    /// All resources, and the event with the id.
    Event(Id),
    /// The resources of the ven with the id, and all events.
    Ven(Id),
    /// The resource with the id, and all events.
    Resource(Id),
}

/// Which spans are touched at a resource and an event that an edit concerns.
#[derive(Clone, Copy)]
pub(crate) enum Rows {
    /// Those of the event, where it applied before the edit.
    Before,
    /// Those of the event, where it applies after the edit.
    After,
    /// Those before the edit, and then those after it.
    Both,
    /// Those of the event, where it applies only before the edit or only after it.
    Differing,
}

/// What the change of an object concerns.
fn changed(object: &Object) -> Result<Concern, Refusal>
    ensures concern { IfOk result (λ concern. concern ≡ concern_of_change object.now) }
    ensures memory { OnlyNoMemory result }
{
    match object {
        Object::Program(program) => Ok(Concern::Program(program.get().id.copy()?)),
        Object::Event(event) => Ok(Concern::Event(event.get().id.copy()?)),
        Object::Ven(ven) => Ok(Concern::Ven(ven.get().id.copy()?)),
        Object::Resource(resource) => Ok(Concern::Resource(resource.get().id.copy()?)),
    }
}

/// What the creation of an object concerns.
fn created(object: &Object) -> Result<Concern, Refusal>
    ensures concern { IfOk result (λ concern. concern ≡ concern_of_create object.now) }
    ensures memory { OnlyNoMemory result }
{
    match object {
        Object::Event(event) => Ok(Concern::Event(event.get().id.copy()?)),
        Object::Resource(resource) => Ok(Concern::Resource(resource.get().id.copy()?)),
        Object::Program(_) | Object::Ven(_) => Ok(Concern::Nothing),
    }
}

/// What the edit concerns.
pub(crate) fn concern_of(edit: &Edit) -> Result<Concern, Refusal>
    ensures concern { IfOk result (λ concern. concern ≡ the_concern_of edit.now) }
    ensures memory { OnlyNoMemory result }
{
    match edit {
        Edit::Create(object) => created(object),
        Edit::Change(object) => changed(object),
        Edit::Remove(Kind::Event, id) => Ok(Concern::Event(id.copy()?)),
        Edit::Remove(Kind::Resource, id) => Ok(Concern::Resource(id.copy()?)),
        Edit::Remove(_, _) => Ok(Concern::Nothing),
    }
}

/// Which spans the edit touches.
pub(crate) fn rows_of(edit: &Edit) -> Rows
    ensures { result ≡ the_rows_of edit.now }
{
    match edit {
        Edit::Create(_) => Rows::After,
        Edit::Change(Object::Event(_)) => Rows::Both,
        Edit::Change(_) => Rows::Differing,
        Edit::Remove(_, _) => Rows::Before,
    }
}

/// Whether the event with the id is one of the program.
fn is_event_of(book: &Book, program: &Id, id: &Id) -> bool
    ensures { result ≡ the_is_event_of book.now.objects program.now id.now }
{
    match book.event(id) {
        Some(event) => program.text() == event.program_id.text(),
        None => false,
    }
}

/// Whether the resource with the id is one of the ven.
fn is_resource_of(book: &Book, ven: &Id, id: &Id) -> bool
    ensures { result ≡ the_is_resource_of book.now.objects ven.now id.now }
{
    match book.resource(id) {
        Some(resource) => ven.text() == resource.ven_id.text(),
        None => false,
    }
}

impl Concern {
    /// Whether the edit of the book concerns the resource with the id.
    pub(crate) fn has_resource(&self, old: &Book, id: &Id) -> bool
        ensures { result ≡ concerns_resource old.now.objects self.now id.now }
    {
        match self {
            Concern::Nothing => false,
            Concern::Program(_) | Concern::Event(_) => true,
            Concern::Ven(ven) => is_resource_of(old, ven, id),
            Concern::Resource(resource) => resource.text() == id.text(),
        }
    }

    /// Whether the edit of the book concerns the event with the id.
    pub(crate) fn has_event(&self, old: &Book, id: &Id) -> bool
        ensures { result ≡ concerns_event old.now.objects self.now id.now }
    {
        match self {
            Concern::Nothing => false,
            Concern::Program(program) => is_event_of(old, program, id),
            Concern::Event(event) => event.text() == id.text(),
            Concern::Ven(_) | Concern::Resource(_) => true,
        }
    }
}
