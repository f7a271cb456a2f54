//! Objects of any kind, and the edits of them.
ghost use Rattle.std.specs.Prelude.{◌≡◌};
ghost use Rattle.adr_refusal.specs.Copy.{IsCopyOf};
ghost use Rattle.adr_object.specs.Object.{kind_of, id_of};

use crate::event::Event;
use crate::id::Id;
use crate::party::{Program, Resource, Ven};
use adr_shared::Shared;
use adr_value::{Refusal, TryClone};

/// The kinds of object that a server holds.
#[derive(Clone, Copy, Debug, PartialEq, Eq)]
pub enum Kind {
    /// What groups events, and has targets for all of them.
    Program,
    /// Intervals in time for the resources that its targets match.
    Event,
    /// A client of the server, which may have resources.
    Ven,
    /// A device or site of a ven, which intervals govern.
    Resource,
}

/// An object of any kind. All its copies are one object, which stands in memory once.
#[derive(Drop)]
pub enum Object {
    /// One that events name by its id.
    Program(Shared<Program>),
    /// One that names its program by its id.
    Event(Shared<Event>),
    /// One that resources name by its id.
    Ven(Shared<Ven>),
    /// One that names its ven by its id.
    Resource(Shared<Resource>),
}

/// One change of what the server holds. A change puts a whole object in the place of the one with its id.
#[derive(Drop)]
pub enum Edit {
    /// Adds an object whose id none of its kind has; it goes last among them.
    Create(Object),
    /// Puts an object in the place of the one of its kind with its id.
    Change(Object),
    /// Takes out the one of that kind with that id, which no other object may name.
    Remove(Kind, Id),
}

impl Object {
    /// The object's kind.
    pub fn kind(&self) -> Kind
        ensures { result ≡ kind_of self.now }
    {
        match self {
            Object::Program(_) => Kind::Program,
            Object::Event(_) => Kind::Event,
            Object::Ven(_) => Kind::Ven,
            Object::Resource(_) => Kind::Resource,
        }
    }

    /// The object's id.
    pub fn id(&self) -> &Id
        ensures { result.now ≡ id_of self.now }
    {
        match self {
            Object::Program(program) => &program.get().id,
            Object::Event(event) => &event.get().id,
            Object::Ven(ven) => &ven.get().id,
            Object::Resource(resource) => &resource.get().id,
        }
    }

    /// A copy that is one object with this, and takes no growth.
    ///
    /// # Errors
    ///
    /// `NoMemory`, only where the count of its owners is full.
    pub fn copy(&self) -> Result<Object, Refusal>
        ensures { IsCopyOf result self.now }
    {
        match self {
            Object::Program(program) => Ok(Object::Program(program.copy()?)),
            Object::Event(event) => Ok(Object::Event(event.copy()?)),
            Object::Ven(ven) => Ok(Object::Ven(ven.copy()?)),
            Object::Resource(resource) => Ok(Object::Resource(resource.copy()?)),
        }
    }
}

impl Edit {
    /// A copy that shares the edit's object or its id, and takes no growth.
    ///
    /// # Errors
    ///
    /// `NoMemory`, only where the count of their owners is full.
    pub fn copy(&self) -> Result<Edit, Refusal>
        ensures { IsCopyOf result self.now }
    {
        match self {
            Edit::Create(object) => Ok(Edit::Create(object.copy()?)),
            Edit::Change(object) => Ok(Edit::Change(object.copy()?)),
            Edit::Remove(kind, id) => Ok(Edit::Remove(*kind, id.copy()?)),
        }
    }
}

impl TryClone for Object {
    fn try_clone(&self) -> Result<Object, Refusal> {
        self.copy()
    }
}

impl TryClone for Edit {
    fn try_clone(&self) -> Result<Edit, Refusal> {
        self.copy()
    }
}
