//! Programs, vens and their resources.
ghost use Rattle.adr_refusal.specs.Copy.{IsCopyOf};

use crate::event::Target;
use crate::id::Id;
use adr_value::{BoundedVec, Name, Refusal, TryClone};

/// What a group of events belongs to (OpenADR 3.0 Definition, program). Its targets bind all of its events.
pub struct Program {
    /// What edits and the program's events name it by.
    pub id: Id,
    /// What targets of the type `PROGRAM_NAME` ask for.
    pub program_name: Name,
    /// Which resources the program is for; an empty list is for all.
    pub targets: BoundedVec<Target, 64>,
}

// A function of its own, so that callers that let a value go need not look into it.
impl Drop for Program {
    fn drop(self) {
        let Program {
            id,
            program_name,
            targets,
        } = self;
        drop(id);
        drop(program_name);
        drop(targets);
    }
}

/// A client of the server (OpenADR 3.0 Definition, ven). Its targets count for all of its resources.
pub struct Ven {
    /// What edits and the ven's resources name it by.
    pub id: Id,
    /// What targets of the type `VEN_NAME` ask for.
    pub ven_name: Name,
    /// What the targets of events and programs find its resources by, beside the names.
    pub targets: BoundedVec<Target, 64>,
}

// A function of its own, so that callers that let a value go need not look into it.
impl Drop for Ven {
    fn drop(self) {
        let Ven {
            id,
            ven_name,
            targets,
        } = self;
        drop(id);
        drop(ven_name);
        drop(targets);
    }
}

/// A device or site of a ven (OpenADR 3.0 Definition, resource).
pub struct Resource {
    /// What edits and queries name the resource by.
    pub id: Id,
    /// What targets of the type `RESOURCE_NAME` ask for.
    pub resource_name: Name,
    /// Which ven the resource belongs to, whose targets count for it too.
    pub ven_id: Id,
    /// What the targets of events and programs find it by, beside the names.
    pub targets: BoundedVec<Target, 64>,
}

// A function of its own, so that callers that let a value go need not look into it.
impl Drop for Resource {
    fn drop(self) {
        let Resource {
            id,
            resource_name,
            ven_id,
            targets,
        } = self;
        drop(id);
        drop(resource_name);
        drop(ven_id);
        drop(targets);
    }
}

impl Program {
    /// A program equal to this one. Cost: a copy of all it has.
    ///
    /// # Errors
    ///
    /// `NoMemory` where there is no room for it.
    pub fn copy(&self) -> Result<Program, Refusal>
        ensures { IsCopyOf result self.now }
    {
        Ok(Program {
            id: self.id.copy()?,
            program_name: self.program_name.copy()?,
            targets: self.targets.copy()?,
        })
    }
}

impl TryClone for Program {
    fn try_clone(&self) -> Result<Program, Refusal> {
        self.copy()
    }
}

impl Ven {
    /// A ven equal to this one. Cost: a copy of all it has.
    ///
    /// # Errors
    ///
    /// `NoMemory` where there is no room for it.
    pub fn copy(&self) -> Result<Ven, Refusal>
        ensures { IsCopyOf result self.now }
    {
        Ok(Ven {
            id: self.id.copy()?,
            ven_name: self.ven_name.copy()?,
            targets: self.targets.copy()?,
        })
    }
}

impl TryClone for Ven {
    fn try_clone(&self) -> Result<Ven, Refusal> {
        self.copy()
    }
}

impl Resource {
    /// A resource equal to this one. Cost: a copy of all it has.
    ///
    /// # Errors
    ///
    /// `NoMemory` where there is no room for it.
    pub fn copy(&self) -> Result<Resource, Refusal>
        ensures { IsCopyOf result self.now }
    {
        Ok(Resource {
            id: self.id.copy()?,
            resource_name: self.resource_name.copy()?,
            ven_id: self.ven_id.copy()?,
            targets: self.targets.copy()?,
        })
    }
}

impl TryClone for Resource {
    fn try_clone(&self) -> Result<Resource, Refusal> {
        self.copy()
    }
}
