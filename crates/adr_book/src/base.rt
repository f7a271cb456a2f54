//! What the edits of a journal start from.
ghost use Rattle.std.specs.Prelude.{◌≡◌, ◌≤◌};
ghost use Rattle.adr_refusal.specs.Copy.{IsCopyOf};
ghost use Rattle.adr_model.specs.Book.{empty};
ghost use Rattle.adr_model.specs.Edits.{full_at};

use adr_store::{Shared, Store};
use adr_value::Refusal;
use adr_value::limits::{MOST_EDITS, MOST_VERSION};
use std::alloc::Global;
use std::marker::Model;

/// The objects that a journal starts from, which copies share.
pub struct Base {
    objects: Option<Shared<Store>>,
    nothing: Store,
    alloc: Global,
}

impl Drop for Base {
    fn drop(self) {
        let Base {
            objects,
            nothing,
            alloc: _,
        } = self;
        drop(objects);
        drop(nothing);
    }
}

impl Model for Base {
    ghost use Rattle.std.specs.Prelude.{◌≡◌};
    ghost use Rattle.std.specs.Option.{unwrap_or};
    ghost use Rattle.adr_model.specs.Book.{Book, empty};

    ghost Value = { Book };

    // With no objects of its own it is empty.
    ghost view = { λ b. unwrap_or b.objects empty };

    ghost invariant = { λ b. b.nothing ≡ empty };
}

impl Base {
    /// No objects, at version 0.
    pub(crate) fn new(alloc: Global) -> Base
        ensures { result ≡ empty }
    {
        Base {
            objects: None,
            nothing: Store::new(alloc),
            alloc,
        }
    }

    /// The objects as a base. `NoMemory` where there is no room to share them.
    pub(crate) fn of(alloc: Global, objects: Store) -> Result<Base, Refusal>
        ensures { IsCopyOf result objects }
    {
        Ok(Base {
            objects: Some(Shared::new(alloc, objects)?),
            nothing: Store::new(alloc),
            alloc,
        })
    }

    /// The number of edits that led to the base.
    pub fn version(&self) -> u64
        ensures value { result ≡ self.now.version }
        ensures bound { result ≤ MOST_VERSION }
    {
        self.objects().version()
    }

    /// Its objects.
    pub fn objects(&self) -> &Store
        ensures { result.now ≡ self.now }
    {
        match &self.objects {
            Some(objects) => objects.get(),
            None => &self.nothing,
        }
    }

    /// The version at which a book over this base is full.
    pub(crate) fn full_at(&self) -> u64
        ensures { result ≡ full_at self.now.version }
    {
        (self.version() + MOST_EDITS).min(MOST_VERSION)
    }

    /// A copy that shares its objects. `NoMemory` only where the count of its owners is full.
    pub(crate) fn copy(&self) -> Result<Base, Refusal>
        ensures { IsCopyOf result self.now }
    {
        let objects = match &self.objects {
            Some(objects) => Some(objects.copy()?),
            None => None,
        };
        Ok(Base {
            objects,
            nothing: Store::new(self.alloc),
            alloc: self.alloc,
        })
    }
}
