//! The resources in order of creation, and how many name each ven.
ghost use Rattle.std.specs.Prelude.{◌≡◌, ◌++◌, ◌∷◌, [], ◌<◌, not, filter, length, slice_get, is_some, IsSome, IfSome, None};
ghost use Rattle.std.specs.List.{list_any};
ghost use Rattle.std.specs.Option.{option_copied};
ghost use Rattle.std.specs.Str.{bytes_eq};
ghost use Rattle.adr_refusal.specs.Copy.{IsCopyOf};
ghost use Rattle.adr_model.specs.Edits.{put_at};
ghost use Rattle.adr_store.specs.Table.{find_by};

use crate::table::Table;
use crate::tally::Tally;
use adr_object::{Id, IdText, Resource};
use adr_shared::Shared;
use adr_value::Refusal;
use adr_value::limits::MOST_RESOURCES;
use std::alloc::Global;
use std::marker::Model;

/// The resources in order of creation. No edit changes them: it answers new ones, which share with the old all but some
/// paths.
#[derive(Drop)]
pub(crate) struct Resources {
    table: Table<Shared<Resource>>,
    owners: Tally,
    alloc: Global,
}

impl Model for Resources {
    ghost use Rattle.std.specs.Prelude.{List};
    ghost use Rattle.adr_object.specs.declared.party.Resource.{Resource as OneResource};
    ghost use Rattle.adr_store.specs.Numbers.{IsOwned};

    ghost Value = { List OneResource };

    ghost view = { λ r. r.table };

    ghost invariant = { λ r. IsOwned r.table r.owners.counts };
}

impl Resources {
    pub(crate) fn new(alloc: Global) -> Resources
        ensures { result ≡ [] }
    {
        Resources {
            table: Table::new(alloc),
            owners: Tally::new(),
            alloc,
        }
    }

    pub(crate) fn len(&self) -> usize
        ensures { result ≡ length self.now }
    {
        self.table.len()
    }

    pub(crate) fn get(&self, id: &Id) -> Option<&Resource>
        ensures { option_copied result ≡ find_by (λ r. r.id) self.now id.now }
    {
        match self.table.get(id) {
            Some(resource) => Some(resource.get()),
            None => None,
        }
    }

    pub(crate) fn at(&self, place: usize) -> Option<&Resource>
        ensures { option_copied result ≡ slice_get self.now place }
    {
        match self.table.at(place) {
            Some(resource) => Some(resource.get()),
            None => None,
        }
    }

    /// Whether a resource names the ven.
    pub(crate) fn is_owner(&self, id: &Id) -> bool
        ensures { result ≡ list_any (λ r. bytes_eq id.now r.ven_id) self.now }
    {
        0 < self.owners.count(id)
    }

    /// The place of the resource with the id.
    pub(crate) fn place(&self, id: IdText<'_>) -> Option<usize>
        ensures found { is_some result ≡ is_some (find_by (λ r. r.id) self.now id.entry) }
        ensures value { IfSome result (λ place. slice_get self.now place ≡ find_by (λ r. r.id) self.now id.entry) }
    {
        self.table.place(id)
    }

    /// The resources with one more, which goes last.
    pub(crate) fn with_new(&self, resource: Shared<Resource>) -> Result<Resources, Refusal>
        requires new { find_by (λ r. r.id) self.now resource.id ≡ None }
        requires few { length self.now < MOST_RESOURCES }
        ensures { IsCopyOf result (self.now ++ resource ∷ []) }
    {
        Ok(Resources {
            owners: self.owners.with(self.alloc, &resource.get().ven_id)?,
            table: self.table.with_new(resource)?,
            alloc: self.alloc,
        })
    }

    /// The resources with this one in the place of the one with its id.
    pub(crate) fn with_changed(&self, resource: Shared<Resource>) -> Result<Resources, Refusal>
        requires there { IsSome (find_by (λ r. r.id) self.now resource.id) }
        ensures { IsCopyOf result (put_at (λ r. bytes_eq resource.id r.id) resource self.now) }
    {
        let Some(old) = self.table.get(&resource.get().id) else {
            unreachable!();
        };
        let less = self.owners.without(self.alloc, &old.get().ven_id)?;
        Ok(Resources {
            owners: less.with(self.alloc, &resource.get().ven_id)?,
            table: self.table.with_changed(resource)?,
            alloc: self.alloc,
        })
    }

    /// The resources without the one with the id; those after it move up.
    pub(crate) fn without(&self, id: &Id) -> Result<Resources, Refusal>
        ensures { IsCopyOf result (filter (λ r. not (bytes_eq id.now r.id)) self.now) }
    {
        let Some(old) = self.table.get(id) else {
            return self.copy();
        };
        Ok(Resources {
            owners: self.owners.without(self.alloc, &old.get().ven_id)?,
            table: self.table.without(id)?,
            alloc: self.alloc,
        })
    }

    /// A copy that shares their memory, whatever their number.
    pub(crate) fn copy(&self) -> Result<Resources, Refusal>
        ensures { IsCopyOf result self.now }
    {
        Ok(Resources {
            table: self.table.copy()?,
            owners: self.owners.copy()?,
            alloc: self.alloc,
        })
    }
}
