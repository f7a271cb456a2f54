//! Whom events are for, as one value that follows the edits.
ghost use Rattle.std.specs.Prelude.{◌≡◌, map, Some, IfOk, IsOk, OnOk, OnErr};
ghost use Rattle.adr_refusal.specs.Answer.{OnlyNoMemory};
ghost use Rattle.adr_refusal.specs.Copy.{IsCopyOf};
ghost use Rattle.adr_object.specs.declared.object.Edit.TheVariants.{Create, Change, Remove};
ghost use Rattle.adr_model.specs.Book.{Book, empty, ven_by};
ghost use Rattle.adr_model.specs.Edits.{made, step};
ghost use Rattle.adr_model.specs.Whole.{IsWhole};
ghost use Rattle.adr_audience.specs.Asks.{applying_writes, asked_keys};
ghost use Rattle.adr_audience.specs.Keys.{AreKeysOf};
ghost use Rattle.adr_audience.specs.Laws.{applying_places};
ghost use Rattle.adr_audience.specs.Offers.{offers};
ghost use Rattle.adr_audience.specs.Rows.{places_of_ven as the_places_of_ven};

use crate::asked::Asked;
use crate::candidates::{candidates, numbers_at};
use crate::event_rows::{add_event, asks_of, follow_event, follow_program, remove_event};
use crate::query::places_for;
use crate::resource_keys::offered_keys;
use crate::resource_rows::{add_resource, follow_resource, follow_ven, offers_of, remove_resource};
use crate::vens::places_of_ven;
use adr_keys::KeyIndex;
use adr_object::{Edit, Event, Id, Kind, Object, Program, Resource, Ven};
use adr_store::Store;
use adr_value::Refusal;
use std::alloc::Global;
use std::marker::Model;

/// What the resources of a book offer and what its events ask for, each in order of creation, with an index from each
/// key to the places that have it. Contracts see the rows of keys.
pub struct Audiences {
    resources: KeyIndex,
    events: KeyIndex,
    alloc: Global,
}

// A function of its own, so that callers that let a value go need not look into it.
impl Drop for Audiences {
    fn drop(self) {
        let Audiences {
            resources,
            events,
            alloc: _,
        } = self;
        drop(resources);
        drop(events);
    }
}

impl Model for Audiences {
    ghost use Rattle.adr_audience.specs.Keys.{Keys};

    ghost Value = { Keys };

    ghost view = { λ a. record { offers = a.resources; asks = a.events } };
}

impl Audiences {
    /// No resources and no events.
    pub fn new(alloc: Global) -> Audiences
        ensures { AreKeysOf empty result }
    {
        Audiences {
            resources: KeyIndex::new(alloc),
            events: KeyIndex::new(alloc),
            alloc,
        }
    }

    /// What the resources of the store offer and what its events ask for. Cost: all resources and all events.
    ///
    /// # Errors
    ///
    /// `NoMemory` where there is no room for it.
    pub fn of(alloc: Global, store: &Store) -> Result<Audiences, Refusal>
        ensures keys { IfOk result (AreKeysOf store.now) }
        ensures refusal { OnlyNoMemory result }
    {
        Ok(Audiences {
            resources: offers_of(alloc, store)?,
            events: asks_of(alloc, store)?,
            alloc,
        })
    }

    /// The places of the resources that an event of the program is for, in order of creation.
    ///
    /// Cost: a look-up for each value that is asked for, and a pass over the words of its set, a word for 64 places.
    ///
    /// # Errors
    ///
    /// `NoMemory` where there is no room for them.
    pub fn resources_for(&self, event: &Event, program: &Program) -> Result<Vec<usize>, Refusal>
        ensures places { (book : Book) → IsWhole book → AreKeysOf book self.now → IfOk result (λ places. places.items ≡ applying_places book event.now program.now) }
        ensures refusal { OnlyNoMemory result }
    {
        places_for(&self.resources, self.alloc, event, program)
    }

    /// The places of the resources of the ven, which is the store's, in order of creation.
    ///
    /// Cost: a look-up for its name, a pass over the words of a set, a word for 64 places, and a look-up for each
    /// resource of a ven of that name.
    ///
    /// # Errors
    ///
    /// `NoMemory` where there is no room for them.
    pub fn places_of_ven(&self, store: &Store, ven: &Ven) -> Result<Vec<usize>, Refusal>
        ensures places { AreKeysOf store.now self.now → ven_by store.now ven.now.id ≡ Some ven.now → IfOk result (λ places. places.items ≡ the_places_of_ven store.now ven.now.id) }
        ensures refusal { OnlyNoMemory result }
    {
        places_of_ven(&self.resources, self.alloc, store, ven)
    }

    /// What the resource of the ven offers of the keys that events ask for.
    ///
    /// Cost: a look-up for each key of the resource.
    ///
    /// # Errors
    ///
    /// `NoMemory` where there is no room for its keys.
    pub fn asked(&self, resource: &Resource, ven: &Ven) -> Result<Asked, Refusal>
        ensures { IsCopyOf result (asked_keys self.now.asks (offers resource.now ven.now)) }
    {
        let keys = offered_keys(self.alloc, resource, ven)?;
        Ok(Asked::of(&self.events, keys))
    }

    /// The numbers of the writes of the events of the store that apply to the resource of the ven, in order of
    /// creation. `asked` is what `asked` answers for the resource.
    ///
    /// Cost: a look-up for each of these keys, and a judgment for each event that asks for one of them, or for no key.
    ///
    /// # Errors
    ///
    /// `NoMemory` where there is no room for them.
    pub fn numbers_for(
        &self,
        store: &Store,
        asked: &Asked,
        resource: &Resource,
        ven: &Ven,
    ) -> Result<Vec<u64>, Refusal>
        requires asked { asked.now ≡ asked_keys self.now.asks (offers resource.now ven.now) }
        ensures numbers { AreKeysOf store.now self.now → IfOk result (λ numbers. numbers.items ≡ map (λ w. w.written) (applying_writes store.now resource.now ven.now)) }
        ensures refusal { OnlyNoMemory result }
    {
        let places = candidates(&self.events, self.alloc, asked.keys())?;
        let numbers = numbers_at(self.alloc, store, resource, ven, &places)?;
        Ok(numbers)
    }

    /// Follows an edit that is accepted: the rows become those of the book with the edit made. `store` has the objects
    /// before the edit.
    ///
    /// Cost: a look-up for each key of the resource or event that the edit names, before and after, and the words of
    /// all sets where one goes; of each of its resources for a ven that changes, and of each of its events for a
    /// program. Then each row is gone over too, and looked up are all events, or the resources of each ven that has
    /// the name that the ven had. Programs and vens that come or go change no row.
    ///
    /// # Errors
    ///
    /// `NoMemory` where there is no room for the new rows; then the rows are as they were.
    pub fn follow(&mut self, store: &Store, edit: &Edit) -> Result<(), Refusal>
        requires keys { AreKeysOf store.now self.old }
        requires whole { IsWhole store.now }
        requires accepted { IsOk (step store.now edit.now) }
        ensures ok { OnOk result (AreKeysOf (made store.now edit.now) self.new) }
        ensures err { OnErr result (self.new ≡ self.old) }
        ensures refusal { OnlyNoMemory result }
    {
        match edit {
            Edit::Create(object) => self.follow_created(store, object),
            Edit::Change(object) => self.follow_changed(store, object),
            Edit::Remove(kind, id) => {
                self.follow_removed(store, *kind, id);
                Ok(())
            }
        }
    }

    fn follow_created(&mut self, store: &Store, object: &Object) -> Result<(), Refusal>
        requires keys { AreKeysOf store.now self.old }
        requires whole { IsWhole store.now }
        requires accepted { IsOk (step store.now (Create object.now)) }
        ensures ok { OnOk result (AreKeysOf (made store.now (Create object.now)) self.new) }
        ensures err { OnErr result (self.new ≡ self.old) }
        ensures refusal { OnlyNoMemory result }
    {
        match object {
            Object::Program(_) => Ok(()),
            Object::Event(event) => add_event(&mut self.events, self.alloc, store, event.get()),
            Object::Ven(_) => Ok(()),
            Object::Resource(resource) => {
                add_resource(&mut self.resources, self.alloc, store, resource.get())
            }
        }
    }

    fn follow_changed(&mut self, store: &Store, object: &Object) -> Result<(), Refusal>
        requires keys { AreKeysOf store.now self.old }
        requires whole { IsWhole store.now }
        requires accepted { IsOk (step store.now (Change object.now)) }
        ensures ok { OnOk result (AreKeysOf (made store.now (Change object.now)) self.new) }
        ensures err { OnErr result (self.new ≡ self.old) }
        ensures refusal { OnlyNoMemory result }
    {
        match object {
            Object::Program(program) => {
                follow_program(&mut self.events, self.alloc, store, program.get())
            }
            Object::Event(event) => {
                follow_event(&mut self.events, self.alloc, store, event.get())
            }
            Object::Ven(ven) => follow_ven(&mut self.resources, self.alloc, store, ven.get()),
            Object::Resource(resource) => {
                follow_resource(&mut self.resources, self.alloc, store, resource.get())
            }
        }
    }

    fn follow_removed(&mut self, store: &Store, kind: Kind, id: &Id)
        requires keys { AreKeysOf store.now self.old }
        requires whole { IsWhole store.now }
        requires accepted { IsOk (step store.now (Remove kind id.now)) }
        ensures { AreKeysOf (made store.now (Remove kind id.now)) self.new }
    {
        match kind {
            Kind::Program => {}
            Kind::Event => remove_event(&mut self.events, store, id),
            Kind::Ven => {}
            Kind::Resource => remove_resource(&mut self.resources, store, id),
        }
    }
}
