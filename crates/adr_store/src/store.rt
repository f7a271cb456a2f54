//! The objects of the four kinds.
ghost use Rattle.std.specs.Prelude.{◌≡◌, ◌+◌, ◌<◌, ◌≤◌, eqb, map, not, filter, length, slice_get, sum_by, is_some, IsOk, IsSome, IfSome, None, Ok, OnOk, OnErr};
ghost use Rattle.std.specs.List.{IsDistinct, list_any};
ghost use Rattle.std.specs.Option.{option_copied, option_map};
ghost use Rattle.std.specs.Str.{bytes_eq};
ghost use Rattle.adr_refusal.specs.Answer.{OnlyNoMemory};
ghost use Rattle.adr_refusal.specs.Copy.{IsCopyOf};
ghost use Rattle.adr_object.specs.declared.object.Object.TheVariants.{Program as program, Event as event, Ven as ven, Resource as resource};
ghost use Rattle.adr_object.specs.declared.object.Edit.TheVariants.{Create, Change, Remove};
ghost use Rattle.adr_model.specs.Book.{empty, program_by, ven_by, resource_by, event_by};
ghost use Rattle.adr_model.specs.Edits.{count_of, made, step, entry_count};
ghost use Rattle.adr_model.specs.Whole.{IsWhole};
ghost use Rattle.adr_store.specs.Numbers.{all_entries, by_number};

use crate::events::Events;
use crate::kept::Kept;
use crate::resources::Resources;
use crate::table::Table;
use adr_object::{Edit, Event, Id, IdText, Kind, Object, Program, Resource, Ven};
use adr_shared::Shared;
use adr_value::Refusal;
use adr_value::limits::{MOST_ENTRIES, MOST_EVENTS, MOST_RESOURCES, MOST_VERSION};
use std::alloc::Global;
use std::marker::Model;
use std::mem;

/// The objects of each kind in order of creation, and the number of edits that made them. A look-up by id, by place or
/// by number scans nothing; copies share the objects.
pub struct Store {
    programs: Table<Shared<Program>>,
    vens: Table<Shared<Ven>>,
    resources: Resources,
    events: Events,
    version: u64,
    alloc: Global,
}

impl Drop for Store {
    fn drop(self) {
        let Store {
            programs,
            vens,
            resources,
            events,
            version: _,
            alloc: _,
        } = self;
        drop(programs);
        drop(vens);
        drop(resources);
        drop(events);
    }
}

impl Model for Store {
    ghost use Rattle.std.specs.Prelude.{◌≤◌};
    ghost use Rattle.adr_value.specs.declared.limits.TheConstants.{MOST_VERSION};
    ghost use Rattle.adr_model.specs.Book.{Book};

    ghost Value = { Book };

    ghost view = { λ o. record { version = o.version; programs = o.programs; vens = o.vens; resources = o.resources; events = o.events } };

    ghost invariant = { λ o. o.version ≤ MOST_VERSION };
}

impl Store {
    /// No objects, and no edits.
    pub fn new(alloc: Global) -> Store
        ensures { result ≡ empty }
    {
        Store {
            programs: Table::new(alloc),
            vens: Table::new(alloc),
            resources: Resources::new(alloc),
            events: Events::new(alloc),
            version: 0,
            alloc,
        }
    }

    /// The number of edits that were made.
    pub fn version(&self) -> u64
        ensures value { result ≡ self.now.version }
        ensures bound { result ≤ MOST_VERSION }
    {
        self.version
    }

    /// How many objects of the kind there are.
    pub fn count(&self, kind: Kind) -> usize
        ensures { result ≡ count_of self.now kind }
    {
        match kind {
            Kind::Program => self.programs.len(),
            Kind::Ven => self.vens.len(),
            Kind::Resource => self.resources.len(),
            Kind::Event => self.events.len(),
        }
    }

    /// The program with the id.
    pub fn program(&self, id: &Id) -> Option<&Program>
        ensures { option_copied result ≡ program_by self.now id.now }
    {
        match self.programs.get(id) {
            Some(program) => Some(program.get()),
            None => None,
        }
    }

    /// The program at the place, counted from 0 in order of creation.
    pub fn program_at(&self, place: usize) -> Option<&Program>
        ensures { option_copied result ≡ slice_get self.now.programs place }
    {
        match self.programs.at(place) {
            Some(program) => Some(program.get()),
            None => None,
        }
    }

    /// The ven with the id.
    pub fn ven(&self, id: &Id) -> Option<&Ven>
        ensures { option_copied result ≡ ven_by self.now id.now }
    {
        match self.vens.get(id) {
            Some(ven) => Some(ven.get()),
            None => None,
        }
    }

    /// The ven at the place, counted from 0 in order of creation.
    pub fn ven_at(&self, place: usize) -> Option<&Ven>
        ensures { option_copied result ≡ slice_get self.now.vens place }
    {
        match self.vens.at(place) {
            Some(ven) => Some(ven.get()),
            None => None,
        }
    }

    /// The resource with the id.
    pub fn resource(&self, id: &Id) -> Option<&Resource>
        ensures { option_copied result ≡ resource_by self.now id.now }
    {
        self.resources.get(id)
    }

    /// The resource at the place, counted from 0 in order of creation.
    pub fn resource_at(&self, place: usize) -> Option<&Resource>
        ensures { option_copied result ≡ slice_get self.now.resources place }
    {
        self.resources.at(place)
    }

    /// The place of the resource with the id, counted from 0 in order of creation.
    pub fn resource_place(&self, id: IdText<'_>) -> Option<usize>
        ensures found { is_some result ≡ is_some (resource_by self.now id.entry) }
        ensures value { IfSome result (λ place. slice_get self.now.resources place ≡ resource_by self.now id.entry) }
    {
        self.resources.place(id)
    }

    /// The event with the id.
    pub fn event(&self, id: &Id) -> Option<&Event>
        ensures { option_copied result ≡ option_map (λ w. w.event) (event_by self.now id.now) }
    {
        self.events.get(id)
    }

    /// The event at the place, counted from 0 in order of creation.
    pub fn event_at(&self, place: usize) -> Option<&Event>
        ensures { option_copied result ≡ option_map (λ w. w.event) (slice_get self.now.events place) }
    {
        self.events.at(place)
    }

    /// The event at the place with the number of the edit that created or last changed it, by one look-up.
    pub fn kept_at(&self, place: usize) -> Option<&Kept>
        ensures { option_copied result ≡ slice_get self.now.events place }
    {
        self.events.kept_at(place)
    }

    /// The place of the event with the id, counted from 0 in order of creation.
    pub fn event_place(&self, id: &Id) -> Option<usize>
        ensures found { is_some result ≡ is_some (event_by self.now id.now) }
        ensures value { IfSome result (λ place. slice_get self.now.events place ≡ event_by self.now id.now) }
    {
        self.events.place(id)
    }

    /// The number of the edit that created or last changed the event with the id.
    pub fn written(&self, id: &Id) -> Option<u64>
        ensures { result ≡ option_map (λ w. w.written) (event_by self.now id.now) }
    {
        self.events.written(id)
    }

    /// The number of the edit that created or last changed the event at the place.
    pub fn written_at(&self, place: usize) -> Option<u64>
        ensures { result ≡ option_map (λ w. w.written) (slice_get self.now.events place) }
    {
        self.events.written_at(place)
    }

    /// The event that the edit of that number created or last changed.
    pub fn event_by(&self, number: u64) -> Option<&Event>
        ensures { option_copied result ≡ option_map (λ w. w.event) (by_number self.now.events number) }
    {
        self.events.by_number(number)
    }

    /// Whether an event names the program. A look-up, as the numbers of events are kept by program.
    pub fn is_program_named(&self, id: &Id) -> bool
        ensures { result ≡ list_any (λ w. bytes_eq id.now w.event.program_id) self.now.events }
    {
        self.events.is_named(id)
    }

    /// Whether a resource names the ven. A look-up too.
    pub fn is_ven_named(&self, id: &Id) -> bool
        ensures { result ≡ list_any (λ r. bytes_eq id.now r.ven_id) self.now.resources }
    {
        self.resources.is_owner(id)
    }

    /// The entries of all events but the one with the id, from a number that is kept.
    pub fn entries_beside(&self, id: &Id) -> usize
        ensures value { result ≡ sum_by (λ w. entry_count w.event) (filter (λ w. not (bytes_eq id.now w.event.id)) self.now.events) }
        ensures bound { result ≤ MOST_ENTRIES }
    {
        self.events.entries_beside(id)
    }

    fn create_program(&mut self, program: Shared<Program>) -> Result<(), Refusal>
        requires new { program_by self.old program.id ≡ None }
        requires room { self.old.version < MOST_VERSION }
        ensures ok { OnOk result (self.new ≡ made self.old (Create (Object.Program program))) }
        ensures err { OnErr result (self.new ≡ self.old) }
        ensures refusal { OnlyNoMemory result }
    {
        let programs = self.programs.with_new(program)?;
        drop(mem::replace(&mut self.programs, programs));
        self.version += 1;
        Ok(())
    }

    fn create_ven(&mut self, ven: Shared<Ven>) -> Result<(), Refusal>
        requires new { ven_by self.old ven.id ≡ None }
        requires room { self.old.version < MOST_VERSION }
        ensures ok { OnOk result (self.new ≡ made self.old (Create (Object.Ven ven))) }
        ensures err { OnErr result (self.new ≡ self.old) }
        ensures refusal { OnlyNoMemory result }
    {
        let vens = self.vens.with_new(ven)?;
        drop(mem::replace(&mut self.vens, vens));
        self.version += 1;
        Ok(())
    }

    fn create_resource(&mut self, resource: Shared<Resource>) -> Result<(), Refusal>
        requires new { resource_by self.old resource.id ≡ None }
        requires few { length self.old.resources < MOST_RESOURCES }
        requires room { self.old.version < MOST_VERSION }
        ensures ok { OnOk result (self.new ≡ made self.old (Create (Object.Resource resource))) }
        ensures err { OnErr result (self.new ≡ self.old) }
        ensures refusal { OnlyNoMemory result }
    {
        let resources = self.resources.with_new(resource)?;
        drop(mem::replace(&mut self.resources, resources));
        self.version += 1;
        Ok(())
    }

    fn create_event(&mut self, event: Shared<Event>) -> Result<(), Refusal>
        requires new { event_by self.old event.id ≡ None }
        requires fresh { by_number self.old.events (self.old.version + 1) ≡ None }
        requires few { length self.old.events < MOST_EVENTS }
        requires entries { all_entries self.old.events + entry_count event ≤ MOST_ENTRIES }
        requires room { self.old.version < MOST_VERSION }
        ensures ok { OnOk result (self.new ≡ made self.old (Create (Object.Event event))) }
        ensures err { OnErr result (self.new ≡ self.old) }
        ensures refusal { OnlyNoMemory result }
    {
        let events = self.events.with_new(event, self.version + 1)?;
        drop(mem::replace(&mut self.events, events));
        self.version += 1;
        Ok(())
    }

    fn change_program(&mut self, program: Shared<Program>) -> Result<(), Refusal>
        requires there { IsSome (program_by self.old program.id) }
        requires room { self.old.version < MOST_VERSION }
        ensures ok { OnOk result (self.new ≡ made self.old (Change (Object.Program program))) }
        ensures err { OnErr result (self.new ≡ self.old) }
        ensures refusal { OnlyNoMemory result }
    {
        let programs = self.programs.with_changed(program)?;
        drop(mem::replace(&mut self.programs, programs));
        self.version += 1;
        Ok(())
    }

    fn change_ven(&mut self, ven: Shared<Ven>) -> Result<(), Refusal>
        requires there { IsSome (ven_by self.old ven.id) }
        requires room { self.old.version < MOST_VERSION }
        ensures ok { OnOk result (self.new ≡ made self.old (Change (Object.Ven ven))) }
        ensures err { OnErr result (self.new ≡ self.old) }
        ensures refusal { OnlyNoMemory result }
    {
        let vens = self.vens.with_changed(ven)?;
        drop(mem::replace(&mut self.vens, vens));
        self.version += 1;
        Ok(())
    }

    fn change_resource(&mut self, resource: Shared<Resource>) -> Result<(), Refusal>
        requires there { IsSome (resource_by self.old resource.id) }
        requires room { self.old.version < MOST_VERSION }
        ensures ok { OnOk result (self.new ≡ made self.old (Change (Object.Resource resource))) }
        ensures err { OnErr result (self.new ≡ self.old) }
        ensures refusal { OnlyNoMemory result }
    {
        let resources = self.resources.with_changed(resource)?;
        drop(mem::replace(&mut self.resources, resources));
        self.version += 1;
        Ok(())
    }

    fn change_event(&mut self, event: Shared<Event>) -> Result<(), Refusal>
        requires there { IsSome (event_by self.old event.id) }
        requires fresh { by_number self.old.events (self.old.version + 1) ≡ None }
        requires apart { IsDistinct eqb (map (λ w. w.written) self.old.events) }
        requires entries { sum_by (λ w. entry_count w.event) (filter (λ w. not (bytes_eq event.id w.event.id)) self.old.events) + entry_count event ≤ MOST_ENTRIES }
        requires room { self.old.version < MOST_VERSION }
        ensures ok { OnOk result (self.new ≡ made self.old (Change (Object.Event event))) }
        ensures err { OnErr result (self.new ≡ self.old) }
        ensures refusal { OnlyNoMemory result }
    {
        let events = self.events.with_changed(event, self.version + 1)?;
        drop(mem::replace(&mut self.events, events));
        self.version += 1;
        Ok(())
    }

    fn remove(&mut self, kind: Kind, id: &Id) -> Result<(), Refusal>
        requires apart { IsDistinct eqb (map (λ w. w.written) self.old.events) }
        requires room { self.old.version < MOST_VERSION }
        ensures ok { OnOk result (self.new ≡ made self.old (Remove kind id.now)) }
        ensures err { OnErr result (self.new ≡ self.old) }
        ensures refusal { OnlyNoMemory result }
    {
        match kind {
            Kind::Program => {
                let programs = self.programs.without(id)?;
                drop(mem::replace(&mut self.programs, programs));
            }
            Kind::Ven => {
                let vens = self.vens.without(id)?;
                drop(mem::replace(&mut self.vens, vens));
            }
            Kind::Resource => {
                let resources = self.resources.without(id)?;
                drop(mem::replace(&mut self.resources, resources));
            }
            Kind::Event => {
                let events = self.events.without(id)?;
                drop(mem::replace(&mut self.events, events));
            }
        }
        self.version += 1;
        Ok(())
    }

    fn create(&mut self, object: Object) -> Result<(), Refusal>
        requires accepted { IsOk (step self.old (Create object)) }
        requires whole { IsWhole self.old }
        ensures ok { OnOk result (self.new ≡ made self.old (Create object)) }
        ensures err { OnErr result (self.new ≡ self.old) }
        ensures refusal { OnlyNoMemory result }
    {
        match object {
            Object::Program(program) => self.create_program(program),
            Object::Ven(ven) => self.create_ven(ven),
            Object::Resource(resource) => self.create_resource(resource),
            Object::Event(event) => self.create_event(event),
        }
    }

    fn change(&mut self, object: Object) -> Result<(), Refusal>
        requires accepted { IsOk (step self.old (Change object)) }
        requires whole { IsWhole self.old }
        ensures ok { OnOk result (self.new ≡ made self.old (Change object)) }
        ensures err { OnErr result (self.new ≡ self.old) }
        ensures refusal { OnlyNoMemory result }
    {
        match object {
            Object::Program(program) => self.change_program(program),
            Object::Ven(ven) => self.change_ven(ven),
            Object::Resource(resource) => self.change_resource(resource),
            Object::Event(event) => self.change_event(event),
        }
    }

    /// Makes an edit that the definition accepts, of objects that such edits left. Cost: at most five paths in trees,
    /// of some 15 nodes each at 16,384 objects, and of an event a count of its entries; the edit's object is kept and
    /// not copied.
    ///
    /// # Errors
    ///
    /// `NoMemory` where there is no room; then all is as it was.
    pub fn make(&mut self, edit: Edit) -> Result<(), Refusal>
        requires accepted { IsOk (step self.old edit) }
        requires whole { IsWhole self.old }
        ensures ok { OnOk result (step self.old edit ≡ Ok self.new) }
        ensures err { OnErr result (self.new ≡ self.old) }
        ensures refusal { OnlyNoMemory result }
    {
        match edit {
            Edit::Create(object) => self.create(object),
            Edit::Change(object) => self.change(object),
            Edit::Remove(kind, id) => self.remove(kind, &id),
        }
    }

    /// A copy that shares the objects' memory, whatever their number.
    ///
    /// # Errors
    ///
    /// `NoMemory`, only where the count of the owners is full.
    pub fn copy(&self) -> Result<Store, Refusal>
        ensures { IsCopyOf result self.now }
    {
        Ok(Store {
            programs: self.programs.copy()?,
            vens: self.vens.copy()?,
            resources: self.resources.copy()?,
            events: self.events.copy()?,
            version: self.version,
            alloc: self.alloc,
        })
    }
}
