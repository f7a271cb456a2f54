//! The events in order of creation, and what is counted of them.
ghost use Rattle.std.specs.Prelude.{◌≡◌, ◌+◌, ◌++◌, ◌∷◌, [], ◌<◌, ◌≤◌, eqb, not, filter, map, length, slice_get, sum_by, is_some, IsSome, IfSome, None};
ghost use Rattle.std.specs.List.{IsDistinct, list_any};
ghost use Rattle.std.specs.Option.{option_copied, option_map};
ghost use Rattle.std.specs.Str.{bytes_eq};
ghost use Rattle.adr_refusal.specs.Copy.{IsCopyOf};
ghost use Rattle.adr_model.specs.Edits.{put_at, entry_count};
ghost use Rattle.adr_store.specs.Numbers.{all_entries, by_number as numbered};
ghost use Rattle.adr_store.specs.Table.{find_by};

use crate::kept::Kept;
use crate::numbers::Numbers;
use crate::table::{Keyed, Table};
use adr_object::{Event, Id};
use adr_shared::Shared;
use adr_value::Refusal;
use adr_value::limits::{MOST_ENTRIES, MOST_EVENTS};
use std::alloc::Global;
use std::marker::Model;

/// The events in order of creation, each with the number of the edit that last wrote it. No edit changes them: it
/// answers new ones, which share with the old all but some paths.
#[derive(Drop)]
pub(crate) struct Events {
    table: Table<Kept>,
    numbers: Numbers,
    alloc: Global,
}

impl Model for Events {
    ghost use Rattle.std.specs.Prelude.{List};
    ghost use Rattle.adr_model.specs.declared.written.Written.{Written};
    ghost use Rattle.adr_store.specs.Numbers.{IsCounted};

    ghost Value = { List Written };

    ghost view = { λ e. e.table };

    ghost invariant = { λ e. IsCounted e.table e.numbers.named.counts e.numbers.entries e.numbers.writes };
}

impl Events {
    pub(crate) fn new(alloc: Global) -> Events
        ensures { result ≡ [] }
    {
        Events {
            table: Table::new(alloc),
            numbers: Numbers::new(),
            alloc,
        }
    }

    pub(crate) fn len(&self) -> usize
        ensures { result ≡ length self.now }
    {
        self.table.len()
    }

    pub(crate) fn get(&self, id: &Id) -> Option<&Event>
        ensures { option_copied result ≡ option_map (λ w. w.event) (find_by (λ w. w.event.id) self.now id.now) }
    {
        match self.table.get(id) {
            Some(kept) => Some(kept.event()),
            None => None,
        }
    }

    /// The number of the edit that last wrote the event with the id.
    pub(crate) fn written(&self, id: &Id) -> Option<u64>
        ensures { result ≡ option_map (λ w. w.written) (find_by (λ w. w.event.id) self.now id.now) }
    {
        match self.table.get(id) {
            Some(kept) => Some(kept.written()),
            None => None,
        }
    }

    pub(crate) fn at(&self, place: usize) -> Option<&Event>
        ensures { option_copied result ≡ option_map (λ w. w.event) (slice_get self.now place) }
    {
        match self.table.at(place) {
            Some(kept) => Some(kept.event()),
            None => None,
        }
    }

    /// The event at the place as it is kept.
    pub(crate) fn kept_at(&self, place: usize) -> Option<&Kept>
        ensures { option_copied result ≡ slice_get self.now place }
    {
        self.table.at(place)
    }

    /// The place of the event with the id.
    pub(crate) fn place(&self, id: &Id) -> Option<usize>
        ensures found { is_some result ≡ is_some (find_by (λ w. w.event.id) self.now id.now) }
        ensures value { IfSome result (λ place. slice_get self.now place ≡ find_by (λ w. w.event.id) self.now id.now) }
    {
        self.table.place(id.lent())
    }

    /// The number of the edit that last wrote the event at the place.
    pub(crate) fn written_at(&self, place: usize) -> Option<u64>
        ensures { result ≡ option_map (λ w. w.written) (slice_get self.now place) }
    {
        match self.table.at(place) {
            Some(kept) => Some(kept.written()),
            None => None,
        }
    }

    /// The event that the edit of that number wrote last.
    pub(crate) fn by_number(&self, number: u64) -> Option<&Event>
        ensures { option_copied result ≡ option_map (λ w. w.event) (numbered self.now number) }
    {
        match self.numbers.writes.get(&number) {
            Some(event) => Some(event.get()),
            None => None,
        }
    }

    /// Whether an event names the program.
    pub(crate) fn is_named(&self, id: &Id) -> bool
        ensures { result ≡ list_any (λ w. bytes_eq id.now w.event.program_id) self.now }
    {
        0 < self.numbers.named.count(id)
    }

    /// The entries of all events but the one with the id.
    pub(crate) fn entries_beside(&self, id: &Id) -> usize
        ensures value { result ≡ sum_by (λ w. entry_count w.event) (filter (λ w. not (bytes_eq id.now w.event.id)) self.now) }
        ensures bound { result ≤ MOST_ENTRIES }
    {
        match self.table.get(id) {
            Some(kept) => self.numbers.entries - kept.entries(),
            None => self.numbers.entries,
        }
    }

    /// The events with one more, which goes last.
    pub(crate) fn with_new(&self, event: Shared<Event>, written: u64) -> Result<Events, Refusal>
        requires new { find_by (λ w. w.event.id) self.now event.id ≡ None }
        requires fresh { numbered self.now written ≡ None }
        requires few { length self.now < MOST_EVENTS }
        requires entries { all_entries self.now + entry_count event ≤ MOST_ENTRIES }
        ensures { IsCopyOf result (self.now ++ record { event = event; written = written } ∷ []) }
    {
        let kept = Kept::new(event, written);
        Ok(Events {
            numbers: self.numbers.with(self.alloc, &kept)?,
            table: self.table.with_new(kept)?,
            alloc: self.alloc,
        })
    }

    /// The events with this one in the place of the one with its id.
    pub(crate) fn with_changed(&self, event: Shared<Event>, written: u64) -> Result<Events, Refusal>
        requires there { IsSome (find_by (λ w. w.event.id) self.now event.id) }
        requires fresh { numbered self.now written ≡ None }
        requires apart { IsDistinct eqb (map (λ w. w.written) self.now) }
        requires entries { sum_by (λ w. entry_count w.event) (filter (λ w. not (bytes_eq event.id w.event.id)) self.now) + entry_count event ≤ MOST_ENTRIES }
        ensures { IsCopyOf result (put_at (λ w. bytes_eq event.id w.event.id) (record { event = event; written = written }) self.now) }
    {
        let kept = Kept::new(event, written);
        let Some(old) = self.table.get(kept.id()) else {
            unreachable!();
        };
        let less = self.numbers.without(self.alloc, old)?;
        Ok(Events {
            numbers: less.with(self.alloc, &kept)?,
            table: self.table.with_changed(kept)?,
            alloc: self.alloc,
        })
    }

    /// The events without the one with the id; those after it move up.
    pub(crate) fn without(&self, id: &Id) -> Result<Events, Refusal>
        requires apart { IsDistinct eqb (map (λ w. w.written) self.now) }
        ensures { IsCopyOf result (filter (λ w. not (bytes_eq id.now w.event.id)) self.now) }
    {
        let Some(old) = self.table.get(id) else {
            return self.copy();
        };
        Ok(Events {
            numbers: self.numbers.without(self.alloc, old)?,
            table: self.table.without(id)?,
            alloc: self.alloc,
        })
    }

    /// A copy that shares their memory, whatever their number.
    pub(crate) fn copy(&self) -> Result<Events, Refusal>
        ensures { IsCopyOf result self.now }
    {
        Ok(Events {
            table: self.table.copy()?,
            numbers: self.numbers.copy()?,
            alloc: self.alloc,
        })
    }
}
