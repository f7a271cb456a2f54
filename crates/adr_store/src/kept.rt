//! An event as the book keeps it.
ghost use Rattle.std.specs.Prelude.{◌≡◌};
ghost use Rattle.adr_refusal.specs.Copy.{IsCopyOf};
ghost use Rattle.adr_model.specs.Edits.{entry_count as number_of_entries};

use crate::counting::entry_count;
use crate::table::Keyed;
use adr_object::{Event, Id};
use adr_shared::Shared;
use adr_value::{Refusal, TryClone};
use std::marker::Model;

/// An event, the number of the edit that last wrote it, and how many entries it has.
pub struct Kept {
    event: Shared<Event>,
    written: u64,
    entries: usize,
}

// A function of its own, so that callers that let a value go need not look into it.
impl Drop for Kept {
    fn drop(self) {
        let Kept {
            event,
            written: _,
            entries: _,
        } = self;
        drop(event);
    }
}

impl Model for Kept {
    ghost use Rattle.std.specs.Prelude.{◌≡◌};
    ghost use Rattle.adr_model.specs.declared.written.Written.{Written};
    ghost use Rattle.adr_model.specs.Edits.{entry_count};

    ghost Value = { Written };

    ghost view = { λ k. record { event = k.event; written = k.written } };

    ghost invariant = { λ k. k.entries ≡ entry_count k.event };
}

impl Kept {
    pub(crate) fn new(event: Shared<Event>, written: u64) -> Kept
        ensures { result ≡ record { event = event; written = written } }
    {
        let entries = entry_count(event.get());
        Kept {
            event,
            written,
            entries,
        }
    }

    /// The event.
    pub fn event(&self) -> &Event
        ensures { result.now ≡ self.now.event }
    {
        self.event.get()
    }

    /// The number of the edit that created or last changed it.
    pub fn written(&self) -> u64
        ensures { result ≡ self.now.written }
    {
        self.written
    }

    pub(crate) fn entries(&self) -> usize
        ensures { result ≡ number_of_entries self.now.event }
    {
        self.entries
    }

    /// One more owner of the event.
    pub(crate) fn share(&self) -> Result<Shared<Event>, Refusal>
        ensures { IsCopyOf result self.now.event }
    {
        self.event.copy()
    }
}

impl TryClone for Kept {
    fn try_clone(&self) -> Result<Kept, Refusal> {
        Ok(Kept {
            event: self.event.copy()?,
            written: self.written,
            entries: self.entries,
        })
    }
}

impl Keyed for Kept {
    ghost key = { λ w. w.event.id };

    fn id(&self) -> &Id {
        &self.event.get().id
    }
}
