//! What is kept of the events beside their table.
ghost use Rattle.std.specs.Prelude.{◌≡◌, ◌+◌, ◌-◌, ◌<◌, ◌≤◌, ◌^◌, ◌==◌, ℕ, List, Some, None, IfOk, if◌then◌else◌};
ghost use Rattle.std.specs.Str.{bytes_eq};
ghost use Rattle.adr_refusal.specs.Answer.{OnlyNoMemory};
ghost use Rattle.adr_refusal.specs.Copy.{IsCopyOf};
ghost use Rattle.adr_model.specs.Edits.{entry_count};
ghost use Rattle.adr_store.specs.Numbers.{kept_for, one_if, times};

use crate::kept::Kept;
use crate::tally::Tally;
use adr_object::Event;
use adr_shared::{Shared, SharedMap};
use adr_value::Refusal;
use adr_value::limits::MOST_ENTRIES;
use std::alloc::Global;

/// How many events name each program, how many entries all events have, and which event each write wrote. No edit
/// changes them: it answers new ones.
#[derive(Drop)]
pub struct Numbers {
    pub(crate) named: Tally,
    pub(crate) entries: usize,
    pub(crate) writes: SharedMap<u64, Shared<Event>>,
}

impl Numbers {
    /// The numbers of no events.
    pub fn new() -> Numbers
        ensures named { (id : List ℕ) → times result.named.counts id ≡ 0 }
        ensures entries { result.entries ≡ 0 }
        ensures writes { (n : ℕ) → kept_for result.writes n ≡ None }
    {
        Numbers {
            named: Tally::new(),
            entries: 0,
            writes: SharedMap::new(),
        }
    }

    /// The numbers with one more event.
    ///
    /// # Errors
    ///
    /// `NoMemory` where there is no room for it.
    pub fn with(&self, alloc: Global, event: &Kept) -> Result<Numbers, Refusal>
        requires bound { times self.now.named.counts event.now.event.program_id < 2 ^ 32 }
        requires entries { self.now.entries + entry_count event.now.event ≤ MOST_ENTRIES }
        ensures named { IfOk result (λ more. (id : List ℕ) → times more.named.counts id ≡ times self.now.named.counts id + one_if (bytes_eq id event.now.event.program_id)) }
        ensures entries { IfOk result (λ more. more.entries ≡ self.now.entries + entry_count event.now.event) }
        ensures writes { IfOk result (λ more. (n : ℕ) → kept_for more.writes n ≡ (if event.now.written == n then Some event.now.event else kept_for self.now.writes n)) }
        ensures refusal { OnlyNoMemory result }
    {
        Ok(Numbers {
            named: self.named.with(alloc, &event.event().program_id)?,
            entries: self.entries + event.entries(),
            writes: self.writes.put(alloc, event.written(), event.share()?)?,
        })
    }

    /// The numbers without an event.
    ///
    /// # Errors
    ///
    /// `NoMemory` where there is no room for them.
    pub fn without(&self, alloc: Global, event: &Kept) -> Result<Numbers, Refusal>
        requires named { 0 < times self.now.named.counts event.now.event.program_id }
        requires entries { entry_count event.now.event ≤ self.now.entries }
        ensures named { IfOk result (λ less. (id : List ℕ) → times less.named.counts id + one_if (bytes_eq id event.now.event.program_id) ≡ times self.now.named.counts id) }
        ensures entries { IfOk result (λ less. less.entries ≡ self.now.entries - entry_count event.now.event) }
        ensures writes { IfOk result (λ less. (n : ℕ) → kept_for less.writes n ≡ (if event.now.written == n then None else kept_for self.now.writes n)) }
        ensures refusal { OnlyNoMemory result }
    {
        Ok(Numbers {
            named: self.named.without(alloc, &event.event().program_id)?,
            entries: self.entries - event.entries(),
            writes: self.writes.without(alloc, &event.written())?,
        })
    }

    /// A copy that shares their memory, whatever the number of events.
    ///
    /// # Errors
    ///
    /// `NoMemory`, only where the count of its owners is full.
    pub fn copy(&self) -> Result<Numbers, Refusal>
        ensures { IsCopyOf result self.now }
    {
        Ok(Numbers {
            named: self.named.copy()?,
            entries: self.entries,
            writes: self.writes.copy()?,
        })
    }
}
