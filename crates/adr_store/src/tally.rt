//! How many times each of some ids was added.
ghost use Rattle.std.specs.Prelude.{◌≡◌, ◌+◌, ◌<◌, ◌^◌, List, ℕ, IfOk};
ghost use Rattle.std.specs.Str.{bytes_eq};
ghost use Rattle.adr_refusal.specs.Answer.{OnlyNoMemory};
ghost use Rattle.adr_refusal.specs.Copy.{IsCopyOf};
ghost use Rattle.adr_store.specs.Numbers.{one_if, times};

use adr_object::Id;
use adr_shared::SharedMap;
use adr_value::Refusal;
use std::alloc::Global;

/// How many times each id was added and not taken out again. No edit changes a tally: it answers a new one.
#[derive(Drop)]
pub struct Tally {
    counts: SharedMap<Id, u64>,
}

impl Tally {
    /// Nothing was added.
    pub fn new() -> Tally
        ensures { (id : List ℕ) → times result.counts id ≡ 0 }
    {
        Tally {
            counts: SharedMap::new(),
        }
    }

    /// How many times the id was added.
    pub fn count(&self, id: &Id) -> u64
        ensures { result ≡ times self.now.counts id.now }
    {
        match self.counts.get(id) {
            Some(count) => *count,
            None => 0,
        }
    }

    /// The tally with the id added once more.
    ///
    /// # Errors
    ///
    /// `NoMemory` where there is no room for it.
    pub fn with(&self, alloc: Global, id: &Id) -> Result<Tally, Refusal>
        requires { times self.now.counts id.now < 2 ^ 32 }
        ensures counts { IfOk result (λ tally. (other : List ℕ) → times tally.counts other ≡ times self.now.counts other + one_if (bytes_eq other id.now)) }
        ensures refusal { OnlyNoMemory result }
    {
        let count = self.count(id) + 1;
        Ok(Tally {
            counts: self.counts.put(alloc, id.copy()?, count)?,
        })
    }

    /// The tally with the id taken out once.
    ///
    /// # Errors
    ///
    /// `NoMemory` where there is no room for it.
    pub fn without(&self, alloc: Global, id: &Id) -> Result<Tally, Refusal>
        requires { 0 < times self.now.counts id.now }
        ensures counts { IfOk result (λ tally. (other : List ℕ) → times tally.counts other + one_if (bytes_eq other id.now) ≡ times self.now.counts other) }
        ensures refusal { OnlyNoMemory result }
    {
        let count = self.count(id);
        if 1 < count {
            return Ok(Tally {
                counts: self.counts.put(alloc, id.copy()?, count - 1)?,
            });
        }
        Ok(Tally {
            counts: self.counts.without(alloc, id)?,
        })
    }

    /// A copy that shares its memory, whatever the number of ids.
    ///
    /// # Errors
    ///
    /// `NoMemory`, only where the count of its owners is full.
    pub fn copy(&self) -> Result<Tally, Refusal>
        ensures { IsCopyOf result self.now }
    {
        Ok(Tally {
            counts: self.counts.copy()?,
        })
    }
}
