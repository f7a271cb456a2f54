//! How many places have each slot.
ghost use Rattle.std.specs.Prelude.{◌≡◌, ℕ, ◌+◌, ◌^◌, ◌<◌, ◌==◌, [], true, cond, length, get_or, IfOk, OnOk};
ghost use Rattle.adr_refusal.specs.Answer.{OnlyNoMemory};
ghost use Rattle.adr_seats.specs.Table.{numbers, is_own};

use crate::table::SlotTable;
use crate::unused::Unused;
use adr_refusal::Refusal;
use std::alloc::Global;
use std::marker::Model;

/// How many slots there are at most.
const MOST: usize = 1 << 31;

/// How many places have each slot, and slots that none has. Contracts see the table of the numbers; a slot past its end
/// has no place.
pub(crate) struct Counts {
    members: SlotTable,
    unused: Unused,
}

// A function of its own, so that callers that let a value go need not look into it.
impl Drop for Counts {
    fn drop(self) {
        let Counts { members, unused } = self;
        drop(members);
        drop(unused);
    }
}

impl Model for Counts {
    ghost use Rattle.adr_seats.specs.Table.{Chunks};

    ghost Value = { Chunks };

    ghost view = { λ c. c.members };
}

impl Counts {
    /// No places.
    pub(crate) fn new(alloc: Global) -> Counts
        ensures { numbers result ≡ [] }
    {
        Counts {
            members: SlotTable::new(alloc),
            unused: Unused::new(alloc),
        }
    }

    /// How many places have the slot.
    pub(crate) fn of(&self, slot: u64) -> usize
        ensures { result ≡ get_or (numbers self.now) slot 0 }
    {
        match self.members.get(slot as usize) {
            Some(count) => count as usize,
            None => 0,
        }
    }

    /// A slot that no place has: the one that was left last, or the one after all that ever had one.
    ///
    /// # Errors
    ///
    /// `NoMemory` where each of 2^31 was named, and none that was left is known.
    pub(crate) fn free(&self) -> Result<u64, Refusal>
        ensures free { IfOk result (λ slot. get_or (numbers self.now) slot 0 ≡ 0) }
        ensures below { IfOk result (λ slot. slot < 2 ^ 32) }
        ensures refusal { OnlyNoMemory result }
    {
        if let Some(left) = self.unused.last() {
            if self.of(u64::from(left)) == 0 {
                return Ok(u64::from(left));
            }
        }
        let count = self.members.len();
        if count < MOST {
            return Ok(count as u64);
        }
        Err(Refusal::NoMemory)
    }

    /// Makes room for the number of the slot, which may be written then.
    ///
    /// # Errors
    ///
    /// `NoMemory` where there is no room for it, or the slot is not below 2^31.
    pub(crate) fn reserve(&mut self, slot: u32) -> Result<(), Refusal>
        ensures same { (s : ℕ) → get_or (numbers self.new) s 0 ≡ get_or (numbers self.old) s 0 }
        ensures room { OnOk result (slot < length (numbers self.new)) }
        ensures own { OnOk result (is_own self.new slot ≡ true) }
        ensures refusal { OnlyNoMemory result }
    {
        for fresh in self.members.len()..slot as usize + 1 {
            self.members.push(0)?;
            self.unused.reserve()?;
            self.unused.put(fresh as u32, 0);
        }
        self.members.own(slot as usize)
    }

    /// The number of the slot may be written from now on.
    ///
    /// # Errors
    ///
    /// `NoMemory` where it is shared and there is no room for a chunk of its own, or none for one slot more in the list
    /// of the unused.
    pub(crate) fn own(&mut self, slot: u32) -> Result<(), Refusal>
        ensures same { numbers self.new ≡ numbers self.old }
        ensures own { OnOk result (is_own self.new slot ≡ true) }
        ensures keeps { (other : ℕ) → is_own self.old other ≡ true → is_own self.new other ≡ true }
        ensures refusal { OnlyNoMemory result }
    {
        self.unused.reserve()?;
        self.members.own(slot as usize)
    }

    /// One place more has the slot.
    pub(crate) fn add(&mut self, slot: u32)
        requires room { slot < length (numbers self.old) }
        requires own { is_own self.old slot ≡ true }
        requires fits { get_or (numbers self.old) slot 0 + 1 < 2 ^ 32 }
        ensures counts { (s : ℕ) → get_or (numbers self.new) s 0 ≡ get_or (numbers self.old) s 0 + cond (slot == s) 1 0 }
    {
        let Some(count) = self.members.get(slot as usize) else {
            unreachable!();
        };
        self.unused.take(slot, count);
        self.members.put(slot as usize, count + 1);
    }

    /// One place less has the slot.
    pub(crate) fn take(&mut self, slot: u32)
        requires some { 0 < get_or (numbers self.old) slot 0 }
        requires own { is_own self.old slot ≡ true }
        ensures counts { (s : ℕ) → get_or (numbers self.new) s 0 + cond (slot == s) 1 0 ≡ get_or (numbers self.old) s 0 }
        ensures length { length (numbers self.new) ≡ length (numbers self.old) }
        ensures own { (other : ℕ) → is_own self.old other ≡ true → is_own self.new other ≡ true }
    {
        let Some(count) = self.members.get(slot as usize) else {
            unreachable!();
        };
        let left = count - 1;
        self.unused.put(slot, left);
        self.members.put(slot as usize, left);
    }

    /// A copy of the numbers. Full chunks of them are shared.
    ///
    /// # Errors
    ///
    /// `NoMemory` where there is no room for it, or the count of a chunk's sharers is full.
    pub(crate) fn copy(&self) -> Result<Counts, Refusal>
        ensures same { IfOk result (λ copy. numbers copy ≡ numbers self.now) }
        ensures refusal { OnlyNoMemory result }
    {
        Ok(Counts {
            members: self.members.copy()?,
            unused: self.unused.copy()?,
        })
    }
}
