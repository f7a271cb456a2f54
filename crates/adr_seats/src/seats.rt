//! Which slot each place has.
ghost use Rattle.std.specs.Prelude.{◌≡◌, ℕ, ◌^◌, ◌<◌, ◌==◌, ◌++◌, ◌∷◌, [], false, length, set, remove, IfOk, IfSome, OnOk, OnErr};
ghost use Rattle.std.specs.List.{list_any, slice_get};
ghost use Rattle.adr_refusal.specs.Answer.{OnlyNoMemory};
ghost use Rattle.adr_refusal.specs.Copy.{IsCopyOf};
ghost use Rattle.adr_seats.specs.Seats.{members_of, IsCountOf};
ghost use Rattle.adr_seats.specs.Table.{numbers};

use crate::counts::Counts;
use crate::table::SlotTable;
use adr_refusal::Refusal;
use std::alloc::Global;
use std::marker::Model;

/// Which slot each place has; many places may share one. Contracts see the list of the slots, place by place.
///
/// A slot is a number below 2^31, and there are as many places at most. The numbers of all slots up to the greatest
/// that was ever named stay in memory, so name those that `free_slot` answers.
pub struct Seats {
    slots: SlotTable,
    counts: Counts,
}

// A function of its own, so that callers that let a value go need not look into it.
impl Drop for Seats {
    fn drop(self) {
        let Seats { slots, counts } = self;
        drop(slots);
        drop(counts);
    }
}

impl Model for Seats {
    ghost use Rattle.std.specs.Prelude.{List, ℕ};
    ghost use Rattle.adr_seats.specs.Seats.{IsCountOf};
    ghost use Rattle.adr_seats.specs.Table.{numbers};

    ghost Value = { List ℕ };

    ghost view = { λ s. numbers s.slots };

    ghost invariant = { λ s. IsCountOf (numbers s.counts) (numbers s.slots) };
}

impl Seats {
    /// No places.
    pub fn new(alloc: Global) -> Seats
        ensures { result ≡ [] }
    {
        Seats {
            slots: SlotTable::new(alloc),
            counts: Counts::new(alloc),
        }
    }

    /// How many places there are.
    pub fn len(&self) -> usize
        ensures { result ≡ length self.now }
    {
        self.slots.len()
    }

    /// The slot of the place.
    pub fn slot(&self, place: usize) -> Option<u64>
        ensures value { result ≡ slice_get self.now place }
        ensures below { IfSome result (λ slot. slot < 2 ^ 32) }
    {
        match self.slots.get(place) {
            Some(slot) => Some(u64::from(slot)),
            None => None,
        }
    }

    /// How many places have the slot. Cost: one look-up.
    pub fn members(&self, slot: u64) -> usize
        ensures { result ≡ members_of slot self.now }
    {
        self.counts.of(slot)
    }

    /// Whether a place has the slot. Cost: one look-up.
    pub fn is_taken(&self, slot: u64) -> bool
        ensures { result ≡ list_any (λ s. s == slot) self.now }
    {
        self.counts.of(slot) != 0
    }

    /// A slot that no place has: the one that was left last, if any, else the one after all that were ever named.
    /// Cost: one look-up.
    ///
    /// # Errors
    ///
    /// `NoMemory` where each of 2^31 was named, and none that was left is known.
    pub fn free_slot(&self) -> Result<u64, Refusal>
        ensures free { IfOk result (λ slot. list_any (λ s. s == slot) self.now ≡ false) }
        ensures below { IfOk result (λ slot. slot < 2 ^ 32) }
        ensures refusal { OnlyNoMemory result }
    {
        let slot = self.counts.free()?;
        Ok(slot)
    }

    /// Adds a place last, with the slot.
    ///
    /// # Errors
    ///
    /// `NoMemory` where there is no room, or the slot is not below 2^31; then each place has the slot it had.
    pub fn push(&mut self, slot: u64) -> Result<(), Refusal>
        ensures ok { OnOk result (self.new ≡ self.old ++ slot ∷ []) }
        ensures err { OnErr result (self.new ≡ self.old) }
        ensures refusal { OnlyNoMemory result }
    {
        let slot = narrow(slot)?;
        push_slot(&mut self.slots, &mut self.counts, slot)
    }

    /// Gives the place another slot.
    ///
    /// # Errors
    ///
    /// `NoMemory` where there is no room, or the slot is not below 2^31; then each place has the slot it had.
    pub fn set(&mut self, place: usize, slot: u64) -> Result<(), Refusal>
        requires { place < length self.old }
        ensures ok { OnOk result (self.new ≡ set self.old place slot) }
        ensures err { OnErr result (self.new ≡ self.old) }
        ensures refusal { OnlyNoMemory result }
    {
        let slot = narrow(slot)?;
        set_slot(&mut self.slots, &mut self.counts, place, slot)
    }

    /// The slots without the place, whose gap is closed. Cost: all places.
    ///
    /// # Errors
    ///
    /// `NoMemory` where there is no room for them.
    pub fn without(&self, place: usize) -> Result<Seats, Refusal>
        requires { place < length self.now }
        ensures { IsCopyOf result (remove self.now place) }
    {
        let Some(slot) = self.slots.get(place) else {
            unreachable!();
        };
        let mut counts = self.counts.copy()?;
        counts.own(slot)?;
        counts.take(slot);
        let slots = self.slots.without(place)?;
        Ok(Seats { slots, counts })
    }

    /// A copy of the slots. Cost: a pointer for each 512 places or slots, and the last of them; what is written later
    /// is copied then, 512 numbers at a time.
    ///
    /// # Errors
    ///
    /// `NoMemory` where there is no room for that, or the count of a chunk's sharers is full.
    pub fn copy(&self) -> Result<Seats, Refusal>
        ensures { IsCopyOf result self.now }
    {
        Ok(Seats {
            slots: self.slots.copy()?,
            counts: self.counts.copy()?,
        })
    }
}

/// The slot as it is kept.
fn narrow(slot: u64) -> Result<u32, Refusal>
    ensures ok { IfOk result (λ kept. kept ≡ slot) }
    ensures refusal { OnlyNoMemory result }
{
    if slot < 1 << 32 {
        Ok(slot as u32)
    } else {
        Err(Refusal::NoMemory)
    }
}

/// Adds a place last, with the slot.
fn push_slot(slots: &mut SlotTable, counts: &mut Counts, slot: u32) -> Result<(), Refusal>
    requires { IsCountOf (numbers counts.old) (numbers slots.old) }
    ensures ok { OnOk result (numbers slots.new ≡ numbers slots.old ++ slot ∷ []) }
    ensures err { OnErr result (numbers slots.new ≡ numbers slots.old) }
    ensures counts { IsCountOf (numbers counts.new) (numbers slots.new) }
    ensures refusal { OnlyNoMemory result }
{
    counts.reserve(slot)?;
    slots.push(slot)?;
    counts.add(slot);
    Ok(())
}

/// Gives the place another slot.
fn set_slot(
    slots: &mut SlotTable,
    counts: &mut Counts,
    place: usize,
    slot: u32,
) -> Result<(), Refusal>
    requires within { place < length (numbers slots.old) }
    requires counts { IsCountOf (numbers counts.old) (numbers slots.old) }
    ensures ok { OnOk result (numbers slots.new ≡ set (numbers slots.old) place slot) }
    ensures err { OnErr result (numbers slots.new ≡ numbers slots.old) }
    ensures counts { IsCountOf (numbers counts.new) (numbers slots.new) }
    ensures refusal { OnlyNoMemory result }
{
    let Some(left) = slots.get(place) else {
        unreachable!();
    };
    counts.reserve(slot)?;
    counts.own(left)?;
    slots.own(place)?;
    counts.take(left);
    counts.add(slot);
    slots.put(place, slot);
    Ok(())
}
