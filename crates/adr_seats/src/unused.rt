//! Slots that no place has.
ghost use Rattle.adr_refusal.specs.Answer.{OnlyNoMemory};

use adr_refusal::Refusal;
use std::alloc::Global;

/// Slots, that which was put last on top. Who asks for it sees for himself whether a place has it, so nothing is
/// promised of what they are.
pub(crate) struct Unused {
    slots: Vec<u32>,
}

// A function of its own, so that callers that let a value go need not look into it.
impl Drop for Unused {
    fn drop(self) {
        let Unused { slots } = self;
        drop(slots);
    }
}

impl Unused {
    /// No slots.
    pub(crate) fn new(alloc: Global) -> Unused {
        Unused {
            slots: Vec::new(alloc),
        }
    }

    /// The slot that was put last.
    pub(crate) fn last(&self) -> Option<u32> {
        self.slots.last().copied()
    }

    /// Makes room for one slot more.
    ///
    /// # Errors
    ///
    /// `NoMemory` where it isn't given.
    pub(crate) fn reserve(&mut self) -> Result<(), Refusal>
        ensures refusal { OnlyNoMemory result }
    {
        self.slots.reserve(1)?;
        Ok(())
    }

    /// Puts the slot on top, where no places are left in it. One for which no room was made may be left out.
    pub(crate) fn put(&mut self, slot: u32, left: u32) {
        if left == 0 {
            let _ = self.slots.push(slot);
        }
    }

    /// Takes the slot out, where no places were in it. Cost: a look at those that were put after it.
    pub(crate) fn take(&mut self, slot: u32, members: u32) {
        if members != 0 {
            return;
        }
        let mut place = self.slots.len();
        while place > 0 {
            place -= 1;
            if self.slots[place] == slot {
                self.slots.remove(place);
                return;
            }
        }
    }

    /// A copy of the slots, with memory of its own.
    ///
    /// # Errors
    ///
    /// `NoMemory` where there is no room for it.
    pub(crate) fn copy(&self) -> Result<Unused, Refusal>
        ensures refusal { OnlyNoMemory result }
    {
        let alloc = *self.slots.allocator();
        Ok(Unused {
            slots: Vec::from_slice(alloc, &self.slots)?,
        })
    }
}
