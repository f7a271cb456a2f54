//! Chunks of numbers, of one table or of several.
ghost use Rattle.std.specs.Prelude.{◌≡◌, ◌<◌, true, false, length, set, IfOk};
ghost use Rattle.std.specs.List.{slice_get};
ghost use Rattle.adr_refusal.specs.Answer.{OnlyNoMemory};
ghost use Rattle.adr_refusal.specs.Copy.{IsCopyOf};

use adr_refusal::Refusal;
use std::alloc::Global;
use std::marker::Model;
use std::sync::Arc;

/// Numbers that may be written, or that are shared with other chunks. Contracts see which, and their list.
pub(crate) struct SlotChunk {
    own: Vec<u32>,
    shared: Option<Arc<Vec<u32>>>,
}

// A function of its own, so that callers that let a value go need not look into it.
impl Drop for SlotChunk {
    fn drop(self) {
        let SlotChunk { own, shared } = self;
        drop(own);
        drop(shared);
    }
}

impl Model for SlotChunk {
    ghost use Rattle.std.specs.Prelude.{Bool, List, ℕ, option_map};
    ghost use Rattle.std.specs.Arc.{arc_value};
    ghost use Rattle.std.specs.Vec.{vec_items};
    ghost use Rattle.adr_seats.specs.Table.{shown};

    ghost Value = { Bool × List ℕ };

    ghost view = { λ c. shown c.own.items (option_map vec_items (option_map arc_value c.shared)) };
}

impl SlotChunk {
    /// A chunk of these numbers, which may be written.
    ///
    /// # Errors
    ///
    /// `NoMemory` where there is no room for them.
    pub(crate) fn own(alloc: Global, numbers: &[u32]) -> Result<SlotChunk, Refusal>
        ensures { IsCopyOf result (true, numbers.now) }
    {
        Ok(SlotChunk {
            own: Vec::from_slice(alloc, numbers)?,
            shared: None,
        })
    }

    /// The numbers, shared or not.
    pub(crate) fn numbers(&self) -> &[u32]
        ensures { result.now ≡ self.now.1 }
    {
        match &self.shared {
            None => &self.own,
            Some(shared) => shared,
        }
    }

    /// Whether the numbers may be written.
    pub(crate) fn is_own(&self) -> bool
        ensures { result ≡ self.now.0 }
    {
        self.shared.is_none()
    }

    /// Writes the number.
    pub(crate) fn put(&mut self, place: usize, number: u32)
        requires own { self.old.0 ≡ true }
        requires within { place < length self.old.1 }
        ensures { self.new ≡ (true, set self.old.1 place number) }
    {
        self.own[place] = number;
    }

    /// A chunk of these numbers that others may share: it has the memory of shared ones, and a copy of those that may
    /// be written.
    ///
    /// # Errors
    ///
    /// `NoMemory` where there is no room for the copy, or the count of the sharers is full.
    pub(crate) fn share(&self) -> Result<SlotChunk, Refusal>
        ensures { IsCopyOf result (false, self.now.1) }
    {
        let alloc = *self.own.allocator();
        let shared = match &self.shared {
            None => Arc::new(alloc, Vec::from_slice(alloc, &self.own)?)?,
            Some(shared) => shared.clone()?,
        };
        Ok(SlotChunk {
            own: Vec::new(alloc),
            shared: Some(shared),
        })
    }
}
