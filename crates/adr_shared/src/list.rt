//! Lists that grow at their end and whose copies share their memory.
ghost use Rattle.std.specs.Prelude.{◌≡◌, ◌++◌, ◌∷◌, [], length, slice_get};
ghost use Rattle.std.specs.Option.{option_copied};
ghost use Rattle.adr_refusal.specs.Copy.{IsCopyOf};

use crate::map::SharedMap;
use adr_refusal::{Refusal, TryClone};
use std::alloc::Global;
use std::marker::Model;

/// A list that no edit changes: one with a value more shares with the old one all but a path of nodes, 41 at most at a
/// million values.
pub struct SharedList<T: TryClone> {
    values: SharedMap<u64, T>,
    next: u64,
}

// A function of its own, so that callers that let a value go need not look into it.
impl<T: TryClone> Drop for SharedList<T> {
    fn drop(self) {
        let SharedList { values, next: _ } = self;
        drop(values);
    }
}

impl<T: TryClone> Model for SharedList<T> {
    ghost use Rattle.std.specs.Prelude.{List};
    ghost use Rattle.std.specs.Map.{values_of};
    ghost use Rattle.adr_shared.specs.Map.{AreBelow};

    ghost Value = { List T };

    ghost view = { λ l. values_of l.values };

    ghost invariant = { λ l. AreBelow l.next l.values };
}

impl<T: TryClone> SharedList<T> {
    /// The empty list. It takes no memory.
    pub fn new() -> SharedList<T>
        ensures { result ≡ [] }
    {
        SharedList {
            values: SharedMap::new(),
            next: 0,
        }
    }

    /// How many values there are.
    pub fn len(&self) -> usize
        ensures { result ≡ length self.now }
    {
        self.values.len()
    }

    /// The value at the place, counted from 0. It goes down one path.
    pub fn at(&self, place: usize) -> Option<&T>
        ensures { option_copied result ≡ slice_get self.now place }
    {
        self.values.at(place)
    }

    /// The list with one more value, which goes last.
    ///
    /// # Errors
    ///
    /// `NoMemory` where there is no room for it, and where a count of the map behind it is full, as
    /// [`SharedMap::put`] says.
    pub fn with(&self, alloc: Global, value: T) -> Result<SharedList<T>, Refusal>
        ensures { IsCopyOf result (self.now ++ value ∷ []) }
    {
        if self.next == u64::MAX {
            return Err(Refusal::NoMemory);
        }
        Ok(SharedList {
            values: self.values.put(alloc, self.next, value)?,
            next: self.next + 1,
        })
    }

    /// A copy that shares this list's memory, whatever its length.
    ///
    /// # Errors
    ///
    /// `NoMemory` only where the count of its owners is full.
    pub fn copy(&self) -> Result<SharedList<T>, Refusal>
        ensures { IsCopyOf result self.now }
    {
        Ok(SharedList {
            values: self.values.copy()?,
            next: self.next,
        })
    }
}
