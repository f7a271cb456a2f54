//! Values under their ids, in the order in which they were added.
ghost use Rattle.std.specs.Prelude.{◌≡◌, ◌+◌, ◌<◌, ◌^◌, ◌++◌, ◌∷◌, [], length, map, slice_get, is_some, None, IsSome, IfSome};
ghost use Rattle.std.specs.Option.{option_copied};
ghost use Rattle.std.specs.List.{IsDistinct};
ghost use Rattle.std.specs.Str.{bytes_eq};
ghost use Rattle.adr_refusal.specs.Copy.{IsCopyOf};
ghost use Rattle.adr_store.specs.Table.{find_by, put_by, without, dense_with};

use adr_object::{Id, IdText};
use adr_shared::SharedMap;
use adr_value::{Refusal, TryClone};
use std::alloc::Global;
use std::marker::Model;

/// A value that is found by an id in it.
pub trait Keyed: Drop {
    ghost use Rattle.std.specs.Prelude.{ℕ, List};

    ghost key: { Self → List ℕ };

    /// The id that the value is found by.
    fn id(&self) -> &Id
        ensures { result.now ≡ key self.now };
}

/// Values under their ids, in the order in which they were added. No edit changes a table: it answers a new one, which
/// shares with the old one all but a path of some 15 nodes at 16,384 values.
#[derive(Drop)]
pub struct Table<T: Keyed + TryClone> {
    rows: SharedMap<u64, T>,
    numbers: SharedMap<Id, u64>,
    next: u64,
    // The values of the numbers below this one stand at the places of their numbers. It is the next number until a value
    // is taken out.
    dense: u64,
    alloc: Global,
}

/// Up to which number the values stand at the places of their numbers, where one of the next number is added at that
/// place.
fn dense_with(dense: u64, next: u64, place: usize) -> u64
    requires { next + 1 < 2 ^ 64 }
    ensures { result ≡ dense_with dense next place }
{
    if dense == next && place as u64 == next {
        next + 1
    } else {
        dense
    }
}

impl<T: Keyed + TryClone> Model for Table<T> {
    ghost use Rattle.std.specs.Prelude.{List};
    ghost use Rattle.std.specs.Map.{values_of};
    ghost use Rattle.adr_store.specs.Table.{IsTable, AreAtNumbers};

    ghost Value = { List T };

    ghost view = { λ t. values_of t.rows };

    ghost invariant = { λ t. IsTable T.key t.rows t.numbers t.next × AreAtNumbers t.dense t.rows };
}

impl<T: Keyed + TryClone> Table<T> {
    /// The empty table.
    pub fn new(alloc: Global) -> Table<T>
        ensures { result ≡ [] }
    {
        Table {
            rows: SharedMap::new(),
            numbers: SharedMap::new(),
            next: 0,
            dense: 0,
            alloc,
        }
    }

    /// How many values there are.
    pub fn len(&self) -> usize
        ensures value { result ≡ length self.now }
        ensures distinct { IsDistinct bytes_eq (map T.key self.now) }
    {
        self.rows.len()
    }

    /// The value with the id.
    pub fn get(&self, id: &Id) -> Option<&T>
        ensures value { option_copied result ≡ find_by T.key self.now id.now }
        ensures distinct { IsDistinct bytes_eq (map T.key self.now) }
    {
        match self.numbers.get(id) {
            Some(number) => self.rows.get(number),
            None => None,
        }
    }

    /// The value at the place, counted from 0.
    pub fn at(&self, place: usize) -> Option<&T>
        ensures { option_copied result ≡ slice_get self.now place }
    {
        self.rows.at(place)
    }

    /// The place of the value with the id, counted from 0. Where no value was taken out that was added before it, that is
    /// its number.
    pub fn place(&self, id: IdText<'_>) -> Option<usize>
        ensures found { is_some result ≡ is_some (find_by T.key self.now id.entry) }
        ensures value { IfSome result (λ place. slice_get self.now place ≡ find_by T.key self.now id.entry) }
    {
        match self.numbers.seek(&id) {
            Some(number) if *number < self.dense => Some(*number as usize),
            Some(number) => self.rows.place(number),
            None => None,
        }
    }

    /// The table with one more value, which goes last.
    ///
    /// # Errors
    ///
    /// `NoMemory` where there is no room for it, and after 18,446,744,073,709,551,615 values.
    pub fn with_new(&self, value: T) -> Result<Table<T>, Refusal>
        requires { find_by T.key self.now (T.key value) ≡ None }
        ensures { IsCopyOf result (self.now ++ value ∷ []) }
    {
        let id = value.id().copy()?;
        if self.next == u64::MAX {
            return Err(Refusal::NoMemory);
        }
        Ok(Table {
            rows: self.rows.put(self.alloc, self.next, value)?,
            numbers: self.numbers.put(self.alloc, id, self.next)?,
            dense: dense_with(self.dense, self.next, self.rows.len()),
            next: self.next + 1,
            alloc: self.alloc,
        })
    }

    /// The table with the value in the place of the one with its id.
    ///
    /// # Errors
    ///
    /// `NoMemory` where there is no room for it.
    pub fn with_changed(&self, value: T) -> Result<Table<T>, Refusal>
        requires { IsSome (find_by T.key self.now (T.key value)) }
        ensures { IsCopyOf result (put_by T.key self.now value) }
    {
        let Some(number) = self.numbers.get(value.id()) else {
            unreachable!();
        };
        Ok(Table {
            rows: self.rows.put(self.alloc, *number, value)?,
            numbers: self.numbers.copy()?,
            next: self.next,
            dense: self.dense,
            alloc: self.alloc,
        })
    }

    /// The table without the value with the id; the values after it move up.
    ///
    /// # Errors
    ///
    /// `NoMemory` where there is no room for the new paths.
    pub fn without(&self, id: &Id) -> Result<Table<T>, Refusal>
        ensures { IsCopyOf result (without T.key self.now id.now) }
    {
        match self.numbers.get(id) {
            Some(number) => Ok(Table {
                rows: self.rows.without(self.alloc, number)?,
                numbers: self.numbers.without(self.alloc, id)?,
                next: self.next,
                dense: self.dense.min(*number),
                alloc: self.alloc,
            }),
            None => self.copy(),
        }
    }

    /// A copy that shares its memory, whatever its size.
    ///
    /// # Errors
    ///
    /// `NoMemory`, only where the count of its owners is full.
    pub fn copy(&self) -> Result<Table<T>, Refusal>
        ensures { IsCopyOf result self.now }
    {
        Ok(Table {
            rows: self.rows.copy()?,
            numbers: self.numbers.copy()?,
            next: self.next,
            dense: self.dense,
            alloc: self.alloc,
        })
    }
}
