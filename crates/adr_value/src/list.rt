//! Lists with a limit on their length.
ghost use Rattle.std.specs.Prelude.{◌≡◌, ◌≤◌, ◌<◌, ◌^◌, ◌==◌, ◌∷◌, ◌++◌, [], length, IfOk, OnOk, OnErr};
ghost use Rattle.adr_refusal.specs.Answer.{OnlyNoMemory};
ghost use Rattle.adr_refusal.specs.Copy.{IsCopyOf};

use adr_refusal::{Refusal, TryClone};
use std::alloc::Global;
use std::marker::Model;
use std::{mem, slice};

// How many elements there is room for once a list has a second one.
const FIRST_ROOM: usize = 8;

/// One element in place, as most lists of payloads and values have it, or any number in a vector.
#[derive(Drop, Debug)]
pub(crate) enum Items<T> {
    One(T),
    Many(Vec<T>),
}

impl<T: Drop> Items<T> {
    ghost use Rattle.adr_value.specs.Items.{items_of};

    // Adds an element at the end.
    fn push(&mut self, alloc: Global, item: T) -> Result<(), Refusal>
        ensures added { OnOk result (items_of self.new ≡ items_of self.old ++ item ∷ []) }
        ensures kept { OnErr result (items_of self.new ≡ items_of self.old) }
        ensures memory { OnlyNoMemory result }
    {
        match self {
            Items::Many(items) if !items.is_empty() => items.push(item)?,
            Items::Many(_) => *self = Items::One(item),
            Items::One(_) => {
                let items = Vec::with_capacity(alloc, FIRST_ROOM)?;
                if let Items::One(first) = mem::replace(self, Items::Many(Vec::new(alloc))) {
                    *self = Items::Many(with_two(items, first, item));
                }
            }
        }
        Ok(())
    }
}

// The empty vector with two elements, which it has room for.
fn with_two<T: Drop>(mut items: Vec<T>, first: T, second: T) -> Vec<T>
    requires empty { items.items ≡ [] }
    requires room { 2 ≤ items.cap }
    ensures { result.items ≡ first ∷ second ∷ [] }
{
    items.push_reserved(first);
    items.push_reserved(second);
    items
}

/// A list of at most `LIMIT` elements, which contracts see as its elements in order. A list of one takes no memory of
/// its own.
#[derive(Debug)]
pub struct BoundedVec<T, const LIMIT: usize> {
    items: Items<T>,
}

// A function of its own, so that callers that let a value go need not look into it.
impl<T: Drop, const LIMIT: usize> Drop for BoundedVec<T, LIMIT> {
    fn drop(self) {
        let BoundedVec { items } = self;
        drop(items);
    }
}

impl<T, const LIMIT: usize> Model for BoundedVec<T, LIMIT> {
    ghost use Rattle.std.specs.Prelude.{List, length, ◌≤◌};
    ghost use Rattle.adr_value.specs.Items.{items_of};

    ghost Value = { List T };

    ghost view = { λ l. items_of l.items };

    ghost invariant = { λ l. length (items_of l.items) ≤ LIMIT };
}

impl<T: Drop, const LIMIT: usize> BoundedVec<T, LIMIT> {
    /// The empty list. It takes no memory before it is added to.
    pub fn new(alloc: Global) -> BoundedVec<T, LIMIT>
        ensures { result ≡ [] }
    {
        BoundedVec {
            items: Items::Many(Vec::new(alloc)),
        }
    }

    /// The list of these elements, with no memory taken and no room to spare.
    pub fn from_vec(mut items: Vec<T>) -> BoundedVec<T, LIMIT>
        requires { length items.items ≤ LIMIT }
        ensures { result ≡ items.items }
    {
        if items.len() != 1 {
            items.shrink_to_fit();
            return BoundedVec {
                items: Items::Many(items),
            };
        }
        match items.pop() {
            Some(item) => BoundedVec {
                items: Items::One(item),
            },
            None => unreachable!(),
        }
    }

    /// Adds an element at the end: the first in place, and from the second on as a vector does.
    ///
    /// # Errors
    ///
    /// `NoMemory` where the list can't grow; then it is as it was.
    pub fn push(&mut self, alloc: Global, item: T) -> Result<(), Refusal>
        requires { length self.old < LIMIT }
        ensures added { OnOk result (self.new ≡ self.old ++ item ∷ []) }
        ensures kept { OnErr result (self.new ≡ self.old) }
        ensures memory { OnlyNoMemory result }
    {
        self.items.push(alloc, item)
    }

    /// Gives back the room that there is to spare.
    pub fn shrink_to_fit(&mut self)
        ensures { self.new ≡ self.old }
    {
        if let Items::Many(items) = &mut self.items {
            items.shrink_to_fit();
        }
    }

    /// The elements, in order.
    pub fn as_slice(&self) -> &[T]
        ensures value { result.now ≡ self.now }
        ensures limit { length self.now ≤ LIMIT }
    {
        match &self.items {
            Items::One(item) => slice::from_ref(item),
            Items::Many(items) => items.as_slice(),
        }
    }

    /// How many elements there are.
    pub fn len(&self) -> usize
        ensures value { result ≡ length self.now }
        ensures limit { result ≤ LIMIT }
        ensures signed { result < 2 ^ 63 }
    {
        match &self.items {
            Items::One(_) => 1,
            Items::Many(items) => items.len(),
        }
    }

    /// Whether there are no elements.
    pub fn is_empty(&self) -> bool
        ensures { result ≡ (length self.now == 0) }
    {
        self.as_slice().is_empty()
    }
}

impl<T: TryClone, const LIMIT: usize> BoundedVec<T, LIMIT> {
    /// A list equal to this one, with a copy of each element: one growth for a list of more than one element, and what
    /// the copies of the elements take.
    ///
    /// # Errors
    ///
    /// `NoMemory` where there is no room for the list, or an element's copy is refused.
    pub fn copy(&self) -> Result<BoundedVec<T, LIMIT>, Refusal>
        ensures { IsCopyOf result self.now }
    {
        let items = match &self.items {
            Items::One(item) => Items::One(item.try_clone()?),
            Items::Many(items) => Items::Many(copy_all(*items.allocator(), items.as_slice())?),
        };
        Ok(BoundedVec { items })
    }
}

/// A vector of copies of the elements, with no room to spare.
fn copy_all<T: TryClone>(alloc: Global, items: &[T]) -> Result<Vec<T>, Refusal>
    ensures items { IfOk result (λ copies. copies.items ≡ items.now) }
    ensures refusal { OnlyNoMemory result }
{
    let mut copies = Vec::with_capacity(alloc, items.len())?;
    for item in items {
        copies.push_reserved(item.try_clone()?);
    }
    Ok(copies)
}

impl<T: TryClone, const LIMIT: usize> TryClone for BoundedVec<T, LIMIT> {
    fn try_clone(&self) -> Result<BoundedVec<T, LIMIT>, Refusal> {
        self.copy()
    }
}
