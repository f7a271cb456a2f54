//! Maps whose copies share their memory.
ghost use Rattle.std.specs.Prelude.{◌≡◌, ◌+◌, ◌/◌, ◌^◌, ◌<◌, ◌≤◌, [], length, slice_get, option_map};
ghost use Rattle.std.specs.Option.{option_copied};
ghost use Rattle.adr_refusal.specs.Copy.{IsCopyOf};
ghost use Rattle.adr_shared.specs.Map.{IsAscending, lookup, put, without, place_of};
ghost use Rattle.adr_shared.specs.Laws.{PutIsFound, TakenIsGone};

use crate::key::{Itself, MapKey, Sought};
use crate::tree::Tree;
use adr_refusal::{Refusal, TryClone};
use std::alloc::Global;
use std::marker::Model;

/// A map that no edit changes: an edit answers a new map, which shares with the old one all but the path to the
/// place of the edit.
///
/// Contracts see it as its entries, each the code of its key and its value, in the order of the codes. With `n`
/// entries a path has at most `2 log2 (n + 1) + 1` nodes, 29 at 16,384: see `height`. There are at most 4,294,967,295
/// entries.
pub struct SharedMap<K: MapKey, V: TryClone> {
    tree: Tree<K, V>,
}

// A function of its own, so that callers that let a value go need not look into it.
impl<K: MapKey, V: TryClone> Drop for SharedMap<K, V> {
    fn drop(self) {
        let SharedMap { tree } = self;
        drop(tree);
    }
}

impl<K: MapKey, V: TryClone> Model for SharedMap<K, V> {
    ghost use Rattle.std.specs.Prelude.{List, ℕ};
    ghost use Rattle.adr_shared.specs.Map.{IsAscending};

    ghost Value = { List (List ℕ × V) };

    ghost view = { λ m. m.tree.0 };

    ghost invariant = { λ m. IsAscending m.tree.0 };
}

impl<K: MapKey, V: TryClone> SharedMap<K, V> {
    /// The map without entries. It takes no memory.
    pub fn new() -> SharedMap<K, V>
        ensures { result ≡ [] }
    {
        SharedMap { tree: Tree::new() }
    }

    /// How many entries there are.
    pub fn len(&self) -> usize
        ensures { result ≡ length self.now }
    {
        self.tree.count() as usize
    }

    /// The value at a key, where the key is there. It compares the keys of one path.
    pub fn get(&self, key: &K) -> Option<&V>
        ensures { option_copied result ≡ lookup (K.code key.now) self.now }
    {
        self.tree.get(&Itself { key })
    }

    /// The value at a key that is sought by a form of it, where the key is there. It compares the keys of one path.
    pub fn seek<Q: Sought<K>>(&self, key: &Q) -> Option<&V>
        ensures { option_copied result ≡ lookup (Q.code key.now) self.now }
    {
        self.tree.get(key)
    }

    /// The value at a place, from 0, in the order of the keys. It goes down one path.
    pub fn at(&self, place: usize) -> Option<&V>
        ensures { option_copied result ≡ option_map (λ e. e.1) (slice_get self.now place) }
    {
        self.tree.at(place)
    }

    /// The key at a place, from 0, in the order of the keys. It goes down one path.
    pub fn key_at(&self, place: usize) -> Option<&K>
        ensures { option_map K.code (option_copied result) ≡ option_map (λ e. e.0) (slice_get self.now place) }
    {
        self.tree.key_at(place)
    }

    /// The place of a key in the order of the keys, from 0, where the key is there. It compares the keys of one path.
    pub fn place(&self, key: &K) -> Option<usize>
        ensures { result ≡ place_of (K.code key.now) self.now }
    {
        self.tree.place(key)
    }

    /// The map with this value at the key, in place of the key's old value if it has one. It makes the nodes of one
    /// path anew, and at most two more to keep the paths short.
    ///
    /// # Errors
    ///
    /// `NoMemory` where there is no room for the nodes or a key's or a value's copy, and where the count of the entries
    /// or of a node's owners is full.
    pub fn put(&self, alloc: Global, key: K, value: V) -> Result<SharedMap<K, V>, Refusal>
        ensures { IsCopyOf result (put (K.code key) value self.now) }
    {
        Ok(SharedMap {
            tree: self.tree.put(alloc, key, value)?,
        })
    }

    /// The map without the key, if it has it. It makes the nodes of one path anew, and at most two more for each to
    /// keep the paths short.
    ///
    /// # Errors
    ///
    /// `NoMemory` where there is no room for the nodes or a key's or a value's copy, and where the count of a node's
    /// owners is full.
    pub fn without(&self, alloc: Global, key: &K) -> Result<SharedMap<K, V>, Refusal>
        ensures { IsCopyOf result (without (K.code key.now) self.now) }
    {
        Ok(SharedMap {
            tree: self.tree.without(alloc, key)?,
        })
    }

    /// One more owner of the same map, whatever its size.
    ///
    /// # Errors
    ///
    /// `NoMemory` only where the count of its owners is full.
    pub fn copy(&self) -> Result<SharedMap<K, V>, Refusal>
        ensures { IsCopyOf result self.now }
    {
        Ok(SharedMap {
            tree: self.tree.copy()?,
        })
    }

    /// How many nodes the longest path has, and so how many keys a look-up compares at most. The law of the height: it
    /// is at least the logarithm of one more than the number of entries, 15 at 16,384, and at most twice that, 29.
    pub fn height(&self) -> u8
        ensures low { 2 ^ (result / 2) ≤ length self.now + 1 }
        ensures high { length self.now < 2 ^ result }
    {
        let _count = self.tree.count();
        self.tree.height()
    }

    /// The law of the order: the codes of the entries ascend, so that each key is there once.
    pub fn map_laws(&self)
        ensures { IsAscending self.now }
    {
        let _ = &self.tree;
    }
}

impl<K: MapKey, V: TryClone> TryClone for SharedMap<K, V> {
    fn try_clone(&self) -> Result<SharedMap<K, V>, Refusal> {
        self.copy()
    }
}

/// The laws of look-ups: after an edit the edited key has the new value or none, and every other what it had.
pub fn look_up_laws<V: Drop>()
    ensures put { PutIsFound V }
    ensures without { TakenIsGone V }
{}
