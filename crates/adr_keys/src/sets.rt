//! Which places offer each key.
ghost use Rattle.std.specs.Prelude.{◌≡◌, ℕ, ◌==◌, not, ◌&&◌, ◌||◌, false, true, IsTrue, OnOk};
ghost use Rattle.indexmap.specs.IndexMap.{get};
ghost use Rattle.adr_keys.specs.Key.{same_key};
ghost use Rattle.adr_keys.specs.Places.{has, fits, before_closing};
ghost use Rattle.adr_keys.specs.Rows.{offers_key};
ghost use Rattle.adr_keys.specs.Sets.{holds, is_ready};
ghost use Rattle.adr_refusal.specs.Answer.{OnlyNoMemory};
ghost use Rattle.adr_keys.specs.declared.key.Key.{Key};

use crate::blocks::Blocks;
use crate::key::Key;
use crate::places::Places;
use crate::row::Row;
use adr_value::Refusal;
use indexmap::IndexMap;
use std::alloc::Global;

/// For each key the set of the places that offer it. A key that is not there has the empty set.
pub(crate) struct Sets {
    places: IndexMap<Key, Blocks>,
}

// A function of its own, so that callers that let a value go need not look into it.
impl Drop for Sets {
    fn drop(self) {
        let Sets { places } = self;
        drop(places);
    }
}

impl Sets {
    /// No key has a place.
    pub(crate) fn new(alloc: Global) -> Sets
        ensures { (key : Key) (place : ℕ) → holds result.places key place ≡ false }
    {
        Sets {
            places: IndexMap::new(alloc),
        }
    }

    /// Adds the places that offer the key to a set, as far as it has room.
    pub(crate) fn add_to(&self, key: &Key, group: &mut Places)
        ensures places { (p : ℕ) → IsTrue (fits group.old p) → has group.new p ≡ (has group.old p || holds self.now.places key.now p) }
        ensures room { (p : ℕ) → fits group.new p ≡ fits group.old p }
    {
        match self.places.get(key) {
            Some(places) => group.add_all(places),
            None => {}
        }
    }

    /// Whether a place offers the key.
    pub(crate) fn has_any(&self, key: &Key) -> bool
        ensures some { result ≡ true → (p : ℕ) × (holds self.now.places key.now p ≡ true) }
        ensures none { result ≡ false → (p : ℕ) → holds self.now.places key.now p ≡ false }
    {
        match self.places.get(key) {
            Some(places) => places.has_any(),
            None => false,
        }
    }

    /// Makes room for the place in the set of the key.
    pub(crate) fn reserve(&mut self, alloc: Global, key: &Key, place: usize) -> Result<(), Refusal>
        ensures same { (k : Key) (p : ℕ) → holds self.new.places k p ≡ holds self.old.places k p }
        ensures ok { OnOk result (IsTrue (is_ready self.new.places key.now place)) }
        ensures kept { (k : Key) (p : ℕ) → IsTrue (is_ready self.old.places k p) → IsTrue (is_ready self.new.places k p) }
        ensures refusal { OnlyNoMemory result }
    {
        if let Some(places) = self.places.get_mut(key) {
            return places.reserve(place);
        }
        self.add(alloc, key, place)
    }

    /// Adds an empty set with room for the place.
    fn add(&mut self, alloc: Global, key: &Key, place: usize) -> Result<(), Refusal>
        requires { get same_key self.old.places key.now ≡ None }
        ensures same { (k : Key) (p : ℕ) → holds self.new.places k p ≡ holds self.old.places k p }
        ensures ok { OnOk result (IsTrue (is_ready self.new.places key.now place)) }
        ensures kept { (k : Key) (p : ℕ) → IsTrue (is_ready self.old.places k p) → IsTrue (is_ready self.new.places k p) }
        ensures refusal { OnlyNoMemory result }
    {
        let places = Blocks::with_room(alloc, place)?;
        let own = key.copy()?;
        self.places.insert(own, places)?;
        Ok(())
    }

    /// Puts the place into the set of the key.
    pub(crate) fn put(&mut self, key: &Key, place: usize)
        requires { IsTrue (is_ready self.old.places key.now place) }
        ensures places { (k : Key) (p : ℕ) → holds self.new.places k p ≡ ((same_key k key.now && (p == place)) || holds self.old.places k p) }
        ensures ready { (k : Key) (p : ℕ) → is_ready self.new.places k p ≡ is_ready self.old.places k p }
    {
        if let Some(places) = self.places.get_mut(key) {
            places.put(place);
        }
    }

    /// Takes the place out of the set of the key.
    pub(crate) fn take(&mut self, key: &Key, place: usize)
        ensures places { (k : Key) (p : ℕ) → holds self.new.places k p ≡ (not (same_key k key.now && (p == place)) && holds self.old.places k p) }
        ensures ready { (k : Key) (p : ℕ) → is_ready self.new.places k p ≡ is_ready self.old.places k p }
    {
        if let Some(places) = self.places.get_mut(key) {
            places.take(place);
        }
    }

    /// Lets the empty blocks of the set of the key go.
    fn shrink(&mut self, key: &Key)
        ensures { (k : Key) (p : ℕ) → holds self.new.places k p ≡ holds self.old.places k p }
    {
        if let Some(places) = self.places.get_mut(key) {
            places.prune();
        }
    }

    /// Whether the key has a set, and it is empty.
    fn is_unused(&self, key: &Key) -> bool
        ensures { result ≡ true → (p : ℕ) → holds self.now.places key.now p ≡ false }
    {
        match self.places.get(key) {
            Some(places) => places.is_empty(),
            None => false,
        }
    }

    /// Lets the set of the key go where it is empty.
    fn drop_empty(&mut self, key: &Key)
        ensures { (k : Key) (p : ℕ) → holds self.new.places k p ≡ holds self.old.places k p }
    {
        if self.is_unused(key) {
            drop(self.places.swap_remove(key));
        }
    }

    /// Lets what is empty of the set of the key go.
    fn prune(&mut self, key: &Key)
        ensures { (k : Key) (p : ℕ) → holds self.new.places k p ≡ holds self.old.places k p }
    {
        self.shrink(key);
        self.drop_empty(key);
    }

    /// Closes the gap at the place in every set.
    pub(crate) fn close(&mut self, place: usize)
        ensures { (k : Key) (p : ℕ) → holds self.new.places k p ≡ holds self.old.places k (before_closing place p) }
    {
        for index in 0..self.places.len() {
            match self.places.get_index_mut(index) {
                Some(places) => places.close(place),
                None => {}
            }
        }
    }

    /// Makes room for the place in the sets of all keys of the row.
    pub(crate) fn reserve_all(
        &mut self,
        alloc: Global,
        row: &Row,
        place: usize,
    ) -> Result<(), Refusal>
        ensures same { (k : Key) (p : ℕ) → holds self.new.places k p ≡ holds self.old.places k p }
        ensures ok { OnOk result ((k : Key) → offers_key row.now k ≡ true → IsTrue (is_ready self.new.places k place)) }
        ensures kept { (k : Key) (p : ℕ) → IsTrue (is_ready self.old.places k p) → IsTrue (is_ready self.new.places k p) }
        ensures refusal { OnlyNoMemory result }
    {
        for key in row.keys() {
            self.reserve(alloc, key, place)?;
        }
        Ok(())
    }

    /// Puts the place into the sets of all keys of the row.
    pub(crate) fn put_all(&mut self, row: &Row, place: usize)
        requires { (k : Key) → offers_key row.now k ≡ true → IsTrue (is_ready self.old.places k place) }
        ensures places { (k : Key) (p : ℕ) → holds self.new.places k p ≡ ((offers_key row.now k && (p == place)) || holds self.old.places k p) }
        ensures ready { (k : Key) (p : ℕ) → is_ready self.new.places k p ≡ is_ready self.old.places k p }
    {
        for key in row.keys() {
            self.put(key, place);
        }
    }

    /// Takes the place out of the sets of all keys of the row.
    pub(crate) fn take_all(&mut self, row: &Row, place: usize)
        ensures places { (k : Key) (p : ℕ) → holds self.new.places k p ≡ (not (offers_key row.now k && (p == place)) && holds self.old.places k p) }
        ensures ready { (k : Key) (p : ℕ) → is_ready self.new.places k p ≡ is_ready self.old.places k p }
    {
        for key in row.keys() {
            self.take(key, place);
        }
    }

    /// Lets the sets of the row's keys go where they are empty.
    pub(crate) fn prune_all(&mut self, row: &Row)
        ensures { (k : Key) (p : ℕ) → holds self.new.places k p ≡ holds self.old.places k p }
    {
        for key in row.keys() {
            self.prune(key);
        }
    }
}
