//! Rows of keys with an index of them.
ghost use Rattle.std.specs.Prelude.{◌≡◌, ◌++◌, ◌∷◌, [], ◌<◌, ℕ, true, ◌||◌, IsTrue, None, length, get_or, set, remove, OnOk, OnErr};
ghost use Rattle.std.specs.Option.{unwrap_or};
ghost use Rattle.adr_refusal.specs.Answer.{OnlyNoMemory};
ghost use Rattle.adr_keys.specs.Places.{has, fits};
ghost use Rattle.adr_keys.specs.Rows.{is_key_of, offers_key, renewed, offers_fresh};
ghost use Rattle.adr_keys.specs.Sets.{holds, is_ready, IsIndexOf};
ghost use Rattle.adr_keys.specs.declared.key.Key.{Key};

use crate::key::Key;
use crate::places::Places;
use crate::row::Row;
use crate::sets::Sets;
use adr_value::Refusal;
use std::alloc::Global;
use std::marker::Model;
use std::mem;

/// Rows of keys, each at its place, with an index from each key to the places that have it. Contracts see the list of
/// the rows.
pub struct KeyIndex {
    rows: Vec<Row>,
    sets: Sets,
    alloc: Global,
}

// A function of its own, so that callers that let a value go need not look into it.
impl Drop for KeyIndex {
    fn drop(self) {
        let KeyIndex {
            rows,
            sets,
            alloc: _,
        } = self;
        drop(rows);
        drop(sets);
    }
}

impl Model for KeyIndex {
    ghost use Rattle.std.specs.Prelude.{List};
    ghost use Rattle.adr_keys.specs.Sets.{IsIndexOf};
    ghost use Rattle.adr_keys.specs.declared.key.Key.{Key};

    ghost Value = { List (List Key) };

    ghost view = { λ i. i.rows.items };

    ghost invariant = { λ i. IsIndexOf i.sets.places i.rows.items };
}

impl KeyIndex {
    /// No rows.
    pub fn new(alloc: Global) -> KeyIndex
        ensures { result ≡ [] }
    {
        KeyIndex {
            rows: Vec::new(alloc),
            sets: Sets::new(alloc),
            alloc,
        }
    }

    /// How many rows there are.
    pub fn len(&self) -> usize
        ensures { result ≡ length self.now }
    {
        self.rows.len()
    }

    /// Whether a row has the key. Cost: a look-up.
    pub fn has_key(&self, key: &Key) -> bool
        ensures { result ≡ is_key_of self.now key.now }
    {
        self.sets.has_any(key)
    }

    /// Adds the places whose rows have the key to a set, as far as it has room. Cost: a look-up, and the words of the
    /// key's set.
    pub fn add_to(&self, key: &Key, group: &mut Places)
        ensures places { (p : ℕ) → IsTrue (fits group.old p) → has group.new p ≡ (has group.old p || offers_key (get_or self.now p []) key.now) }
        ensures room { (p : ℕ) → fits group.new p ≡ fits group.old p }
    {
        self.sets.add_to(key, group);
    }

    /// Adds a row last.
    ///
    /// # Errors
    ///
    /// `NoMemory` where there is no room for it; then the rows are as they were.
    pub fn push(&mut self, row: Row) -> Result<(), Refusal>
        ensures ok { OnOk result (self.new ≡ self.old ++ row ∷ []) }
        ensures err { OnErr result (self.new ≡ self.old) }
        ensures refusal { OnlyNoMemory result }
    {
        add_row(&mut self.rows, &mut self.sets, self.alloc, row)
    }

    /// Puts the row in the place of another. Cost: a look-up for each key of the two.
    ///
    /// # Errors
    ///
    /// `NoMemory` where there is no room for it; then the rows are as they were.
    pub fn replace(&mut self, place: usize, mut row: Row) -> Result<(), Refusal>
        requires { place < length self.old }
        ensures ok { OnOk result (self.new ≡ set self.old place row) }
        ensures err { OnErr result (self.new ≡ self.old) }
        ensures refusal { OnlyNoMemory result }
    {
        self.sets.reserve_all(self.alloc, &row, place)?;
        exchange(&mut self.rows, &mut self.sets, place, &mut row);
        self.sets.prune_all(&row);
        Ok(())
    }

    /// Takes the row at the place out, and closes the gap. It takes no memory. Cost: the words of all sets.
    pub fn remove(&mut self, place: usize)
        requires { place < length self.old }
        ensures { self.new ≡ remove self.old place }
    {
        drop_row(&mut self.rows, &mut self.sets, place);
    }

    /// Puts the fresh rows in the places of the rows that they stand at. What is left in `fresh` is not told.
    ///
    /// # Errors
    ///
    /// `NoMemory` where there is no room for one; then the rows are as they were.
    pub fn renew(&mut self, fresh: &mut Vec<Option<Row>>) -> Result<(), Refusal>
        requires { length fresh.old.items ≡ length self.old }
        ensures ok { OnOk result (self.new ≡ renewed fresh.old.items self.old) }
        ensures err { OnErr result (self.new ≡ self.old) }
        ensures refusal { OnlyNoMemory result }
    {
        reserve_fresh(&mut self.sets, self.alloc, fresh.as_slice())?;
        exchange_all(&mut self.rows, &mut self.sets, fresh);
        prune_fresh(&mut self.sets, fresh.as_slice());
        Ok(())
    }
}

/// Makes room for the fresh rows in the sets of their keys.
fn reserve_fresh(sets: &mut Sets, alloc: Global, fresh: &[Option<Row>]) -> Result<(), Refusal>
    ensures same { (k : Key) (p : ℕ) → holds sets.new.places k p ≡ holds sets.old.places k p }
    ensures ready { OnOk result ((p : ℕ) (k : Key) → offers_fresh (get_or fresh.now p None) k ≡ true → IsTrue (is_ready sets.new.places k p)) }
    ensures refusal { OnlyNoMemory result }
{
    for place in 0..fresh.len() {
        reserve_row(sets, alloc, &fresh[place], place)?;
    }
    Ok(())
}

fn reserve_row(
    sets: &mut Sets,
    alloc: Global,
    row: &Option<Row>,
    place: usize,
) -> Result<(), Refusal>
    ensures same { (k : Key) (p : ℕ) → holds sets.new.places k p ≡ holds sets.old.places k p }
    ensures ready { OnOk result ((k : Key) → offers_fresh row.now k ≡ true → IsTrue (is_ready sets.new.places k place)) }
    ensures kept { (k : Key) (p : ℕ) → IsTrue (is_ready sets.old.places k p) → IsTrue (is_ready sets.new.places k p) }
    ensures refusal { OnlyNoMemory result }
{
    match row {
        Some(row) => sets.reserve_all(alloc, row, place),
        None => Ok(()),
    }
}

/// Lets the sets go that are empty since the fresh rows were put.
fn prune_fresh(sets: &mut Sets, fresh: &[Option<Row>])
    ensures { (k : Key) (p : ℕ) → holds sets.new.places k p ≡ holds sets.old.places k p }
{
    for row in fresh {
        prune_row(sets, row);
    }
}

fn prune_row(sets: &mut Sets, row: &Option<Row>)
    ensures { (k : Key) (p : ℕ) → holds sets.new.places k p ≡ holds sets.old.places k p }
{
    match row {
        Some(row) => sets.prune_all(row),
        None => {}
    }
}

/// Puts the fresh rows in the places of the rows that they stand at, with room for them in the sets.
fn exchange_all(rows: &mut Vec<Row>, sets: &mut Sets, fresh: &mut Vec<Option<Row>>)
    requires count { length fresh.old.items ≡ length rows.old.items }
    requires index { IsIndexOf sets.old.places rows.old.items }
    requires ready { (p : ℕ) (k : Key) → offers_fresh (get_or fresh.old.items p None) k ≡ true → IsTrue (is_ready sets.old.places k p) }
    ensures rows { rows.new.items ≡ renewed fresh.old.items rows.old.items }
    ensures index { IsIndexOf sets.new.places rows.new.items }
{
    for place in 0..rows.len() {
        exchange_fresh(rows, sets, place, &mut fresh[place]);
    }
}

/// Puts the row, where there is one, in the place of another, which it hands back.
fn exchange_fresh(rows: &mut Vec<Row>, sets: &mut Sets, place: usize, row: &mut Option<Row>)
    requires within { place < length rows.old.items }
    requires index { IsIndexOf sets.old.places rows.old.items }
    requires ready { (k : Key) → offers_fresh row.old k ≡ true → IsTrue (is_ready sets.old.places k place) }
    ensures rows { rows.new.items ≡ set rows.old.items place (unwrap_or row.old (get_or rows.old.items place [])) }
    ensures index { IsIndexOf sets.new.places rows.new.items }
    ensures ready { (k : Key) (p : ℕ) → is_ready sets.new.places k p ≡ is_ready sets.old.places k p }
{
    match row {
        Some(row) => exchange(rows, sets, place, row),
        None => {}
    }
}

/// Puts a row in the place of another, which it hands back, with room for it in the sets.
fn exchange(rows: &mut Vec<Row>, sets: &mut Sets, place: usize, row: &mut Row)
    requires within { place < length rows.old.items }
    requires index { IsIndexOf sets.old.places rows.old.items }
    requires ready { (k : Key) → offers_key row.old k ≡ true → IsTrue (is_ready sets.old.places k place) }
    ensures rows { rows.new.items ≡ set rows.old.items place row.old }
    ensures index { IsIndexOf sets.new.places rows.new.items }
    ensures ready { (k : Key) (p : ℕ) → is_ready sets.new.places k p ≡ is_ready sets.old.places k p }
{
    sets.take_all(&rows[place], place);
    sets.put_all(row, place);
    mem::swap(&mut rows[place], row);
}

/// Adds a row last.
fn add_row(rows: &mut Vec<Row>, sets: &mut Sets, alloc: Global, row: Row) -> Result<(), Refusal>
    requires { IsIndexOf sets.old.places rows.old.items }
    ensures ok { OnOk result (rows.new.items ≡ rows.old.items ++ row ∷ []) }
    ensures err { OnErr result (rows.new.items ≡ rows.old.items) }
    ensures index { IsIndexOf sets.new.places rows.new.items }
    ensures refusal { OnlyNoMemory result }
{
    let place = rows.len();
    sets.reserve_all(alloc, &row, place)?;
    rows.push(row)?;
    sets.put_all(&rows[place], place);
    Ok(())
}

/// Takes the row at the place out, and closes the gap.
fn drop_row(rows: &mut Vec<Row>, sets: &mut Sets, place: usize)
    requires within { place < length rows.old.items }
    requires index { IsIndexOf sets.old.places rows.old.items }
    ensures rows { rows.new.items ≡ remove rows.old.items place }
    ensures index { IsIndexOf sets.new.places rows.new.items }
{
    let row = rows.remove(place);
    sets.take_all(&row, place);
    sets.prune_all(&row);
    sets.close(place);
}
