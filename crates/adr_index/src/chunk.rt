//! A chunk of an index: some entries in order, which is that of their ends too, or else under a tree of these.
ghost use Rattle.std.specs.Prelude.{◌≡◌, ◌+◌, ◌-◌, ◌*◌, ◌<◌, ◌≤◌, ◌++◌, ◌∷◌, [], ◌^◌, true, IfNone, IfOk, IfSome, OnOk, length, take, drop, vec_capacity};
ghost use Rattle.std.specs.List.{remove_range};
ghost use Rattle.adr_index.specs.Chunks.{listed_too, ArePooled, IsChunk, IsPooled, IsRoomy, IsSettled, StartsLast};
ghost use Rattle.adr_index.specs.Query.{any_late, hits, looks, wanted_of};
ghost use Rattle.adr_index.specs.Tree.{IsByEnd, IsByStart};
ghost use Rattle.adr_index.specs.Index.{inserted, inserted_all, others_all, IsOrdered};

use crate::by_end::{are_by_end, fits, last_of};
use crate::order::{comes_before, place_of};
use crate::reach::Reach;
use crate::tree::{digits, rebuild, search};
use crate::wanted::{Search, Wanted};
use adr_model::Entry;
use adr_rule::Meter;
use adr_time::Moment;
use std::alloc::{AllocError, Global};

/// How many entries a chunk has at most.
const MOST: usize = 64;

/// Some entries in order, whether that is the order of their ends too, else the tree of these, the greatest end, and when
/// the last entry starts. Its room is taken at once.
#[derive(Drop)]
pub(crate) struct EntryChunk {
    pub(crate) entries: Vec<Entry>,
    pub(crate) is_by_end: bool,
    pub(crate) greatest: Vec<Reach>,
    pub(crate) end: Reach,
    pub(crate) last: Moment,
}

/// When the last of the entries starts, where there is one.
fn last_start(entries: &[Entry]) -> Moment
    ensures { 0 < length entries.now → StartsLast result entries.now }
{
    match entries.last() {
        Some(entry) => entry.span.start,
        None => Moment::MIN,
    }
}

/// Takes out those from a place up to another. One alone is removed, which is faster than to copy those behind it.
fn take_between(entries: &mut Vec<Entry>, from: usize, to: usize)
    requires order { from ≤ to }
    requires within { to ≤ length entries.old.items }
    ensures entries { entries.new.items ≡ remove_range entries.old.items from to }
    ensures fewer { length entries.new.items + (to - from) ≡ length entries.old.items }
    ensures room { vec_capacity entries.old ≤ vec_capacity entries.new }
{
    if to - from == 1 {
        let _ = entries.remove(from);
        return;
    }
    let left = entries.len() - (to - from);
    entries.copy_within(to.., from);
    entries.truncate(left);
}

/// Takes out what stands in the places of the entries of the run, which are in order. It is gone through once, and what
/// stays behind the first of them is moved once.
fn take_each(entries: &mut Vec<Entry>, run: &[Entry])
    requires order { IsOrdered entries.old.items }
    requires run { IsOrdered run.now }
    requires some { 0 < length run.now }
    ensures entries { entries.new.items ≡ others_all run.now entries.old.items }
    ensures fewer { length entries.new.items ≤ length entries.old.items }
    ensures room { vec_capacity entries.old ≤ vec_capacity entries.new }
{
    let mut kept = place_of(entries, entries.len() / 2, &run[0]);
    let mut read = kept;
    let mut taken = 0;
    while read < entries.len() && taken < run.len() {
        let entry = &entries[read];
        let gone = &run[taken];
        if comes_before(entry, gone) {
            let stays = *entry;
            entries[kept] = stays;
            kept += 1;
            read += 1;
        } else if comes_before(gone, entry) {
            taken += 1;
        } else {
            read += 1;
            taken += 1;
        }
    }
    take_between(entries, kept, read);
}

/// Adds an entry in its place, and answers which that is. Those behind it are moved at once, which for one is faster than
/// to merge.
fn insert_one(entries: &mut Vec<Entry>, entry: &Entry) -> usize
    requires order { IsOrdered entries.old.items }
    requires room { length entries.old.items < vec_capacity entries.old }
    ensures entries { entries.new.items ≡ inserted entry.now entries.old.items }
    ensures within { result < length entries.new.items }
    ensures others { take result entries.new.items ++ drop (result + 1) entries.new.items ≡ entries.old.items }
    ensures more { length entries.new.items ≡ length entries.old.items + 1 }
    ensures room { vec_capacity entries.old ≤ vec_capacity entries.new }
{
    let place = place_of(entries, entries.len() / 2, entry);
    let _ = entries.insert(place, *entry);
    place
}

/// Adds the entries of the run, which are in order and for which there is room, each in its place. It is merged from
/// behind, so that what stands behind the first of them is moved once.
fn insert_each(entries: &mut Vec<Entry>, run: &[Entry])
    requires order { IsOrdered entries.old.items }
    requires run { IsOrdered run.now }
    requires room { length entries.old.items + length run.now ≤ vec_capacity entries.old }
    ensures entries { entries.new.items ≡ inserted_all run.now entries.old.items }
    ensures more { length entries.new.items ≡ length entries.old.items + length run.now }
    ensures room { vec_capacity entries.old ≤ vec_capacity entries.new }
{
    let mut left = entries.len();
    let mut coming = run.len();
    let _ = entries.extend_from_slice(run);
    while coming > 0 {
        let last = left + coming - 1;
        if left > 0 && !comes_before(&entries[left - 1], &run[coming - 1]) {
            left -= 1;
            entries[last] = entries[left];
        } else {
            coming -= 1;
            entries[last] = run[coming];
        }
    }
}

impl EntryChunk {
    /// Room for a chunk, and no entries.
    pub(crate) fn empty(alloc: Global) -> Result<EntryChunk, AllocError>
        ensures { IfOk result IsPooled }
    {
        let entries = Vec::with_capacity(alloc, MOST + 1)?;
        let greatest = Vec::from_elem(alloc, Reach::nothing(), MOST)?;
        Ok(EntryChunk {
            entries,
            is_by_end: true,
            greatest,
            end: Reach::nothing(),
            last: Moment::MIN,
        })
    }

    /// Writes of entries that are in order of their ends when the last one starts and ends.
    fn settle(&mut self)
        requires order { IsByEnd self.old.entries.items }
        requires by_end { self.old.is_by_end ≡ true }
        ensures { IsSettled self.old self.new }
    {
        self.end = last_of(&self.entries);
        self.last = last_start(&self.entries);
    }

    /// Looks whether the entries are in order of their ends, writes the tree of these where they aren't, and when the
    /// last entry starts.
    fn refresh(&mut self)
        requires { length self.old.entries.items ≤ length self.old.greatest.items + 1 }
        ensures { IsSettled self.old self.new }
    {
        self.is_by_end = are_by_end(&self.entries);
        if self.is_by_end {
            self.settle();
            return;
        }
        let levels = digits(self.entries.len());
        self.end = rebuild(levels, &self.entries, &mut self.greatest);
        self.last = last_start(&self.entries);
    }

    /// Does so where the entry at the place alone has come.
    fn refresh_at(&mut self, place: usize)
        requires lengths { length self.old.entries.items ≤ length self.old.greatest.items + 1 }
        requires within { place < length self.old.entries.items }
        requires others { self.old.is_by_end ≡ true → IsByEnd (take place self.old.entries.items ++ drop (place + 1) self.old.entries.items) }
        ensures { IsSettled self.old self.new }
    {
        if self.is_by_end && fits(&self.entries, place) {
            self.settle();
        } else {
            self.refresh();
        }
    }

    /// Does so where entries have gone.
    fn refresh_left(&mut self)
        requires lengths { length self.old.entries.items ≤ length self.old.greatest.items + 1 }
        requires order { self.old.is_by_end ≡ true → IsByEnd self.old.entries.items }
        ensures { IsSettled self.old self.new }
    {
        if self.is_by_end {
            self.settle();
        } else {
            self.refresh();
        }
    }

    /// Adds the first entry.
    pub(crate) fn start(&mut self, entry: Entry)
        requires { IsPooled self.old }
        ensures entries { self.new.entries.items ≡ entry ∷ [] }
        ensures chunk { IsChunk self.new }
    {
        let place = place_of(&self.entries, 0, &entry);
        let _ = self.entries.insert(place, entry);
        self.refresh();
    }

    /// Hands its later half on.
    fn move_half(&mut self, other: &mut EntryChunk)
        requires length { length self.old.entries.items ≡ 65 }
        requires room { IsRoomy self.old }
        requires other { IsPooled other.old }
        ensures entries { self.old.entries.items ≡ self.new.entries.items ++ other.new.entries.items }
        ensures chunk { IsChunk self.new }
        ensures other { IsChunk other.new }
        ensures halves { (length self.new.entries.items ≡ 32) × (length other.new.entries.items ≡ 33) }
    {
        let (_, later) = self.entries.split_at(MOST / 2);
        let _ = other.entries.extend_from_slice(later);
        self.entries.truncate(MOST / 2);
        self.refresh();
        other.refresh();
    }

    /// Adds an entry in its place. A chunk that has too many then hands its later half on, into one of the pool.
    pub(crate) fn put(&mut self, entry: Entry, pool: &mut Vec<EntryChunk>) -> Option<EntryChunk>
        requires chunk { IsChunk self.old }
        requires order { IsOrdered self.old.entries.items }
        requires pool { ArePooled pool.old.items }
        requires room { 0 < length pool.old.items }
        ensures entries { self.new.entries.items ++ listed_too result ≡ inserted entry self.old.entries.items }
        ensures chunk { IsChunk self.new }
        ensures more { IfSome result IsChunk }
        ensures pool { ArePooled pool.new.items }
        ensures kept { vec_capacity pool.new ≡ vec_capacity pool.old }
        ensures same { IfNone result ((length self.new.entries.items ≤ length self.old.entries.items + 1) × (length pool.new.items ≡ length pool.old.items)) }
        ensures parted { IfSome result (λ other. (length self.old.entries.items ≡ 64) × (length self.new.entries.items ≡ 32) × (length other.entries.items ≡ 33) × (length pool.new.items + 1 ≡ length pool.old.items)) }
    {
        let place = insert_one(&mut self.entries, &entry);
        if self.entries.len() <= MOST {
            self.refresh_at(place);
            return None;
        }
        let Some(mut other) = pool.pop() else {
            return None;
        };
        self.move_half(&mut other);
        Some(other)
    }

    /// Takes out what stands in the places of the entries of the run, which are in order.
    pub(crate) fn take(&mut self, run: &[Entry])
        requires chunk { IsChunk self.old }
        requires order { IsOrdered self.old.entries.items }
        requires run { IsOrdered run.now }
        requires some { 0 < length run.now }
        ensures entries { self.new.entries.items ≡ others_all run.now self.old.entries.items }
        ensures fewer { length self.new.entries.items ≤ length self.old.entries.items }
        ensures room { IsRoomy self.new }
        ensures chunk { 0 < length self.new.entries.items → IsChunk self.new }
    {
        take_each(&mut self.entries, run);
        self.refresh_left();
    }

    /// Adds the entries of the run, which are in order and for which there is room.
    pub(crate) fn put_each(&mut self, run: &[Entry])
        requires chunk { IsChunk self.old }
        requires order { IsOrdered self.old.entries.items }
        requires run { IsOrdered run.now }
        requires room { length self.old.entries.items + length run.now ≤ 64 }
        ensures entries { self.new.entries.items ≡ inserted_all run.now self.old.entries.items }
        ensures chunk { IsChunk self.new }
        ensures more { length self.new.entries.items ≡ length self.old.entries.items + length run.now }
    {
        if run.len() == 1 {
            let place = insert_one(&mut self.entries, &run[0]);
            self.refresh_at(place);
            return;
        }
        insert_each(&mut self.entries, run);
        self.refresh();
    }

    /// For how many more entries there is room.
    pub(crate) fn room(&self) -> usize
        requires { IsChunk self.now }
        ensures { length self.now.entries.items + result ≡ 64 }
    {
        MOST - self.entries.len()
    }

    /// A chunk of the entries.
    pub(crate) fn of(alloc: Global, entries: &[Entry]) -> Result<EntryChunk, AllocError>
        requires some { 0 < length entries.now }
        requires few { length entries.now ≤ 64 }
        ensures { IfOk result (λ chunk. IsChunk chunk × (chunk.entries.items ≡ entries.now)) }
    {
        let mut chunk = EntryChunk::empty(alloc)?;
        let _ = chunk.entries.extend_from_slice(entries);
        chunk.refresh();
        Ok(chunk)
    }

    /// A chunk of the same entries.
    pub(crate) fn copy(&self) -> Result<EntryChunk, AllocError>
        requires { IsChunk self.now }
        ensures { IfOk result (λ chunk. IsChunk chunk × (chunk.entries.items ≡ self.now.entries.items)) }
    {
        EntryChunk::of(*self.entries.allocator(), &self.entries)
    }

    /// Searches its entries, as the search of their tree does.
    pub(crate) fn search<W: Wanted>(
        &self,
        depth: u32,
        asked: &Search<W>,
        found: &mut Vec<Entry>,
        meter: &mut Meter,
    ) -> Result<bool, AllocError>
        requires chunk { IsChunk self.now }
        requires depth { 2 * length self.now.entries.items ≤ 2 ^ depth }
        requires order { IsByStart self.now.entries.items }
        ensures found { OnOk result (found.new.items ≡ found.old.items ++ wanted_of (W.is_wanted asked.now.wanted.now) (hits self.now.entries.items asked.now.query)) }
        ensures late { IfOk result (λ is_late. is_late ≡ any_late self.now.entries.items asked.now.query) }
        ensures looks { meter.new ≤ meter.old + looks depth self.now.entries.items asked.now.query }
    {
        search(
            depth,
            self.is_by_end,
            &self.entries,
            &self.greatest,
            asked,
            found,
            meter,
        )
    }
}
