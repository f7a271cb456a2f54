//! Entries in order, found by the moments and windows that they cover.
ghost use Rattle.std.specs.Prelude.{◌≡◌, ◌+◌, ◌*◌, ◌<◌, ◌≤◌, [], false, length, IfOk, IsOk, OnOk, OnErr};
ghost use Rattle.std.specs.List.{list_any};
ghost use Rattle.std.specs.List.Sorted.{IsPermutation};
ghost use Rattle.adr_refusal.specs.Answer.{OnlyNoMemory};
ghost use Rattle.adr_model.specs.Entries.{covering, meeting, IsListed};
ghost use Rattle.adr_index.specs.Chunks.{all_listed, listed, AreChunks};
ghost use Rattle.adr_index.specs.Index.{inserted, inserted_all, is_entry, most_probes, others_all, without, AreDistinct, AreNew, IsOrdered};
ghost use Rattle.adr_index.specs.Query.{hits, wanted_of};
ghost use Rattle.adr_index.specs.Tables.{HasTops, HasTopsBut, IsTable};

use crate::chunk::EntryChunk;
use crate::order::sort;
use crate::query::{IndexQuery, Latest};
use crate::reach::Reach;
use crate::stretch::Stretch;
use crate::table::{EntryTable, home};
use crate::tops::{rebuild_chunks, search_chunks};
use crate::tree::digits;
use crate::wanted::{Every, Search, Wanted};
use adr_model::Entry;
use adr_refusal::Refusal;
use adr_rule::Meter;
use adr_time::{Moment, Span};
use std::alloc::{AllocError, Global};
use std::marker::Model;

/// Entries in order of start, written number and place. Contracts see their list, and how many more there is room
/// for.
///
/// No two entries have one written number and place. An entry whose span covers no moment is kept, and never found.
///
/// They lie in chunks of at most 64. An edit goes to one chunk for each entry, found by halving or behind the last one,
/// and writes what the tree of greatest ends has from the first chunk that it changed to the last. Where a chunk is
/// parted or emptied, all of the tree is written anew, a step for each chunk: n/48 of them where an index of n entries
/// is filled at once. A chunk that loses entries is not put together with others.
pub struct Index {
    table: EntryTable,
    tops: Vec<Reach>,
}

// A function of its own, so that callers that let a value go need not look into it.
impl Drop for Index {
    fn drop(self) {
        let Index { table, tops } = self;
        drop(table);
        drop(tops);
    }
}

impl Model for Index {
    ghost use Rattle.adr_index.specs.Chunks.{all_listed};
    ghost use Rattle.adr_index.specs.Index.{Indexed};
    ghost use Rattle.adr_index.specs.Tables.{IsIndex};

    ghost Value = { Indexed };

    ghost view = { λ index. record { entries = all_listed index.table.chunks.items; spare = index.table.spare } };

    ghost invariant = { λ index. IsIndex index.table index.tops.items };
}

/// How many entries an answer has room for from the start, so that most need not grow.
const OFTEN: usize = 32;

/// How many chunks' ends are written in about the time that the path to one takes.
const APART: usize = 32;

/// Writes the tree over the chunks anew.
fn refresh(chunks: &[EntryChunk], tops: &mut [Reach])
    requires chunks { AreChunks chunks.now }
    requires lengths { length chunks.now ≤ length tops.old + 1 }
    ensures { HasTops chunks.now tops.new }
{
    let levels = digits(chunks.len());
    let _ = rebuild_chunks(levels, 0, chunks.len(), chunks, tops);
}

/// Writes what the tree over the chunks has of the stretch anew.
fn write(chunks: &[EntryChunk], tops: &mut [Reach], stretch: Stretch)
    requires chunks { AreChunks chunks.now }
    requires lengths { length chunks.now ≤ length tops.old + 1 }
    requires tops { HasTopsBut stretch.from stretch.to chunks.now tops.old }
    ensures { HasTops chunks.now tops.new }
{
    let levels = digits(chunks.len());
    let _ = rebuild_chunks(levels, stretch.from, stretch.to, chunks, tops);
}

/// Writes the tree over the one chunk of the stretch, where the next one lies far behind it, and answers what is left
/// to be written.
fn write_far(chunks: &[EntryChunk], tops: &mut [Reach], stretch: Stretch, is_far: bool) -> Stretch
    requires chunks { AreChunks chunks.now }
    requires lengths { length chunks.now ≤ length tops.old + 1 }
    requires tops { HasTopsBut stretch.from stretch.to chunks.now tops.old }
    ensures { HasTopsBut result.from result.to chunks.now tops.new }
{
    if !is_far || !stretch.is_one() {
        return stretch;
    }
    write(chunks, tops, stretch);
    Stretch::none()
}

/// Whether the entries lie so far apart, if they are in order, that the tree over the chunks is written sooner along
/// the paths to theirs than from the first of these to the last.
fn are_far(chunks: &[EntryChunk], entries: &[Entry]) -> bool
    requires chunks { AreChunks chunks.now }
    requires order { IsOrdered (all_listed chunks.now) }
{
    let (Some(first), Some(last)) = (entries.first(), entries.last()) else {
        return false;
    };
    if entries.len() > chunks.len() / APART {
        return false;
    }
    let from = home(chunks, 0, first);
    let to = home(chunks, from, last);
    entries.len() <= to.saturating_sub(from) / APART
}

/// Takes out what stands in the places of the old entries, those of one chunk together, and answers of which chunks the
/// tree is still to be written.
fn take_all(table: &mut EntryTable, tops: &mut [Reach], old: &[Entry]) -> Stretch
    requires table { IsTable table.old }
    requires lengths { length table.old.chunks.items + length table.old.pool.items ≤ length tops.old }
    requires tops { HasTops table.old.chunks.items tops.old }
    ensures table { IsTable table.new }
    ensures entries { all_listed table.new.chunks.items ≡ others_all old.now (all_listed table.old.chunks.items) }
    ensures spare { table.old.spare ≤ table.new.spare }
    ensures sum { length table.new.chunks.items + length table.new.pool.items ≤ length table.old.chunks.items + length table.old.pool.items }
    ensures nodes { length tops.new ≡ length tops.old }
    ensures tops { HasTopsBut result.from result.to table.new.chunks.items tops.new }
{
    let is_far = are_far(&table.chunks, old);
    let mut stretch = Stretch::none();
    let mut near = 0;
    let mut rest = old;
    while !rest.is_empty() {
        let run = table.take(near, rest);
        stretch = stretch.with(run.place, table.chunks.len());
        stretch = write_far(&table.chunks, tops, stretch, is_far);
        near = run.place.unwrap_or(0);
        (_, rest) = rest.split_at(run.given);
    }
    stretch
}

/// Adds the entries, those of one chunk together as far as it has room, and answers of which chunks the tree is still
/// to be written, where it was so of some.
fn put_all(table: &mut EntryTable, tops: &mut [Reach], new: &[Entry], changed: Stretch) -> Stretch
    requires table { IsTable table.old }
    requires spare { length new.now ≤ table.old.spare }
    requires fresh { AreNew new.now (all_listed table.old.chunks.items) }
    requires lengths { length table.old.chunks.items + length table.old.pool.items ≤ length tops.old }
    requires tops { HasTopsBut changed.from changed.to table.old.chunks.items tops.old }
    ensures table { IsTable table.new }
    ensures entries { all_listed table.new.chunks.items ≡ inserted_all new.now (all_listed table.old.chunks.items) }
    ensures spare { table.old.spare ≤ table.new.spare + length new.now }
    ensures sum { length table.new.chunks.items + length table.new.pool.items ≤ length table.old.chunks.items + length table.old.pool.items }
    ensures nodes { length tops.new ≡ length tops.old }
    ensures tops { HasTopsBut result.from result.to table.new.chunks.items tops.new }
{
    let is_far = are_far(&table.chunks, new);
    let mut stretch = changed;
    let mut near = 0;
    let mut rest = new;
    while !rest.is_empty() {
        let run = table.put_run(near, rest);
        stretch = stretch.with(run.place, table.chunks.len());
        stretch = write_far(&table.chunks, tops, stretch, is_far);
        near = run.place.unwrap_or(0);
        (_, rest) = rest.split_at(run.given);
    }
    stretch
}

/// Makes room for the ends of that many chunks, and at least twice as much as before, so that it is seldom done.
fn widen(chunks: &[EntryChunk], tops: &mut Vec<Reach>, wanted: usize) -> Result<(), AllocError>
    requires chunks { AreChunks chunks.now }
    requires lengths { length chunks.now ≤ length tops.old.items }
    requires tops { HasTops chunks.now tops.old.items }
    ensures tops { HasTops chunks.now tops.new.items }
    ensures ok { OnOk result (wanted ≤ length tops.new.items) }
    ensures kept { length tops.old.items ≤ length tops.new.items }
{
    if wanted <= tops.len() {
        return Ok(());
    }
    let room = wanted.max(tops.len().saturating_mul(2));
    tops.resize(room, Reach::nothing())?;
    refresh(chunks, tops);
    Ok(())
}

impl Index {
    /// An index of no entries. It takes no memory before it is added to.
    pub fn new(alloc: Global) -> Index
        ensures { result.entries ≡ [] }
    {
        Index {
            table: EntryTable::new(alloc),
            tops: Vec::new(alloc),
        }
    }

    /// An index of the entries, which are in order.
    fn filled(alloc: Global, entries: &[Entry]) -> Result<Index, AllocError>
        requires { IsOrdered entries.now }
        ensures { IfOk result (λ index. index.entries ≡ entries.now) }
    {
        let table = EntryTable::of(alloc, entries)?;
        let mut tops = Vec::from_elem(alloc, Reach::nothing(), table.chunks.len())?;
        refresh(&table.chunks, &mut tops);
        Ok(Index { table, tops })
    }

    /// An index of the entries, which may lie in any order. Its chunks are full to three quarters, so that edits don't
    /// part each at once. Cost: that of sorting the entries, and some steps for each.
    ///
    /// # Errors
    ///
    /// `NoMemory` where there is no room.
    pub fn of(alloc: Global, mut entries: Vec<Entry>) -> Result<Index, Refusal>
        requires { AreDistinct entries.items }
        ensures entries { IfOk result (λ index. IsPermutation entries.items index.entries) }
        ensures refused { OnlyNoMemory result }
    {
        sort(&mut entries);
        let index = Index::filled(alloc, &entries)?;
        drop(entries);
        Ok(index)
    }

    /// An index of these entries, with no room to spare. Cost: a copy of all chunks.
    ///
    /// # Errors
    ///
    /// `NoMemory` where there is no room.
    pub fn copy(&self) -> Result<Index, Refusal>
        ensures entries { IfOk result (λ index. index.entries ≡ self.now.entries) }
        ensures refused { OnlyNoMemory result }
    {
        let mut tops = Vec::from_slice(*self.tops.allocator(), &self.tops)?;
        let table = self.table.copy()?;
        refresh(&table.chunks, &mut tops);
        Ok(Index { table, tops })
    }

    /// How many entries there are.
    pub fn len(&self) -> usize
        ensures value { result ≡ length self.now.entries }
        ensures listed { IsListed self.now.entries }
    {
        self.table.count
    }

    /// How many entries can be inserted with no want of memory, at least.
    pub fn spare(&self) -> usize
        ensures { result ≡ self.now.spare }
    {
        self.table.spare
    }

    /// Makes room for that many more entries. A chunk parts once it has more than 64 entries, so it keeps an empty
    /// chunk of some 8 KiB ready for each entry, or one for each 32 of them and for each chunk, where those are fewer;
    /// those that were not used serve the next call. Cost: none where so much room is there; else the table of the
    /// chunks where it grows.
    ///
    /// # Errors
    ///
    /// `NoMemory` where the room isn't there; then nothing is changed but that some of it may be kept.
    pub fn reserve(&mut self, more: usize) -> Result<(), Refusal>
        ensures entries { self.new.entries ≡ self.old.entries }
        ensures spare { OnOk result (more ≤ self.new.spare) }
        ensures kept { self.old.spare ≤ self.new.spare }
        ensures refused { OnlyNoMemory result }
    {
        if more <= self.table.spare {
            return Ok(());
        }
        let Some(places) = self.table.places_for(more) else {
            return Err(Refusal::NoMemory);
        };
        widen(&self.table.chunks, &mut self.tops, places)?;
        self.table.reserve(more, places)?;
        Ok(())
    }

    /// Makes room for one more entry, where there is none.
    fn make_room(&mut self) -> Result<(), Refusal>
        ensures entries { self.new.entries ≡ self.old.entries }
        ensures spare { OnOk result (0 < self.new.spare) }
        ensures kept { self.old.spare ≤ self.new.spare }
        ensures room { 0 < self.old.spare → IsOk result }
        ensures refused { OnlyNoMemory result }
    {
        if self.spare() > 0 {
            return Ok(());
        }
        self.reserve(1)
    }

    /// Adds an entry in its place. Cost: some 64 steps in its chunk, and where that is parted a step for each chunk;
    /// with no room to spare also an empty chunk, and a step for each chunk.
    ///
    /// # Errors
    ///
    /// `NoMemory` where there is no room; then the list is as it was. With room to spare it is never refused.
    pub fn insert(&mut self, entry: Entry) -> Result<(), Refusal>
        requires { list_any (is_entry entry.rank.written entry.rank.place) self.old.entries ≡ false }
        ensures ok { OnOk result (self.new.entries ≡ inserted entry self.old.entries) }
        ensures err { OnErr result (self.new.entries ≡ self.old.entries) }
        ensures room { 0 < self.old.spare → IsOk result }
        ensures taken { self.old.spare ≤ self.new.spare + 1 }
        ensures refused { OnlyNoMemory result }
    {
        self.make_room()?;
        self.replace(&[], &[entry]);
        Ok(())
    }

    /// Takes out what stands in the place of an old entry, with its start, written number and place, and adds the new
    /// ones, as when an event is written again. It takes no memory: a chunk that is emptied is kept for later.
    ///
    /// Cost: for entries that come in order each chunk of theirs is searched once, and those of its entries that stand from
    /// the first of theirs on, at most 64, are gone through and moved once. Where they are not in order of their ends, a
    /// tree of these is written once. Entries in another order are taken out and added one by one. The tree over the chunks
    /// is written once, from the first of theirs to the last, a step for each of these, or, where there are 32 chunks and
    /// more for each entry, along the paths to theirs. Where a chunk is parted or emptied it is written whole, a step for
    /// each chunk, and the chunks behind that one are moved.
    pub fn replace(&mut self, old: &[Entry], new: &[Entry])
        requires room { length new.now ≤ self.old.spare }
        requires fresh { AreNew new.now (others_all old.now self.old.entries) }
        ensures entries { self.new.entries ≡ inserted_all new.now (others_all old.now self.old.entries) }
        ensures spare { self.old.spare ≤ self.new.spare + length new.now }
    {
        let changed = take_all(&mut self.table, &mut self.tops, old);
        let stretch = put_all(&mut self.table, &mut self.tops, new, changed);
        write(&self.table.chunks, &mut self.tops, stretch);
    }

    /// Takes out the entry of that written number and place, and answers whether it was there. It takes no memory.
    /// Cost: a step for each entry; `replace` takes out entries that are known whole at less.
    pub fn remove(&mut self, written: u64, place: u32) -> bool
        ensures answer { result ≡ list_any (is_entry written place) self.old.entries }
        ensures entries { self.new.entries ≡ without written place self.old.entries }
        ensures spare { self.old.spare ≤ self.new.spare }
    {
        let is_found = self.table.take_numbered(written, place);
        refresh(&self.table.chunks, &mut self.tops);
        is_found
    }

    /// The entries that are asked for, with a tick for each look.
    fn find_counted<W: Wanted>(
        &self,
        asked: &Search<W>,
        meter: &mut Meter,
    ) -> Result<Vec<Entry>, AllocError>
        ensures found { IfOk result (λ found. found.items ≡ wanted_of (W.is_wanted asked.now.wanted.now) (hits self.now.entries asked.now.query)) }
        ensures probes { meter.new ≤ meter.old + most_probes self.now.entries (length (hits self.now.entries asked.now.query)) }
    {
        let mut found = Vec::with_capacity(*self.tops.allocator(), OFTEN)?;
        let depth = digits(self.table.count);
        search_chunks(
            depth,
            depth + 1,
            &self.table.chunks,
            &self.tops,
            asked,
            &mut found,
            meter,
        )?;
        Ok(found)
    }

    /// The entries that are asked for, whatever write they are of, with a tick for each look.
    fn find_all(&self, query: IndexQuery, meter: &mut Meter) -> Result<Vec<Entry>, AllocError>
        ensures found { IfOk result (λ found. found.items ≡ hits self.now.entries query) }
        ensures probes { meter.new ≤ meter.old + most_probes self.now.entries (length (hits self.now.entries query)) }
    {
        let asked = Search {
            query,
            wanted: &Every,
        };
        self.find_counted(&asked, meter)
    }

    /// The entries that cover the moment, in order. Cost: as much as [`Index::covering_counted`] says.
    ///
    /// # Errors
    ///
    /// `NoMemory` where there is no room for them.
    pub fn covering(&self, at: Moment) -> Result<Vec<Entry>, Refusal>
        ensures found { IfOk result (λ found. found.items ≡ covering self.now.entries at) }
        ensures refused { OnlyNoMemory result }
    {
        let mut meter = Meter::new();
        self.covering_counted(at, &mut meter)
    }

    /// The entries whose span meets the window, in order. Cost: as much as [`Index::overlapping_counted`] says.
    ///
    /// # Errors
    ///
    /// `NoMemory` where there is no room for them.
    pub fn overlapping(&self, window: Span) -> Result<Vec<Entry>, Refusal>
        ensures found { IfOk result (λ found. found.items ≡ meeting self.now.entries window) }
        ensures refused { OnlyNoMemory result }
    {
        let mut meter = Meter::new();
        self.overlapping_counted(window, &mut meter)
    }

    /// The entries of the wanted writes whose span meets the window, in order. Cost: as much as
    /// [`Index::overlapping_counted`] says, and a question for each entry that meets the window.
    ///
    /// # Errors
    ///
    /// `NoMemory` where there is no room for them.
    pub fn overlapping_of<W: Wanted>(&self, window: Span, wanted: &W) -> Result<Vec<Entry>, Refusal>
        ensures found { IfOk result (λ found. found.items ≡ wanted_of (W.is_wanted wanted.now) (meeting self.now.entries window)) }
        ensures refused { OnlyNoMemory result }
    {
        if !window.lasts() {
            return Ok(Vec::new(*self.tops.allocator()));
        }
        let mut meter = Meter::new();
        let query = query_of(&window);
        let found = self.find_counted(&Search { query, wanted }, &mut meter)?;
        Ok(found)
    }

    /// What [`Index::covering`] answers, with a tick of the meter for each look at a stored entry or a stored greatest
    /// end: where the number of entries has d binary digits and m are answered, at most 4(d + 1)(m + 1).
    ///
    /// # Errors
    ///
    /// `NoMemory` where there is no room for them.
    pub fn covering_counted(&self, at: Moment, meter: &mut Meter) -> Result<Vec<Entry>, Refusal>
        ensures found { IfOk result (λ found. found.items ≡ covering self.now.entries at) }
        ensures probes { meter.new ≤ meter.old + most_probes self.now.entries (length (covering self.now.entries at)) }
        ensures refused { OnlyNoMemory result }
    {
        let found = self.find_all(query_at(at), meter)?;
        Ok(found)
    }

    /// What [`Index::overlapping`] answers, with a tick of the meter for each look, at most as many as
    /// [`Index::covering_counted`] says.
    ///
    /// # Errors
    ///
    /// `NoMemory` where there is no room for them.
    pub fn overlapping_counted(
        &self,
        window: Span,
        meter: &mut Meter,
    ) -> Result<Vec<Entry>, Refusal>
        ensures found { IfOk result (λ found. found.items ≡ meeting self.now.entries window) }
        ensures probes { meter.new ≤ meter.old + most_probes self.now.entries (length (meeting self.now.entries window)) }
        ensures refused { OnlyNoMemory result }
    {
        if !window.lasts() {
            return Ok(Vec::new(*self.tops.allocator()));
        }
        let found = self.find_all(query_of(&window), meter)?;
        Ok(found)
    }
}

/// What covers the moment.
fn query_at(at: Moment) -> IndexQuery
    ensures { result ≡ record { from = at; latest = Latest.By at } }
{
    IndexQuery {
        from: at,
        latest: Latest::By(at),
    }
}

/// What meets a window that covers some moment.
fn query_of(window: &Span) -> IndexQuery
    ensures { result ≡ record { from = window.now.start; latest = Latest.Before window.now.end } }
{
    IndexQuery {
        from: window.start,
        latest: Latest::Before(window.end),
    }
}
