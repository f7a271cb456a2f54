//! The chunks of an index, one after the other.
ghost use Rattle.std.specs.Prelude.{◌≡◌, ◌⊎◌, ◌+◌, ◌-◌, ◌*◌, ◌^◌, ◌<◌, ◌≤◌, ◌∷◌, [], List, true, false, IfNone, IfOk, IfSome, OnOk, length, take, drop, vec_len, vec_capacity};
ghost use Rattle.std.specs.List.{AllByRecursion, list_any};
ghost use Rattle.adr_model.specs.Entries.{is_listed_before};
ghost use Rattle.adr_index.specs.Chunks.{all_listed, AreChunks, ArePooled, EndsBefore, GoTogether, IsChunk, IsPooled};
ghost use Rattle.adr_index.specs.declared.chunk.EntryChunk.{EntryChunk as AnyChunk};
ghost use Rattle.adr_index.specs.Tables.{IsChangedAt, IsFound, IsSure, IsTable, Spends};
ghost use Rattle.adr_index.specs.Index.{inserted, inserted_all, is_entry, others_all, without, AreNew, IsOrdered};

use crate::chunk::EntryChunk;
use crate::order::{comes_before, is_entry};
use adr_model::Entry;
use std::alloc::{AllocError, Global};

/// The place behind `near`, where the chunk at `near` ends before the entry and is not the last, else the first place.
fn begin(chunks: &[EntryChunk], near: usize, entry: &Entry) -> usize
    requires some { 0 < length chunks.now }
    requires chunks { AreChunks chunks.now }
    requires order { IsOrdered (all_listed chunks.now) }
    ensures within { result < length chunks.now }
    ensures before { AllByRecursion (λ x. is_listed_before x entry.now ≡ true) (all_listed (take result chunks.now)) }
{
    if near < chunks.len() - 1 && ends_before(&chunks[near], entry) {
        near + 1
    } else {
        0
    }
}

/// How many chunks on the next entry of an event is looked for before all are: where events of a day stand close, those
/// of the next hour begin a few chunks on.
const NEXT: usize = 16;

/// The last place that needs to be looked at from `low` on: that itself, where its chunk does not end before the entry,
/// or that of a chunk not far behind it.
fn end(chunks: &[EntryChunk], low: usize, entry: &Entry) -> usize
    requires low { low < length chunks.now }
    requires chunks { AreChunks chunks.now }
    requires order { IsOrdered (all_listed chunks.now) }
    ensures between { low ≤ result }
    ensures within { result < length chunks.now }
    ensures after { AllByRecursion (λ x. is_listed_before entry.now x ≡ true) (all_listed (drop (result + 1) chunks.now)) }
{
    if !ends_before(&chunks[low], entry) {
        return low;
    }
    if chunks.len() - low > NEXT && !ends_before(&chunks[low + NEXT], entry) {
        return low + NEXT;
    }
    chunks.len() - 1
}

/// The place of the chunk to which the entry belongs. The chunk behind that at `near` is tried first, which is mostly
/// that of the next entry of an event.
pub(crate) fn home(chunks: &[EntryChunk], near: usize, entry: &Entry) -> usize
    requires some { 0 < length chunks.now }
    requires chunks { AreChunks chunks.now }
    requires order { IsOrdered (all_listed chunks.now) }
    ensures within { result < length chunks.now }
    ensures before { AllByRecursion (λ x. is_listed_before x entry.now ≡ true) (all_listed (take result chunks.now)) }
    ensures after { AllByRecursion (λ x. is_listed_before entry.now x ≡ true) (all_listed (drop (result + 1) chunks.now)) }
{
    let mut low = begin(chunks, near, entry);
    let mut high = end(chunks, low, entry);
    while low < high {
        let middle = low + (high - low) / 2;
        if ends_before(&chunks[middle], entry) {
            low = middle + 1;
        } else {
            high = middle;
        }
    }
    low
}

/// Whether the chunk's last entry comes before the entry.
fn ends_before(chunk: &EntryChunk, entry: &Entry) -> bool
    requires { IsChunk chunk.now }
    ensures { EndsBefore chunk.now entry.now result }
{
    if chunk.last != entry.span.start {
        return chunk.last < entry.span.start;
    }
    comes_before(&chunk.entries[chunk.entries.len() - 1], entry)
}

/// Adds an entry to the first chunk.
pub(crate) fn put_first(chunks: &mut Vec<EntryChunk>, pool: &mut Vec<EntryChunk>, entry: Entry)
    requires none { chunks.old.items ≡ [] }
    requires pool { ArePooled pool.old.items }
    requires some { 0 < length pool.old.items }
    requires room { vec_len chunks.old < vec_capacity chunks.old }
    ensures chunks { AreChunks chunks.new.items }
    ensures entries { all_listed chunks.new.items ≡ entry ∷ [] }
    ensures pool { ArePooled pool.new.items }
    ensures spends { Spends 1 chunks.old.items pool.old.items chunks.new.items pool.new.items }
    ensures room { vec_capacity chunks.old ≤ vec_capacity chunks.new }
    ensures kept { vec_capacity pool.old ≤ vec_capacity pool.new }
{
    let Some(mut chunk) = pool.pop() else {
        return;
    };
    chunk.start(entry);
    let _ = chunks.insert(0, chunk);
}

/// Adds an entry to one of the chunks. It takes a chunk of the pool at most. Answers the place of that chunk, where no
/// other was changed.
pub(crate) fn put_among(
    chunks: &mut Vec<EntryChunk>,
    pool: &mut Vec<EntryChunk>,
    entry: Entry,
) -> Option<usize>
    requires some { 0 < length chunks.old.items }
    requires chunks { AreChunks chunks.old.items }
    requires order { IsOrdered (all_listed chunks.old.items) }
    requires pool { ArePooled pool.old.items }
    requires spare { 0 < length pool.old.items }
    requires room { vec_len chunks.old < vec_capacity chunks.old }
    ensures chunks { AreChunks chunks.new.items }
    ensures entries { all_listed chunks.new.items ≡ inserted entry (all_listed chunks.old.items) }
    ensures pool { ArePooled pool.new.items }
    ensures spends { Spends 1 chunks.old.items pool.old.items chunks.new.items pool.new.items }
    ensures room { vec_capacity chunks.old ≤ vec_capacity chunks.new }
    ensures kept { vec_capacity pool.old ≤ vec_capacity pool.new }
    ensures changed { IfSome result (λ place. IsChangedAt place chunks.old.items chunks.new.items) }
{
    let place = home(chunks, 0, &entry);
    let later = chunks[place].put(entry, pool);
    if let Some(later) = later {
        let _ = chunks.insert(place + 1, later);
        return None;
    }
    Some(place)
}

/// Keeps the empty chunk for later.
fn lay_by(pool: &mut Vec<EntryChunk>, chunk: EntryChunk)
    requires pool { ArePooled pool.old.items }
    requires chunk { IsPooled chunk }
    requires room { vec_len pool.old < vec_capacity pool.old }
    ensures pool { ArePooled pool.new.items }
    ensures more { length pool.new.items ≡ length pool.old.items + 1 }
    ensures kept { vec_capacity pool.old ≤ vec_capacity pool.new }
{
    let _ = pool.push(chunk);
}

/// What was taken out or added at once: how many of the entries that were given, and the place of their chunk, where no
/// other was changed.
#[derive(Clone, Copy)]
pub(crate) struct Run {
    pub(crate) given: usize,
    pub(crate) place: Option<usize>,
}

/// How many of the entries, from the first on, are in order and belong to the chunk of the first.
fn run_into(chunk: &EntryChunk, entries: &[Entry]) -> usize
    requires chunk { IsChunk chunk.now }
    requires some { 0 < length entries.now }
    ensures some { 0 < result }
    ensures within { result ≤ length entries.now }
    ensures together { GoTogether chunk.now (take result entries.now) }
{
    let mut count = 1;
    while count < entries.len()
        && comes_before(&entries[count - 1], &entries[count])
        && !ends_before(chunk, &entries[count])
    {
        count += 1;
    }
    count
}

/// Takes out what stands in the place of the first entry, and of those behind it that belong to the same chunk, and
/// answers how many entries of the chunk that were. A chunk that it leaves empty goes to the pool. The chunk is
/// searched for behind that at `near` first.
pub(crate) fn take_among(
    chunks: &mut Vec<EntryChunk>,
    pool: &mut Vec<EntryChunk>,
    near: usize,
    entries: &[Entry],
) -> (usize, Run)
    requires some { 0 < length chunks.old.items }
    requires any { 0 < length entries.now }
    requires chunks { AreChunks chunks.old.items }
    requires order { IsOrdered (all_listed chunks.old.items) }
    requires pool { ArePooled pool.old.items }
    requires kept { length chunks.old.items + length pool.old.items ≤ vec_capacity pool.old }
    ensures some { 0 < result.1.given }
    ensures given { result.1.given ≤ length entries.now }
    ensures chunks { AreChunks chunks.new.items }
    ensures entries { all_listed chunks.new.items ≡ others_all (take result.1.given entries.now) (all_listed chunks.old.items) }
    ensures count { length (all_listed chunks.new.items) + result.0 ≡ length (all_listed chunks.old.items) }
    ensures pool { ArePooled pool.new.items }
    ensures spends { Spends 0 chunks.old.items pool.old.items chunks.new.items pool.new.items }
    ensures room { vec_capacity chunks.old ≤ vec_capacity chunks.new }
    ensures kept { vec_capacity pool.old ≤ vec_capacity pool.new }
    ensures changed { IfSome result.1.place (λ place. IsChangedAt place chunks.old.items chunks.new.items) }
{
    let place = home(chunks, near, &entries[0]);
    let given = run_into(&chunks[place], entries);
    let (run, _) = entries.split_at(given);
    let count = chunks[place].entries.len();
    chunks[place].take(run);
    let left = chunks[place].entries.len();
    if left > 0 {
        let place = Some(place);
        return (count - left, Run { given, place });
    }
    let chunk = chunks.remove(place);
    lay_by(pool, chunk);
    let place = None;
    (count, Run { given, place })
}

/// Adds the first entry and those behind it to the chunk to which they belong, as far as it has room, and answers how
/// many, and its place; None where it has no room, and nothing is changed.
fn put_behind(
    chunks: &mut Vec<EntryChunk>,
    near: usize,
    entries: &[Entry],
) -> Option<(usize, usize)>
    requires any { 0 < length entries.now }
    requires chunks { AreChunks chunks.old.items }
    requires order { IsOrdered (all_listed chunks.old.items) }
    ensures none { IfNone result (chunks.new ≡ chunks.old) }
    ensures some { IfSome result (λ r. 0 < r.0) }
    ensures given { IfSome result (λ r. r.0 ≤ length entries.now) }
    ensures chunks { AreChunks chunks.new.items }
    ensures entries { IfSome result (λ r. all_listed chunks.new.items ≡ inserted_all (take r.0 entries.now) (all_listed chunks.old.items)) }
    ensures spends { IfSome result (λ r. (pool : List AnyChunk) → Spends r.0 chunks.old.items pool chunks.new.items pool) }
    ensures room { vec_capacity chunks.old ≤ vec_capacity chunks.new }
    ensures changed { IfSome result (λ r. IsChangedAt r.1 chunks.old.items chunks.new.items) }
{
    if chunks.is_empty() {
        return None;
    }
    let place = home(chunks, near, &entries[0]);
    let room = chunks[place].room();
    if room == 0 {
        return None;
    }
    let given = run_into(&chunks[place], entries).min(room);
    let (run, _) = entries.split_at(given);
    chunks[place].put_each(run);
    Some((given, place))
}

/// Adds an entry. It takes a chunk of the pool at most. Answers the place of its chunk, where no other was changed.
fn put_any(chunks: &mut Vec<EntryChunk>, pool: &mut Vec<EntryChunk>, entry: Entry) -> Option<usize>
    requires chunks { AreChunks chunks.old.items }
    requires order { IsOrdered (all_listed chunks.old.items) }
    requires pool { ArePooled pool.old.items }
    requires spare { 0 < length pool.old.items }
    requires room { vec_len chunks.old < vec_capacity chunks.old }
    ensures chunks { AreChunks chunks.new.items }
    ensures entries { all_listed chunks.new.items ≡ inserted entry (all_listed chunks.old.items) }
    ensures pool { ArePooled pool.new.items }
    ensures spends { Spends 1 chunks.old.items pool.old.items chunks.new.items pool.new.items }
    ensures room { vec_capacity chunks.old ≤ vec_capacity chunks.new }
    ensures kept { vec_capacity pool.old ≤ vec_capacity pool.new }
    ensures changed { IfSome result (λ place. IsChangedAt place chunks.old.items chunks.new.items) }
{
    if chunks.is_empty() {
        put_first(chunks, pool, entry);
        return None;
    }
    put_among(chunks, pool, entry)
}

/// The chunks of an index, empty ones for later, how many entries there are, and how many more are sure of their room.
///
/// A chunk parts once it has more than 64 entries, into halves of 32 and 33: so few empty chunks make sure of many
/// entries. Either list has room for the chunks of both.
#[derive(Drop)]
pub(crate) struct EntryTable {
    pub(crate) chunks: Vec<EntryChunk>,
    pub(crate) pool: Vec<EntryChunk>,
    pub(crate) count: usize,
    pub(crate) spare: usize,
}

impl EntryTable {
    /// No chunks.
    pub(crate) fn new(alloc: Global) -> EntryTable
        ensures table { IsTable result }
        ensures chunks { result.chunks.items ≡ [] }
        ensures pool { result.pool.items ≡ [] }
    {
        EntryTable {
            chunks: Vec::new(alloc),
            pool: Vec::new(alloc),
            count: 0,
            spare: 0,
        }
    }

    /// A table of the entries.
    pub(crate) fn of(alloc: Global, entries: &[Entry]) -> Result<EntryTable, AllocError>
        requires { IsOrdered entries.now }
        ensures table { IfOk result IsTable }
        ensures entries { IfOk result (λ table. all_listed table.chunks.items ≡ entries.now) }
        ensures pool { IfOk result (λ table. table.pool.items ≡ []) }
    {
        let chunks = cut(alloc, entries)?;
        let pool = Vec::with_capacity(alloc, chunks.len())?;
        Ok(EntryTable {
            chunks,
            pool,
            count: entries.len(),
            spare: 0,
        })
    }

    /// Adds an entry, and answers the place of its chunk, where no other was changed.
    pub(crate) fn put(&mut self, entry: Entry) -> Option<usize>
        requires table { IsTable self.old }
        requires spare { 0 < self.old.spare }
        requires fresh { list_any (is_entry entry.rank.written entry.rank.place) (all_listed self.old.chunks.items) ≡ false }
        ensures table { IsTable self.new }
        ensures entries { all_listed self.new.chunks.items ≡ inserted entry (all_listed self.old.chunks.items) }
        ensures spare { self.old.spare ≤ self.new.spare + 1 }
        ensures sum { length self.new.chunks.items + length self.new.pool.items ≤ length self.old.chunks.items + length self.old.pool.items }
        ensures changed { IfSome result (λ place. IsChangedAt place self.old.chunks.items self.new.chunks.items) }
    {
        let changed = put_any(&mut self.chunks, &mut self.pool, entry);
        self.count += 1;
        self.spare -= 1;
        changed
    }

    /// Adds the first entry and some of those behind it, and answers how many, and the place of their chunk, which is
    /// searched for behind that at `near` first.
    pub(crate) fn put_run(&mut self, near: usize, entries: &[Entry]) -> Run
        requires any { 0 < length entries.now }
        requires table { IsTable self.old }
        requires spare { length entries.now ≤ self.old.spare }
        requires fresh { AreNew entries.now (all_listed self.old.chunks.items) }
        ensures some { 0 < result.given }
        ensures given { result.given ≤ length entries.now }
        ensures table { IsTable self.new }
        ensures entries { all_listed self.new.chunks.items ≡ inserted_all (take result.given entries.now) (all_listed self.old.chunks.items) }
        ensures spare { self.old.spare ≤ self.new.spare + result.given }
        ensures sum { length self.new.chunks.items + length self.new.pool.items ≤ length self.old.chunks.items + length self.old.pool.items }
        ensures changed { IfSome result.place (λ place. IsChangedAt place self.old.chunks.items self.new.chunks.items) }
    {
        if let Some((given, place)) = put_behind(&mut self.chunks, near, entries) {
            self.count += given;
            self.spare -= given;
            let place = Some(place);
            return Run { given, place };
        }
        let place = self.put(entries[0]);
        Run { given: 1, place }
    }

    /// Takes out what stands in the place of the first entry, and of some of those behind it, and answers of how many,
    /// and the place of their chunk, which is searched for behind that at `near` first.
    pub(crate) fn take(&mut self, near: usize, entries: &[Entry]) -> Run
        requires any { 0 < length entries.now }
        requires table { IsTable self.old }
        ensures some { 0 < result.given }
        ensures given { result.given ≤ length entries.now }
        ensures table { IsTable self.new }
        ensures entries { all_listed self.new.chunks.items ≡ others_all (take result.given entries.now) (all_listed self.old.chunks.items) }
        ensures spare { self.old.spare ≤ self.new.spare }
        ensures sum { length self.new.chunks.items + length self.new.pool.items ≤ length self.old.chunks.items + length self.old.pool.items }
        ensures changed { IfSome result.place (λ place. IsChangedAt place self.old.chunks.items self.new.chunks.items) }
    {
        if self.chunks.is_empty() {
            let given = entries.len();
            let place = None;
            return Run { given, place };
        }
        let (count, run) = take_among(&mut self.chunks, &mut self.pool, near, entries);
        self.count -= count;
        run
    }

    /// Takes out the entries of that written number and place, and answers whether there were any.
    pub(crate) fn take_numbered(&mut self, written: u64, place: u32) -> bool
        requires { IsTable self.old }
        ensures table { IsTable self.new }
        ensures answer { result ≡ list_any (is_entry written place) (all_listed self.old.chunks.items) }
        ensures entries { all_listed self.new.chunks.items ≡ without written place (all_listed self.old.chunks.items) }
        ensures spare { self.old.spare ≤ self.new.spare }
        ensures sum { length self.new.chunks.items + length self.new.pool.items ≤ length self.old.chunks.items + length self.old.pool.items }
    {
        let mut is_found = false;
        while let Some(entry) = find(&self.chunks, written, place) {
            let _ = self.take(0, &[entry]);
            is_found = true;
        }
        is_found
    }

    /// How many chunks there are to be, with those of the pool, for that many more entries to be sure of their room;
    /// None where there can't be so many entries.
    pub(crate) fn places_for(&self, more: usize) -> Option<usize>
        requires { IsTable self.now }
        ensures all { IfSome result (λ places. length self.now.chunks.items + length self.now.pool.items ≤ places) }
        ensures sure { IfSome result (λ places. (pool : List AnyChunk) → places ≤ length self.now.chunks.items + length pool → IsSure more self.now.chunks.items pool) }
        ensures bound { IfSome result (λ places. self.now.count + more < 2 ^ 64) }
    {
        if more >= usize::MAX - self.count {
            return None;
        }
        let chunks = self.chunks.len();
        let wanted = chunks_for(more, chunks) + 1;
        chunks.checked_add(wanted.max(self.pool.len()))
    }

    /// Makes room for that many more entries: so many chunks there are to be, with those of the pool.
    pub(crate) fn reserve(&mut self, more: usize, places: usize) -> Result<(), AllocError>
        requires table { IsTable self.old }
        requires all { length self.old.chunks.items + length self.old.pool.items ≤ places }
        requires sure { (pool : List AnyChunk) → places ≤ length self.old.chunks.items + length pool → IsSure more self.old.chunks.items pool }
        requires bound { self.old.count + more < 2 ^ 64 }
        requires more { self.old.spare ≤ more }
        ensures table { IsTable self.new }
        ensures chunks { self.new.chunks.items ≡ self.old.chunks.items }
        ensures spare { OnOk result (more ≤ self.new.spare) }
        ensures kept { self.old.spare ≤ self.new.spare }
        ensures all { length self.new.chunks.items + length self.new.pool.items ≤ places }
    {
        let alloc = *self.chunks.allocator();
        let wanted = places - self.chunks.len();
        self.chunks.reserve(wanted)?;
        self.pool.reserve(places - self.pool.len())?;
        fill(&mut self.pool, alloc, wanted)?;
        self.spare = more;
        Ok(())
    }

    /// A table of the same entries.
    pub(crate) fn copy(&self) -> Result<EntryTable, AllocError>
        requires { IsTable self.now }
        ensures table { IfOk result IsTable }
        ensures entries { IfOk result (λ table. all_listed table.chunks.items ≡ all_listed self.now.chunks.items) }
        ensures length { IfOk result (λ table. length table.chunks.items ≡ length self.now.chunks.items) }
        ensures pool { IfOk result (λ table. table.pool.items ≡ []) }
    {
        let alloc = *self.chunks.allocator();
        let chunks = copy_chunks(alloc, &self.chunks)?;
        let pool = Vec::with_capacity(alloc, chunks.len())?;
        Ok(EntryTable {
            chunks,
            pool,
            count: self.count,
            spare: 0,
        })
    }
}

/// How many chunks of the pool make sure of room for so many more entries, beside so many chunks that may be full.
fn chunks_for(more: usize, chunks: usize) -> usize
    ensures within { result ≤ more }
    ensures sure { (result ≡ more) ⊎ (more + 32 * chunks ≤ 32 * result) }
{
    more.min((more / 32 + 1).saturating_add(chunks))
}

/// Fills the pool up to that many chunks.
fn fill(pool: &mut Vec<EntryChunk>, alloc: Global, wanted: usize) -> Result<(), AllocError>
    requires pool { ArePooled pool.old.items }
    requires most { length pool.old.items ≤ wanted }
    ensures pool { ArePooled pool.new.items }
    ensures kept { length pool.old.items ≤ length pool.new.items }
    ensures most { length pool.new.items ≤ wanted }
    ensures full { OnOk result (length pool.new.items ≡ wanted) }
    ensures room { vec_capacity pool.old ≤ vec_capacity pool.new }
{
    while pool.len() < wanted {
        let chunk = EntryChunk::empty(alloc)?;
        pool.push(chunk)?;
    }
    Ok(())
}

/// Chunks of the same entries.
fn copy_chunks(alloc: Global, chunks: &[EntryChunk]) -> Result<Vec<EntryChunk>, AllocError>
    requires { AreChunks chunks.now }
    ensures chunks { IfOk result (λ copy. AreChunks copy.items) }
    ensures entries { IfOk result (λ copy. all_listed copy.items ≡ all_listed chunks.now) }
    ensures length { IfOk result (λ copy. length copy.items ≡ length chunks.now) }
{
    let mut copy = Vec::new(alloc);
    for chunk in chunks {
        let other = chunk.copy()?;
        copy.push(other)?;
    }
    Ok(copy)
}

/// How many entries a chunk has where chunks are made at once, so that edits don't part each soon.
const FILLED: usize = 48;

/// Chunks of the entries, each of as many but for the last.
fn cut(alloc: Global, entries: &[Entry]) -> Result<Vec<EntryChunk>, AllocError>
    ensures chunks { IfOk result (λ chunks. AreChunks chunks.items) }
    ensures entries { IfOk result (λ chunks. all_listed chunks.items ≡ entries.now) }
{
    let mut chunks = Vec::new(alloc);
    let mut left = entries;
    while !left.is_empty() {
        let (part, rest) = left.split_at(left.len().min(FILLED));
        let chunk = EntryChunk::of(alloc, part)?;
        chunks.push(chunk)?;
        left = rest;
    }
    Ok(chunks)
}

/// An entry of that written number and place.
fn find(chunks: &[EntryChunk], written: u64, place: u32) -> Option<Entry>
    ensures some { IfSome result (λ entry. IsFound written place entry (all_listed chunks.now)) }
    ensures none { IfNone result (list_any (is_entry written place) (all_listed chunks.now) ≡ false) }
{
    for chunk in chunks {
        if let Some(entry) = find_in(&chunk.entries, written, place) {
            return Some(entry);
        }
    }
    None
}

/// An entry of that written number and place among some.
fn find_in(entries: &[Entry], written: u64, place: u32) -> Option<Entry>
    ensures some { IfSome result (λ entry. IsFound written place entry entries.now) }
    ensures none { IfNone result (list_any (is_entry written place) entries.now ≡ false) }
{
    for entry in entries {
        if is_entry(entry, written, place) {
            return Some(*entry);
        }
    }
    None
}
