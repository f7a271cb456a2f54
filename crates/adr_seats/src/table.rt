//! Lists of numbers in chunks that copies share.
ghost use Rattle.std.specs.Prelude.{◌≡◌, ◌<◌, ◌≤◌, ◌/◌, ◌^◌, ◌++◌, ◌∷◌, ℕ, [], true, length, set, remove, IfOk, OnOk, OnErr};
ghost use Rattle.std.specs.List.{slice_get};
ghost use Rattle.adr_refusal.specs.Answer.{OnlyNoMemory};
ghost use Rattle.adr_seats.specs.Table.{joined, numbers, is_own, AreFull};

use crate::chunk::SlotChunk;
use adr_refusal::Refusal;
use std::alloc::Global;
use std::marker::Model;

/// How many numbers a full chunk has.
const WIDTH: usize = 512;

/// How many numbers a table has at most.
const MOST: usize = 1 << 31;

/// A list of numbers: chunks that are full, which copies share, and a last one. What is written first becomes the
/// table's own. Contracts see the chunks.
pub(crate) struct SlotTable {
    full: Vec<SlotChunk>,
    last: Vec<u32>,
}

// A function of its own, so that callers that let a value go need not look into it.
impl Drop for SlotTable {
    fn drop(self) {
        let SlotTable { full, last } = self;
        drop(full);
        drop(last);
    }
}

impl Model for SlotTable {
    ghost use Rattle.adr_seats.specs.Table.{Chunks, IsTable};

    ghost Value = { Chunks };

    ghost view = { λ t. record { full = t.full.items; last = t.last.items } };

    ghost invariant = { λ t. IsTable (record { full = t.full.items; last = t.last.items }) };
}

impl SlotTable {
    /// No numbers.
    pub(crate) fn new(alloc: Global) -> SlotTable
        ensures { numbers result ≡ [] }
    {
        SlotTable {
            full: Vec::new(alloc),
            last: Vec::new(alloc),
        }
    }

    /// How many numbers the full chunks have.
    fn start(&self) -> usize
        ensures { result ≡ length (joined self.now.full) }
    {
        self.full.len() * WIDTH
    }

    /// How many numbers there are.
    pub(crate) fn len(&self) -> usize
        ensures value { result ≡ length (numbers self.now) }
        ensures small { result ≤ 2 ^ 31 }
    {
        self.start() + self.last.len()
    }

    /// The number at the place. Cost: one look-up.
    pub(crate) fn get(&self, place: usize) -> Option<u32>
        ensures value { result ≡ slice_get (numbers self.now) place }
        ensures small { length (numbers self.now) ≤ 2 ^ 31 }
    {
        let index = place / WIDTH;
        if index < self.full.len() {
            number_at(self.full[index].numbers(), place % WIDTH)
        } else {
            number_at(&self.last, place - self.start())
        }
    }

    /// Adds a number last.
    ///
    /// # Errors
    ///
    /// `NoMemory` where there is no room for it, or the table has 2^31 numbers; then it has the numbers it had.
    pub(crate) fn push(&mut self, number: u32) -> Result<(), Refusal>
        ensures ok { OnOk result (numbers self.new ≡ numbers self.old ++ number ∷ []) }
        ensures err { OnErr result (numbers self.new ≡ numbers self.old) }
        ensures small { length (numbers self.old) ≤ 2 ^ 31 }
        ensures refusal { OnlyNoMemory result }
    {
        if self.len() == MOST {
            return Err(Refusal::NoMemory);
        }
        if self.last.len() == WIDTH {
            self.close()?;
        }
        self.last.push(number)?;
        Ok(())
    }

    /// Makes a full chunk of the last one.
    fn close(&mut self) -> Result<(), Refusal>
        requires { length self.old.last ≡ 512 }
        ensures same { numbers self.new ≡ numbers self.old }
        ensures refusal { OnlyNoMemory result }
    {
        let alloc = *self.last.allocator();
        self.full.push(SlotChunk::own(alloc, &self.last)?)?;
        self.last.clear();
        Ok(())
    }

    /// Whether the number at the place may be written.
    fn may_write(&self, place: usize) -> bool
        ensures { result ≡ is_own self.now place }
    {
        let index = place / WIDTH;
        if index < self.full.len() {
            self.full[index].is_own()
        } else {
            true
        }
    }

    /// Makes the full chunk at the place the table's own.
    fn unshare(&mut self, place: usize) -> Result<(), Refusal>
        requires { place / 512 < length self.old.full }
        ensures same { numbers self.new ≡ numbers self.old }
        ensures own { OnOk result (is_own self.new place ≡ true) }
        ensures keeps { (other : ℕ) → is_own self.old other ≡ true → is_own self.new other ≡ true }
        ensures refusal { OnlyNoMemory result }
    {
        let index = place / WIDTH;
        let alloc = *self.last.allocator();
        self.full[index] = SlotChunk::own(alloc, self.full[index].numbers())?;
        Ok(())
    }

    /// The number at the place may be written from now on.
    ///
    /// # Errors
    ///
    /// `NoMemory` where its chunk is shared, and there is no room for one of its own.
    pub(crate) fn own(&mut self, place: usize) -> Result<(), Refusal>
        ensures same { numbers self.new ≡ numbers self.old }
        ensures own { OnOk result (is_own self.new place ≡ true) }
        ensures keeps { (other : ℕ) → is_own self.old other ≡ true → is_own self.new other ≡ true }
        ensures refusal { OnlyNoMemory result }
    {
        if self.may_write(place) {
            return Ok(());
        }
        self.unshare(place)
    }

    /// Writes the number at the place.
    pub(crate) fn put(&mut self, place: usize, number: u32)
        requires within { place < length (numbers self.old) }
        requires own { is_own self.old place ≡ true }
        ensures numbers { numbers self.new ≡ set (numbers self.old) place number }
        ensures own { (other : ℕ) → is_own self.old other ≡ true → is_own self.new other ≡ true }
    {
        let index = place / WIDTH;
        if index < self.full.len() {
            self.full[index].put(place % WIDTH, number);
        } else {
            let start = self.start();
            self.last[place - start] = number;
        }
    }

    /// A copy of the numbers, with room for more; full chunks are shared.
    ///
    /// # Errors
    ///
    /// `NoMemory` where there is no room for it, or the count of a chunk's sharers is full.
    pub(crate) fn copy(&self) -> Result<SlotTable, Refusal>
        ensures same { IfOk result (λ copy. numbers copy ≡ numbers self.now) }
        ensures refusal { OnlyNoMemory result }
    {
        let alloc = *self.last.allocator();
        let mut last = Vec::with_capacity(alloc, WIDTH)?;
        last.extend_from_slice(&self.last)?;
        Ok(SlotTable {
            full: shared(alloc, &self.full)?,
            last,
        })
    }

    /// The numbers in one list.
    fn all(&self) -> Result<Vec<u32>, Refusal>
        ensures all { IfOk result (λ all. all.items ≡ numbers self.now) }
        ensures refusal { OnlyNoMemory result }
    {
        let mut all = gathered(*self.last.allocator(), &self.full)?;
        all.extend_from_slice(&self.last)?;
        Ok(all)
    }

    /// The numbers but that at the place. Cost: all of them.
    ///
    /// # Errors
    ///
    /// `NoMemory` where there is no room for them.
    pub(crate) fn without(&self, place: usize) -> Result<SlotTable, Refusal>
        requires { place < length (numbers self.now) }
        ensures numbers { IfOk result (λ table. numbers table ≡ remove (numbers self.now) place) }
        ensures refusal { OnlyNoMemory result }
    {
        let mut all = self.all()?;
        all.remove(place);
        divided(*self.last.allocator(), &all)
    }
}

/// Copies of the chunks, which share their numbers.
fn shared(alloc: Global, chunks: &[SlotChunk]) -> Result<Vec<SlotChunk>, Refusal>
    ensures same { IfOk result (λ copies. joined copies.items ≡ joined chunks.now) }
    ensures full { AreFull chunks.now → IfOk result (λ copies. AreFull copies.items) }
    ensures refusal { OnlyNoMemory result }
{
    let mut copies = Vec::with_capacity(alloc, chunks.len())?;
    let mut rest = chunks;
    'rest: while let Some((chunk, more)) = rest.split_first() {
        copies.push(chunk.share()?)?;
        rest = more;
    }
    Ok(copies)
}

/// The number at the place.
fn number_at(numbers: &[u32], place: usize) -> Option<u32>
    ensures { result ≡ slice_get numbers.now place }
{
    numbers.get(place).copied()
}

/// The numbers of the chunks.
fn gathered(alloc: Global, chunks: &[SlotChunk]) -> Result<Vec<u32>, Refusal>
    ensures all { IfOk result (λ all. all.items ≡ joined chunks.now) }
    ensures refusal { OnlyNoMemory result }
{
    let mut all = Vec::new(alloc);
    let mut rest = chunks;
    'rest: while let Some((chunk, more)) = rest.split_first() {
        all.extend_from_slice(chunk.numbers())?;
        rest = more;
    }
    Ok(all)
}

/// The table of the numbers.
fn divided(alloc: Global, all: &[u32]) -> Result<SlotTable, Refusal>
    requires { length all.now ≤ 2 ^ 31 }
    ensures numbers { IfOk result (λ table. numbers table ≡ all.now) }
    ensures refusal { OnlyNoMemory result }
{
    let mut full = Vec::new(alloc);
    let mut rest = all;
    'rest: while rest.len() >= WIDTH {
        let (front, back) = rest.split_at(WIDTH);
        full.push(SlotChunk::own(alloc, front)?)?;
        rest = back;
    }
    Ok(SlotTable {
        full,
        last: Vec::from_slice(alloc, rest)?,
    })
}
