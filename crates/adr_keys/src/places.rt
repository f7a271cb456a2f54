//! Sets of places that are found.
ghost use Rattle.std.specs.Prelude.{◌≡◌, ℕ, ◌+◌, ◌^◌, ◌/◌, ◌%◌, ◌<◌, ◌≤◌, ◌&&◌, ◌||◌, ◌++◌, ◌*◌, ◌≢◌, nat_lt, false, true, filter, map, length, IsTrue, IfOk, OnOk};
ghost use Rattle.std.specs.List.{range_with_len};
ghost use Rattle.adr_refusal.specs.Answer.{OnlyNoMemory};
ghost use Rattle.adr_keys.specs.Blocks.{is_set, includes};
ghost use Rattle.adr_keys.specs.Places.{bit, bits_of, has, fits};

use crate::blocks::{Block, Blocks};
use crate::word::{both, either, has_bit, low_bits, moved_up, over_top, without_bit};
use adr_value::Refusal;
use std::alloc::Global;
use std::marker::Model;

/// A set of places, a bit for each. Contracts see its words.
pub struct Places {
    words: Vec<u64>,
}

// A function of its own, so that callers that let a value go need not look into it.
impl Drop for Places {
    fn drop(self) {
        let Places { words } = self;
        drop(words);
    }
}

impl Model for Places {
    ghost use Rattle.std.specs.Prelude.{ℕ, List};

    ghost Value = { List ℕ };

    ghost view = { λ s. s.words.items };
}

impl Places {
    /// A set that has each of the first places, and may have some after them.
    ///
    /// # Errors
    ///
    /// `NoMemory` where there is no room for its words, one for 64 places.
    pub fn first(alloc: Global, count: usize) -> Result<Places, Refusal>
        ensures full { IfOk result (λ set. (place : ℕ) → place < count → has set place ≡ true) }
        ensures refusal { OnlyNoMemory result }
    {
        let mut words = Vec::new(alloc);
        words.resize(count / 64 + 1, u64::MAX)?;
        Ok(Places { words })
    }

    /// An empty set with room for each of the first places.
    ///
    /// # Errors
    ///
    /// `NoMemory` where there is no room for its words, one for 64 places.
    pub fn with_room(alloc: Global, count: usize) -> Result<Places, Refusal>
        ensures empty { IfOk result (λ set. (place : ℕ) → has set place ≡ false) }
        ensures room { IfOk result (λ set. (place : ℕ) → place ≤ count → IsTrue (fits set place)) }
        ensures refusal { OnlyNoMemory result }
    {
        let mut words = Vec::new(alloc);
        words.resize(count / 64 + 1, 0)?;
        Ok(Places { words })
    }

    /// Whether the place is in the set.
    pub fn has(&self, place: usize) -> bool
        ensures { result ≡ has self.now place }
    {
        let index = place / 64;
        if index < self.words.len() {
            has_bit(self.words[index], place % 64)
        } else {
            false
        }
    }

    /// Takes every place out of the set.
    pub fn clear(&mut self)
        ensures { (p : ℕ) → has self.new p ≡ false }
    {
        self.words.clear();
    }

    /// Adds the places of the blocks, as far as there is room.
    pub(crate) fn add_all(&mut self, blocks: &Blocks)
        ensures places { (p : ℕ) → IsTrue (fits self.old p) → has self.new p ≡ (has self.old p || includes blocks.now p) }
        ensures len { length self.new ≡ length self.old }
    {
        for block in blocks.as_slice() {
            self.add_block(block);
        }
    }

    /// Adds the places of a block, as far as there is room.
    fn add_block(&mut self, block: &Block)
        ensures places { (p : ℕ) → IsTrue (fits self.old p) → has self.new p ≡ (has self.old p || is_set p block.now) }
        ensures len { length self.new ≡ length self.old }
    {
        let index = block.start / 64;
        let by = block.start % 64;
        self.add_word(index, moved_up(block.bits, by));
        self.add_word(index + 1, over_top(block.bits, by));
    }

    /// Adds the bits to a word of the set, where it has that word.
    fn add_word(&mut self, index: usize, word: u64)
        ensures same { (p : ℕ) → p / 64 ≢ index → has self.new p ≡ has self.old p }
        ensures added { (p : ℕ) → IsTrue (fits self.old p) → p / 64 ≡ index → has self.new p ≡ (has self.old p || bit word (p % 64)) }
        ensures len { length self.new ≡ length self.old }
    {
        if index < self.words.len() {
            self.words[index] = either(self.words[index], word);
        }
    }

    /// Keeps what another set has too.
    pub fn keep_all(&mut self, other: &Places)
        ensures places { (p : ℕ) → has self.new p ≡ (has self.old p && has other.now p) }
        ensures len { length self.new ≡ length self.old }
    {
        for index in 0..self.words.len() {
            let word = if index < other.words.len() {
                other.words[index]
            } else {
                0
            };
            self.words[index] = both(self.words[index], word);
        }
    }

    /// How many of the words have bits of the first places.
    fn word_count(&self, count: usize) -> usize
        ensures within { result ≤ length self.now }
        ensures few { result ≤ count / 64 + 1 }
        ensures all { (p : ℕ) → 64 * result ≤ p → (nat_lt p count && has self.now p) ≡ false }
    {
        if self.words.len() < count / 64 + 1 {
            return self.words.len();
        }
        count / 64 + 1
    }

    /// Which of the first `count` places the set has, in order. Cost: its words, and the places.
    ///
    /// # Errors
    ///
    /// `NoMemory` where there is no room for the list.
    pub fn list(&self, alloc: Global, count: usize) -> Result<Vec<usize>, Refusal>
        ensures ok { IfOk result (λ list. list.items ≡ filter (has self.now) (range_with_len 0 count)) }
        ensures refusal { OnlyNoMemory result }
    {
        let mut list = Vec::with_capacity(alloc, bits_in(&self.words))?;
        for index in 0..self.word_count(count) {
            let base = 64 * index;
            push_places(&mut list, base, low_bits(self.words[index], count - base))?;
        }
        Ok(list)
    }
}

/// How many bits the words have, which says how much room their list takes.
fn bits_in(words: &[u64]) -> usize {
    words.iter().fold(
        0,
        |count: usize, word| count.saturating_add(word.count_ones() as usize),
    )
}

/// Adds the places of the word's bits, in order.
fn push_places(list: &mut Vec<usize>, base: usize, word: u64) -> Result<(), Refusal>
    requires { base + 63 < 2 ^ 64 }
    ensures ok { OnOk result (list.new.items ≡ list.old.items ++ map (λ i. base + i) (bits_of word)) }
    ensures refusal { OnlyNoMemory result }
{
    if word == u64::MAX {
        return push_whole(list, base);
    }
    let mut rest = word;
    for _step in 0..64_usize {
        if rest == 0 {
            break;
        }
        rest = push_lowest(list, base, rest)?;
    }
    Ok(())
}

/// Adds the places of all the bits of a word, in order.
fn push_whole(list: &mut Vec<usize>, base: usize) -> Result<(), Refusal>
    requires { base + 63 < 2 ^ 64 }
    ensures ok { OnOk result (list.new.items ≡ list.old.items ++ map (λ i. base + i) (range_with_len 0 64)) }
    ensures refusal { OnlyNoMemory result }
{
    list.extend((0..64_usize).map(|bit| base + bit))?;
    Ok(())
}

/// Adds the place of the word's lowest bit, and answers the word without it.
fn push_lowest(list: &mut Vec<usize>, base: usize, word: u64) -> Result<u64, Refusal>
    requires some { 0 < word }
    requires room { base + 63 < 2 ^ 64 }
    ensures ok { IfOk result (λ rest. list.new.items ++ map (λ i. base + i) (bits_of rest) ≡ list.old.items ++ map (λ i. base + i) (bits_of word)) }
    ensures fewer { IfOk result (λ rest. length (bits_of rest) + 1 ≡ length (bits_of word)) }
    ensures refusal { OnlyNoMemory result }
{
    let lowest = word.trailing_zeros() as usize;
    list.push(base + lowest)?;
    Ok(without_bit(word, lowest))
}
