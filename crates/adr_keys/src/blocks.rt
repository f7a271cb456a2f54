//! Sets of places, which take little memory where they have few.
ghost use Rattle.std.specs.Prelude.{◌≡◌, ℕ, ◌+◌, ◌<◌, ◌==◌, ◌&&◌, ◌||◌, not, false, true, length, get_or, IsTrue, IfOk, MatchOption, OnOk};
ghost use Rattle.adr_refusal.specs.Answer.{OnlyNoMemory};
ghost use Rattle.adr_keys.specs.Blocks.{covers, is_set, includes, has_block};
ghost use Rattle.adr_keys.specs.Places.{before_closing};
ghost use Rattle.adr_keys.specs.declared.blocks.Block.{Block};

use crate::word::{has_any_bit, with_bit, without_bit, without_gap};
use adr_value::Refusal;
use std::alloc::Global;
use std::marker::Model;

/// 64 places, from the start on, a bit for each.
#[derive(Clone, Copy)]
pub(crate) struct Block {
    pub(crate) start: usize,
    pub(crate) bits: u64,
}

impl Block {
    /// Whether the block has a bit for the place.
    fn covers(self, place: usize) -> bool
        ensures { result ≡ covers place self }
    {
        self.start <= place && place - self.start < 64
    }

    /// Whether the block has a place.
    fn has_any(self) -> bool
        ensures some { result ≡ true → (p : ℕ) × (is_set p self ≡ true) }
        ensures none { result ≡ false → (p : ℕ) → is_set p self ≡ false }
    {
        has_any_bit(self.bits)
    }

    /// The block with the place.
    fn with(self, place: usize) -> Block
        requires { IsTrue (covers place self) }
        ensures start { result.start ≡ self.start }
        ensures places { (p : ℕ) → is_set p result ≡ (p == place || is_set p self) }
    {
        Block {
            start: self.start,
            bits: with_bit(self.bits, place - self.start),
        }
    }

    /// The block without the place.
    fn without(self, place: usize) -> Block
        ensures start { result.start ≡ self.start }
        ensures places { (p : ℕ) → is_set p result ≡ (not (p == place) && is_set p self) }
    {
        if !self.covers(place) {
            return self;
        }
        Block {
            start: self.start,
            bits: without_bit(self.bits, place - self.start),
        }
    }

    /// The block once the gap at the place is closed.
    fn closed(self, place: usize) -> Block
        ensures { (p : ℕ) → is_set p result ≡ is_set (before_closing place p) self }
    {
        if place < self.start {
            return Block {
                start: self.start - 1,
                bits: self.bits,
            };
        }
        if !self.covers(place) {
            return self;
        }
        Block {
            start: self.start,
            bits: without_gap(self.bits, place - self.start),
        }
    }
}

/// A set of places in blocks of 64. A block may cover what another does: a place is in the set where one of them has
/// it.
#[derive(Drop)]
pub(crate) struct Blocks {
    blocks: Vec<Block>,
}

impl Model for Blocks {
    ghost use Rattle.std.specs.Prelude.{List};
    ghost use Rattle.adr_keys.specs.declared.blocks.Block.{Block};

    ghost Value = { List Block };

    ghost view = { λ s. s.blocks.items };
}

impl Blocks {
    /// The empty set.
    pub(crate) fn new(alloc: Global) -> Blocks
        ensures { (place : ℕ) → includes result place ≡ false }
    {
        Blocks {
            blocks: Vec::new(alloc),
        }
    }

    /// An empty set with room for the place.
    pub(crate) fn with_room(alloc: Global, place: usize) -> Result<Blocks, Refusal>
        ensures empty { IfOk result (λ set. (p : ℕ) → includes set p ≡ false) }
        ensures room { IfOk result (λ set. IsTrue (has_block set place)) }
        ensures refusal { OnlyNoMemory result }
    {
        let mut set = Blocks::new(alloc);
        set.reserve(place)?;
        Ok(set)
    }

    /// The blocks, a bit for each of their places.
    pub(crate) fn as_slice(&self) -> &[Block]
        ensures { result.now ≡ self.now }
    {
        self.blocks.as_slice()
    }

    /// The last block that covers the place.
    fn find(&self, place: usize) -> Option<usize>
        ensures { MatchOption result (has_block self.now place ≡ false) (λ i. (i < length self.now) × ((d : Block) → covers place (get_or self.now i d) ≡ true)) }
    {
        let count = self.blocks.len();
        for step in 0..count {
            let index = count - 1 - step;
            if self.blocks[index].covers(place) {
                return Some(index);
            }
        }
        None
    }

    /// Makes room for the place.
    pub(crate) fn reserve(&mut self, place: usize) -> Result<(), Refusal>
        ensures same { (p : ℕ) → includes self.new p ≡ includes self.old p }
        ensures ok { OnOk result (IsTrue (has_block self.new place)) }
        ensures kept { (p : ℕ) → IsTrue (has_block self.old p) → IsTrue (has_block self.new p) }
        ensures refusal { OnlyNoMemory result }
    {
        match self.find(place) {
            Some(_) => Ok(()),
            None => self.add_block(place),
        }
    }

    /// Adds an empty block that covers the place.
    fn add_block(&mut self, place: usize) -> Result<(), Refusal>
        ensures same { (p : ℕ) → includes self.new p ≡ includes self.old p }
        ensures ok { OnOk result (IsTrue (has_block self.new place)) }
        ensures kept { (p : ℕ) → IsTrue (has_block self.old p) → IsTrue (has_block self.new p) }
        ensures refusal { OnlyNoMemory result }
    {
        self.blocks.push(Block {
            start: place - place % 64,
            bits: 0,
        })?;
        Ok(())
    }

    /// Puts the place into the set.
    pub(crate) fn put(&mut self, place: usize)
        requires { IsTrue (has_block self.old place) }
        ensures places { (p : ℕ) → includes self.new p ≡ (p == place || includes self.old p) }
        ensures room { (p : ℕ) → has_block self.new p ≡ has_block self.old p }
    {
        let Some(index) = self.find(place) else {
            unreachable!();
        };
        self.blocks[index] = self.blocks[index].with(place);
    }

    /// Takes the place out of the set.
    pub(crate) fn take(&mut self, place: usize)
        ensures places { (p : ℕ) → includes self.new p ≡ (not (p == place) && includes self.old p) }
        ensures room { (p : ℕ) → has_block self.new p ≡ has_block self.old p }
    {
        for index in 0..self.blocks.len() {
            self.blocks[index] = self.blocks[index].without(place);
        }
    }

    /// Closes the gap at the place: what stood after it moves down by one.
    pub(crate) fn close(&mut self, place: usize)
        ensures { (p : ℕ) → includes self.new p ≡ includes self.old (before_closing place p) }
    {
        for index in 0..self.blocks.len() {
            self.blocks[index] = self.blocks[index].closed(place);
        }
    }

    /// Lets the blocks go that have no place.
    pub(crate) fn prune(&mut self)
        ensures { (p : ℕ) → includes self.new p ≡ includes self.old p }
    {
        self.blocks.retain(|block| block.bits != 0);
    }

    /// Whether the set has a place.
    pub(crate) fn has_any(&self) -> bool
        ensures some { result ≡ true → (p : ℕ) × (includes self.now p ≡ true) }
        ensures none { result ≡ false → (p : ℕ) → includes self.now p ≡ false }
    {
        for block in &self.blocks {
            if block.has_any() {
                return true;
            }
        }
        false
    }

    /// Whether there is no block.
    pub(crate) fn is_empty(&self) -> bool
        ensures { result ≡ true → (p : ℕ) → includes self.now p ≡ false }
    {
        self.blocks.len() == 0
    }
}
