//! The line that has begun.
ghost use Rattle.std.specs.Prelude.{◌≡◌, ◌+◌, ◌<◌, ◌≤◌, ◌++◌, ℕ, List, [], length, IsTrue, ◌↔◌};
ghost use Rattle.adr_script.specs.Begun.{Holds};

use std::alloc::Global;

/// How many bytes a line has at most, without its end.
pub const MAX_LINE: usize = 4_194_304;

/// Why the bytes of a line aren't kept.
#[derive(Clone, Copy, PartialEq, Eq)]
pub(crate) enum Lost {
    TooLong,
    NoMemory,
}

/// The line that has begun: its bytes, or why they aren't kept.
#[derive(Drop)]
pub(crate) struct Begun {
    pub(crate) bytes: Vec<u8>,
    pub(crate) lost: Option<Lost>,
}

impl Begun {
    pub(crate) fn new(alloc: Global) -> Begun
        ensures { Holds result [] }
    {
        Begun {
            bytes: Vec::new(alloc),
            lost: None,
        }
    }

    /// Adds bytes at the line's end.
    pub(crate) fn add(&mut self, more: &[u8])
        ensures { (line : List ℕ) → Holds self.old line → Holds self.new (line ++ more.now) }
    {
        if self.lost.is_some() {
            return;
        }
        if self.bytes.len() > MAX_LINE || more.len() > MAX_LINE - self.bytes.len() {
            self.lost = Some(Lost::TooLong);
        } else if self.bytes.extend_from_slice(more).is_err() {
            self.lost = Some(Lost::NoMemory);
        }
    }

    /// Forgets the line.
    pub(crate) fn clear(&mut self)
        ensures { Holds self.new [] }
    {
        self.bytes.clear();
        self.lost = None;
    }

    /// Whether the line has a byte.
    pub(crate) fn has_byte(&self) -> bool
        ensures { (line : List ℕ) → Holds self.now line → IsTrue result ↔ (0 < length line) }
    {
        self.lost.is_some() || !self.bytes.is_empty()
    }
}
