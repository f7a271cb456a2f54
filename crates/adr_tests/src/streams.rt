//! Readers and writers that give and take little, that are interrupted, and that fail.
use std::alloc::Global;
use std::io;
use std::io::{ErrorKind, Read, Write};

/// Gives its bytes in pieces, and then ends or fails. Where it is interrupted, each read that gives something comes
/// behind one that doesn't.
#[derive(Drop)]
pub(crate) struct Pieces<'a> {
    rest: &'a [u8],
    most: usize,
    pub(crate) fails: bool,
    pub(crate) interrupts: bool,
    is_due: bool,
}

impl<'a> Pieces<'a> {
    pub(crate) fn new(rest: &'a [u8], most: usize) -> Pieces<'a> {
        Pieces {
            rest,
            most,
            fails: false,
            interrupts: false,
            is_due: false,
        }
    }
}

impl Read for Pieces<'_> {
    fn read(&mut self, buf: &mut [u8]) -> io::Result<usize> {
        self.is_due = !self.is_due;
        if self.interrupts && self.is_due {
            return Err(io::Error::from(ErrorKind::Interrupted));
        }
        if self.rest.is_empty() && self.fails {
            return Err(io::Error::from(ErrorKind::Other));
        }
        let count = self.rest.len().min(self.most).min(buf.len());
        let (piece, rest) = self.rest.split_at(count);
        buf[..count].copy_from_slice(piece);
        self.rest = rest;
        Ok(count)
    }
}

/// Takes at most so many bytes at a time, and so many in all; then it fails, or takes none. Where it is interrupted,
/// each write that takes something comes behind one that doesn't.
#[derive(Drop)]
pub(crate) struct Sink {
    pub(crate) taken: Vec<u8>,
    most: usize,
    room: usize,
    pub(crate) fails: bool,
    pub(crate) interrupts: bool,
    is_due: bool,
    /// How many writes took something.
    pub(crate) writes: usize,
}

impl Sink {
    pub(crate) fn new(alloc: Global, most: usize, room: usize) -> Sink {
        Sink {
            taken: Vec::new(alloc),
            most,
            room,
            fails: false,
            interrupts: false,
            is_due: false,
            writes: 0,
        }
    }
}

impl Write for Sink {
    fn write(&mut self, buf: &[u8]) -> io::Result<usize> {
        self.is_due = !self.is_due;
        if self.interrupts && self.is_due {
            return Err(io::Error::from(ErrorKind::Interrupted));
        }
        let count = buf.len().min(self.most).min(self.room);
        if count == 0 && self.fails {
            return Err(io::Error::from(ErrorKind::Other));
        }
        self.taken.extend_from_slice(&buf[..count])?;
        self.room -= count;
        self.writes = self.writes.saturating_add(1);
        Ok(count)
    }

    fn flush(&mut self) -> io::Result<()> {
        Ok(())
    }
}
