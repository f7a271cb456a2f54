//! Replies that wait to be written, and writing by a loop of its own, so that what a failed write
//! leaves is known.
ghost use Rattle.std.specs.Prelude.{◌≡◌, ◌++◌, ℕ, List, [], true, false, OnOk, OnErr};
ghost use Rattle.adr_script.specs.Logs.{has_write_failed};
ghost use Rattle.adr_script.specs.Waiting.{Sends};
ghost use Rattle.std.specs.Io.KnownBytes.{Appends};

use crate::{Fault, WriteLog};
use std::alloc::Global;
use std::io::Write;

/// How many bytes of replies may wait.
const ROOM: usize = 65_536;

/// Replies that wait to be written.
#[derive(Drop)]
pub(crate) struct Waiting {
    pub(crate) bytes: Vec<u8>,
}

impl Waiting {
    pub(crate) fn new(alloc: Global) -> Waiting
        ensures { result.bytes.items ≡ [] }
    {
        Waiting {
            bytes: Vec::new(alloc),
        }
    }

    /// Has a reply wait behind the others. Where there is no room for it, or no memory, the others
    /// are written, and then the reply is.
    pub(crate) fn send<W: Write>(
        &mut self,
        writer: &mut W,
        log: &mut WriteLog,
        reply: &[u8],
    ) -> Result<(), Fault>
        ensures ok { OnOk result (Sends (W.contents writer.old) (W.contents writer.new)
            self.old.bytes.items self.new.bytes.items reply.now) }
        ensures err { OnErr result ((lost : List ℕ) × Sends (W.contents writer.old)
            (W.contents writer.new) self.old.bytes.items lost reply.now) }
        ensures unfailed { OnOk result (has_write_failed log.new ≡ has_write_failed log.old) }
        ensures fault { OnErr result ((result ≡ Err Fault.Writing)
            × (has_write_failed log.new ≡ true)) }
    {
        if self.add(reply) {
            return Ok(());
        }
        self.flush(writer, log)?;
        write_fully(log, writer, reply)
    }

    /// Has a reply wait behind the others, if there is room and memory for it.
    fn add(&mut self, reply: &[u8]) -> bool
        ensures added { result ≡ true
            → self.new.bytes.items ≡ self.old.bytes.items ++ reply.now }
        ensures kept { result ≡ false → self.new.bytes.items ≡ self.old.bytes.items }
    {
        if self.bytes.len() > ROOM || reply.len() > ROOM - self.bytes.len() {
            return false;
        }
        self.bytes.extend_from_slice(reply).is_ok()
    }

    /// Writes the replies that wait. None waits behind it.
    pub(crate) fn flush<W: Write>(
        &mut self,
        writer: &mut W,
        log: &mut WriteLog,
    ) -> Result<(), Fault>
        ensures none { self.new.bytes.items ≡ [] }
        ensures ok { OnOk result (Appends (W.contents writer.old) (W.contents writer.new)
            self.old.bytes.items) }
        ensures err { OnErr result ((part : List ℕ) × (more : List ℕ)
            × (self.old.bytes.items ≡ part ++ more)
            × Appends (W.contents writer.old) (W.contents writer.new) part) }
        ensures unfailed { OnOk result (has_write_failed log.new ≡ has_write_failed log.old) }
        ensures fault { OnErr result ((result ≡ Err Fault.Writing)
            × (has_write_failed log.new ≡ true)) }
    {
        let outcome = write_fully(log, writer, &self.bytes);
        self.bytes.clear();
        outcome
    }
}

/// Writes all the bytes. At `Err` some of them were written, from the front on.
///
/// # Errors
///
/// `Writing` where the writer failed or took no byte. An interrupted write is tried again.
pub fn write_fully<W: Write>(log: &mut WriteLog, writer: &mut W, bytes: &[u8]) -> Result<(), Fault>
    ensures ok { OnOk result (Appends (W.contents writer.old) (W.contents writer.new) bytes.now) }
    ensures err { OnErr result ((part : List ℕ) × (more : List ℕ) × (bytes.now ≡ part ++ more)
        × Appends (W.contents writer.old) (W.contents writer.new) part) }
    ensures unfailed { OnOk result (has_write_failed log.new ≡ has_write_failed log.old) }
    ensures fault { OnErr result ((result ≡ Err Fault.Writing)
        × (has_write_failed log.new ≡ true)) }
{
    let mut rest = bytes;
    while !rest.is_empty() {
        let count = log.write(writer, rest)?;
        rest = &rest[count..];
    }
    Ok(())
}
