//! The read loop.
ghost use Rattle.std.specs.Prelude.{◌≡◌, ◌⊎◌, ◌≤◌, ◌<◌, ◌^◌, ◌∷◌, ◌++◌, ◌≢◌, ℕ, List, [], true, false, OnOk, OnErr, IsErrOf, IfOk, IfErr, IfSome, IfNone, All, take, slice_index, vec_capacity, vec_len, length};
ghost use Rattle.std.specs.Io.KnownBytes.{Appends, Keeps, IsAtEnd};
ghost use Rattle.adr_script.specs.Begun.{Holds};
ghost use Rattle.adr_script.specs.Logs.{reads_made, has_read_failed, has_ended, has_write_failed, IsReplyFault};
ghost use Rattle.adr_script.specs.Lines.{all_lines, complete_lines, complete_from, rest_from, last_line};
ghost use Rattle.adr_script.specs.Script.{Told, IsToldInPart, Moves};
ghost use Rattle.adr_script.specs.Ending.{Ends};
ghost use Rattle.adr_script.specs.Waiting.{IsFresh};

use crate::answering::{Session, answer_line};
use crate::log::ReadGiven;
use crate::{Fault, Logs, Machine, WriteLog};
use memchr::memchr;
use std::alloc::{AllocError, Global};
use std::io::{Read, Write};
use std::sync::Wait;
use std::thread::Threads;

const PIECE: usize = 65_536;

const MAX_READS: u64 = 4_294_967_296;

/// Reads lines to the end, and writes the machine's reply to each before the next read.
///
/// It makes at most 4,294,967,296 reads, of up to 65,536 bytes, and tries an interrupted one again.
/// Beyond the machine's own, memory holds one line, one reply and one piece of the input.
///
/// # Errors
///
/// Each [`Fault`]. `Runtime` comes before the first read where memory is refused to begin with, and
/// amid the lines only from a machine that may halt.
pub fn serve<H: AllocGlobal + Threads + Wait, R: Read, W: Write, M: Machine>(
    rt: &H,
    reader: &mut R,
    writer: &mut W,
    logs: &mut Logs,
    machine: &mut M,
) -> Result<(), Fault>
    requires made { reads_made logs.old.reads ≡ 0 }
    requires no_read { has_read_failed logs.old.reads ≡ false }
    requires no_write { has_write_failed logs.old.writes ≡ false }

    // All was read, and each line was answered.
    ensures ok { OnOk result (Moves (R.remaining reader.old)
        (R.remaining reader.new) (W.contents writer.old) (W.contents writer.new)
        (λ bytes out. Told M.answers machine.old (all_lines bytes) out machine.new)) }
    ensures end { OnOk result (IsAtEnd (R.remaining reader.new)) }

    // The lines that were complete are answered, and the begun one isn't.
    ensures reading { IsErrOf result Fault.Reading → Moves (R.remaining reader.old)
        (R.remaining reader.new) (W.contents writer.old) (W.contents writer.new)
        (λ bytes out. Told M.answers machine.old (complete_lines bytes) out machine.new) }
    ensures reads { IsErrOf result Fault.Reads → Moves (R.remaining reader.old)
        (R.remaining reader.new) (W.contents writer.old) (W.contents writer.new)
        (λ bytes out. Told M.answers machine.old (complete_lines bytes) out machine.new) }

    // The replies stop somewhere.
    ensures writing { IsErrOf result Fault.Writing → Moves (R.remaining reader.old)
        (R.remaining reader.new) (W.contents writer.old) (W.contents writer.new)
        (λ bytes out. IsToldInPart M.answers machine.old (all_lines bytes) out machine.new) }
    ensures runtime { IsErrOf result Fault.Runtime → Moves (R.remaining reader.old)
        (R.remaining reader.new) (W.contents writer.old) (W.contents writer.new)
        (λ bytes out. IsToldInPart M.answers machine.old (all_lines bytes) out machine.new) }

    // Nothing was done, unless the machine may halt.
    ensures start { IsErrOf result Fault.Runtime
        → (Keeps (R.remaining reader.old) (R.remaining reader.new)
        × Keeps (W.contents writer.old) (W.contents writer.new)
        × (machine.new ≡ machine.old)) ⊎ M.halts }

    // A fault has a cause: a read or a write that failed, or all the reads that there are; and
    // `Ok` has the end.
    ensures bound { reads_made logs.new.reads ≤ 2 ^ 32 }
    ensures ended { OnOk result (has_ended logs.new.reads ≡ true) }
    ensures read_ends { has_read_failed logs.new.reads ≡ true → result ≡ Err Fault.Reading }
    ensures write_ends { has_write_failed logs.new.writes ≡ true → result ≡ Err Fault.Writing }
    ensures read_failed { IsErrOf result Fault.Reading → has_read_failed logs.new.reads ≡ true }
    ensures no_more_reads { IsErrOf result Fault.Reads → reads_made logs.new.reads ≡ 2 ^ 32 }
    ensures write_failed { IsErrOf result Fault.Writing → has_write_failed logs.new.writes ≡ true }
{
    match Buffers::new(rt.alloc()) {
        Ok(mut buffers) => serve_reads(rt, reader, writer, logs, machine, &mut buffers),
        Err(_) => Err(Fault::Runtime),
    }
}

/// What a run keeps in memory beside its machine: a piece of the input, and what is made of it.
#[derive(Drop)]
struct Buffers {
    piece: Vec<u8>,
    session: Session,
}

impl Buffers {
    fn new(alloc: Global) -> Result<Buffers, AllocError>
        ensures piece { IfOk result (λ buffers. 0 < vec_len buffers.piece) }
        ensures session { IfOk result (λ buffers. IsFresh buffers.session) }
    {
        Ok(Buffers {
            piece: zeros(alloc, PIECE)?,
            session: Session::new(alloc)?,
        })
    }
}

/// Reads pieces to the end, and answers the lines of each before the next.
fn serve_reads<H: AllocGlobal + Threads + Wait, R: Read, W: Write, M: Machine>(
    rt: &H,
    reader: &mut R,
    writer: &mut W,
    logs: &mut Logs,
    machine: &mut M,
    buffers: &mut Buffers,
) -> Result<(), Fault>
    requires piece { 0 < vec_len buffers.old.piece }
    requires session { IsFresh buffers.old.session }
    requires made { reads_made logs.old.reads ≡ 0 }
    requires no_read { has_read_failed logs.old.reads ≡ false }
    requires no_write { has_write_failed logs.old.writes ≡ false }
    ensures bound { reads_made logs.new.reads ≤ 2 ^ 32 }
    ensures ends { Ends M.answers M.halts (R.remaining reader.old) (R.remaining reader.new)
        (W.contents writer.old) (W.contents writer.new) machine.old machine.new
        logs.new.reads logs.new.writes result }
{
    let (reads, writes) = (&mut logs.reads, &mut logs.writes);
    let piece = buffers.piece.as_mut_slice();
    let session = &mut buffers.session;
    for _ in 0..MAX_READS {
        match reads.read(reader, piece)? {
            ReadGiven::Bytes(count) => {
                serve_piece(rt, &piece[..count], writer, writes, machine, session)?
            }
            ReadGiven::End => return finish(rt, writer, writes, machine, session),
            ReadGiven::Nothing => {}
        }
    }
    Err(Fault::Reads)
}

fn zeros(alloc: Global, len: usize) -> Result<Vec<u8>, AllocError>
    ensures { IfOk result (λ v. vec_len v ≡ len) }
{
    vec![in alloc; 0u8; len]
}

/// Answers a last line with no line feed, if it has a byte.
fn finish<H: AllocGlobal + Threads + Wait, W: Write, M: Machine>(
    rt: &H,
    writer: &mut W,
    writes: &mut WriteLog,
    machine: &mut M,
    session: &mut Session,
) -> Result<(), Fault>
    requires room { 64 ≤ vec_capacity session.old.reply }
    requires none { session.old.waiting.bytes.items ≡ [] }
    requires fresh { has_write_failed writes.old ≡ false }
    ensures unfailed { OnOk result (has_write_failed writes.new ≡ false) }
    ensures ends { has_write_failed writes.new ≡ true → result ≡ Err Fault.Writing }
    ensures fault { IfErr result (IsReplyFault writes.new M.halts) }
    ensures ok { OnOk result ((line : List ℕ) → Holds session.old.begun line → (out : List ℕ)
        × Appends (W.contents writer.old) (W.contents writer.new) out
        × Told M.answers machine.old (last_line line) out machine.new) }
    ensures err { OnErr result ((line : List ℕ) → Holds session.old.begun line → (out : List ℕ)
        × Appends (W.contents writer.old) (W.contents writer.new) out
        × IsToldInPart M.answers machine.old (last_line line) out machine.new) }
{
    if !session.begun.has_byte() {
        return Ok(());
    }
    answer_line(rt, writer, writes, machine, session)?;
    session.waiting.flush(writer, writes)
}

/// Takes a piece of the input, and answers each line that is complete now.
fn serve_piece<H: AllocGlobal + Threads + Wait, W: Write, M: Machine>(
    rt: &H,
    piece: &[u8],
    writer: &mut W,
    writes: &mut WriteLog,
    machine: &mut M,
    session: &mut Session,
) -> Result<(), Fault>
    requires room { 64 ≤ vec_capacity session.old.reply }
    requires none { session.old.waiting.bytes.items ≡ [] }
    requires fresh { has_write_failed writes.old ≡ false }
    ensures unfailed { OnOk result (has_write_failed writes.new ≡ false) }
    ensures ends { has_write_failed writes.new ≡ true → result ≡ Err Fault.Writing }
    ensures room { 64 ≤ vec_capacity session.new.reply }
    ensures none { OnOk result (session.new.waiting.bytes.items ≡ []) }
    ensures fault { IfErr result (IsReplyFault writes.new M.halts) }
    ensures ok { OnOk result ((line : List ℕ) → Holds session.old.begun line
        → Holds session.new.begun (rest_from line piece.now)
        × ((out : List ℕ) × Appends (W.contents writer.old) (W.contents writer.new) out
        × Told M.answers machine.old (complete_from line piece.now) out machine.new)) }
    ensures err { OnErr result ((line : List ℕ) → Holds session.old.begun line → (out : List ℕ)
        × Appends (W.contents writer.old) (W.contents writer.new) out
        × IsToldInPart M.answers machine.old (complete_from line piece.now) out machine.new) }
{
    let mut rest = piece;
    while let Some((end, behind)) = split_line(rest) {
        session.begun.add(end);
        answer_line(rt, writer, writes, machine, session)?;
        rest = behind;
    }
    session.begun.add(rest);
    session.waiting.flush(writer, writes)
}

/// What stands before the first line feed, and behind it.
fn split_line(bytes: &[u8]) -> Option<(&[u8], &[u8])>
    ensures found { IfSome result (λ parts. (bytes.now ≡ parts.0.now ++ 10 ∷ parts.1.now)
        × All (λ byte. byte ≢ 10) parts.0.now) }
    ensures none { IfNone result (All (λ byte. byte ≢ 10) bytes.now) }
{
    let at = first_feed(bytes)?;
    let (line, behind) = bytes.split_at(at);
    Some((line, &behind[1..]))
}

/// Where the first line feed stands.
fn first_feed(bytes: &[u8]) -> Option<usize>
    ensures found { IfSome result (λ at. (at < length bytes.now) × (slice_index bytes.now at ≡ 10)
        × All (λ byte. byte ≢ 10) (take at bytes.now)) }
    ensures none { IfNone result (All (λ byte. byte ≢ 10) bytes.now) }
{
    memchr(b'\n', bytes)
}
