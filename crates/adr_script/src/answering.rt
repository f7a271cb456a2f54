//! One line's reply.
ghost use Rattle.std.specs.Prelude.{◌≡◌, ◌≤◌, ◌++◌, ℕ, List, [], true, false, OnOk, OnErr, IfErr, IfOk, ◌⊎◌, length, vec_capacity};
ghost use Rattle.std.specs.Io.BufRead.{strip_last};
ghost use Rattle.adr_script.specs.Begun.{Holds};
ghost use Rattle.adr_script.specs.Logs.{IsReplyFault, has_write_failed};
ghost use Rattle.adr_script.specs.Script.{LineStep, no_memory};
ghost use Rattle.adr_script.specs.Waiting.{IsFresh, Sends};

use crate::line::{Begun, Lost};
use crate::output::Waiting;
use crate::{Fault, Machine, Unanswered, WriteLog};
use std::alloc::{AllocError, Global};
use std::io::Write;
use std::sync::Wait;
use std::thread::Threads;

const REPLY_ROOM: usize = 64;

const LONG_LINE: &[u8] = b"refused 1 LongLine\n";

const NO_MEMORY: &[u8] = b"refused 99 NoMemory\n";

/// The line that has begun, room for its reply, and the replies before it.
#[derive(Drop)]
pub(crate) struct Session {
    pub(crate) begun: Begun,
    pub(crate) reply: Vec<u8>,
    pub(crate) waiting: Waiting,
}

impl Session {
    pub(crate) fn new(alloc: Global) -> Result<Session, AllocError>
        ensures { IfOk result IsFresh }
    {
        Ok(Session {
            begun: Begun::new(alloc),
            reply: Vec::with_capacity(alloc, REPLY_ROOM)?,
            waiting: Waiting::new(alloc),
        })
    }
}

/// Has the reply to the line that has begun wait, and forgets the line. Where the machine halts, it
/// writes the replies before.
pub(crate) fn answer_line<H: AllocGlobal + Threads + Wait, W: Write, M: Machine>(
    rt: &H,
    writer: &mut W,
    writes: &mut WriteLog,
    machine: &mut M,
    session: &mut Session,
) -> Result<(), Fault>
    requires room { 64 ≤ vec_capacity session.old.reply }
    requires fresh { has_write_failed writes.old ≡ false }
    ensures unfailed { OnOk result (has_write_failed writes.new ≡ false) }
    ensures ends { has_write_failed writes.new ≡ true → result ≡ Err Fault.Writing }
    ensures room { 64 ≤ vec_capacity session.new.reply }
    ensures cleared { OnOk result (Holds session.new.begun []) }
    ensures fault { IfErr result (IsReplyFault writes.new M.halts) }
    ensures ok { OnOk result ((line : List ℕ) → Holds session.old.begun line → (told : List ℕ)
        × LineStep M.answers machine.old line told machine.new
        × Sends (W.contents writer.old) (W.contents writer.new)
        session.old.waiting.bytes.items session.new.waiting.bytes.items told) }
    ensures err { OnErr result ((line : List ℕ) → Holds session.old.begun line
        → (told : List ℕ) × (lost : List ℕ)
        × LineStep M.answers machine.old line told machine.new
        × Sends (W.contents writer.old) (W.contents writer.new)
        session.old.waiting.bytes.items lost told) }
{
    if let Err(fault) = make_reply(rt, machine, session) {
        session.waiting.flush(writer, writes)?;
        return Err(fault);
    }
    session.begun.clear();
    session.waiting.send(writer, writes, &session.reply)
}

/// Makes the reply to the line that has begun.
fn make_reply<H: AllocGlobal + Threads + Wait, M: Machine>(
    rt: &H,
    machine: &mut M,
    session: &mut Session,
) -> Result<(), Fault>
    requires { 64 ≤ vec_capacity session.old.reply }
    ensures room { 64 ≤ vec_capacity session.new.reply }
    ensures waiting { session.new.waiting.bytes.items ≡ session.old.waiting.bytes.items }
    ensures ok { OnOk result ((line : List ℕ) → Holds session.old.begun line
        → LineStep M.answers machine.old line session.new.reply.items machine.new) }
    ensures err { OnErr result (machine.new ≡ machine.old) }
    ensures fault { OnErr result ((result ≡ Err Fault.Runtime) × M.halts) }
{
    session.reply.clear();
    match session.begun.lost {
        Some(Lost::TooLong) => put(&mut session.reply, LONG_LINE),
        Some(Lost::NoMemory) => put(&mut session.reply, NO_MEMORY),
        None => ask(
            rt,
            machine,
            without_return(&session.begun.bytes),
            &mut session.reply,
        )?,
    }
    Ok(())
}

/// Has the machine answer a line, or want of memory in its place.
fn ask<H: AllocGlobal + Threads + Wait, M: Machine>(
    rt: &H,
    machine: &mut M,
    line: &[u8],
    reply: &mut Vec<u8>,
) -> Result<(), Fault>
    requires empty { reply.old.items ≡ [] }
    requires room { 64 ≤ vec_capacity reply.old }
    ensures room { 64 ≤ vec_capacity reply.new }
    ensures ok { OnOk result (M.answers machine.old line.now reply.new.items machine.new
        ⊎ ((reply.new.items ≡ no_memory) × (machine.new ≡ machine.old))) }
    ensures err { OnErr result (machine.new ≡ machine.old) }
    ensures fault { OnErr result ((result ≡ Err Fault.Runtime) × M.halts) }
{
    match machine.answer(rt, line, reply) {
        Ok(()) => Ok(()),
        Err(Unanswered::NoMemory) => {
            reply.clear();
            put(reply, NO_MEMORY);
            Ok(())
        }
        Err(Unanswered::NoRuntime) => Err(Fault::Runtime),
    }
}

/// Puts a short text into the room that is there.
fn put(reply: &mut Vec<u8>, text: &[u8])
    requires empty { reply.old.items ≡ [] }
    requires room { 64 ≤ vec_capacity reply.old }
    requires short { length text.now ≤ 64 }
    ensures items { reply.new.items ≡ text.now }
    ensures room { 64 ≤ vec_capacity reply.new }
{
    reply.extend_from_slice(text).unwrap();
}

/// The line without one carriage return at its end.
fn without_return(line: &[u8]) -> &[u8]
    ensures { result.now ≡ strip_last 13 line.now }
{
    match line {
        [front @ .., b'\r'] => front,
        _ => line,
    }
}
