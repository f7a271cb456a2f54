//! The plain machine's replies to a script.
ghost use Rattle.std.specs.Prelude.{◌≡◌, ◌≤◌, [], vec_capacity};

use adr_plain::Plain;
use adr_refusal::Refusal;
use adr_resolver::{Command, Tie, parse_line, put_condensed, put_ok, put_published, put_refusal};
use std::alloc::{AllocError, Global};
use std::io;

/// The room that a reply takes at most that is no answer to a query.
const REPLY_ROOM: usize = 64;

/// Puts what the machine replies to a command, its line's end among it.
fn put_reply(machine: &mut Plain, command: Command, reply: &mut Vec<u8>) -> Result<(), Refusal>
    requires empty { reply.old.items ≡ [] }
    requires room { 64 ≤ vec_capacity reply.old }
{
    match command {
        Command::Edit(edit) => put_ok(reply, machine.edit(edit)?),
        Command::Publish => {
            let published = machine.publish()?;
            put_published(reply, published.number, published.version);
        }
        Command::Condense => put_condensed(reply, machine.condense()?),
        Command::At(id, payload_type, moment) => *reply = machine.at(&id, &payload_type, moment)?,
        Command::List(id, payload_type, from, to) => {
            *reply = machine.list(&id, &payload_type, from, to)?;
        }
        Command::Roll(payload_type, moment) => *reply = machine.roll(&payload_type, moment)?,
        Command::Types(id) => *reply = machine.types(&id)?,
    }
    Ok(())
}

fn put_line(
    alloc: Global,
    machine: &mut Plain,
    line: &str,
    reply: &mut Vec<u8>,
) -> Result<(), Refusal>
    requires empty { reply.old.items ≡ [] }
    requires room { 64 ≤ vec_capacity reply.old }
{
    let command = parse_line(alloc, line.as_bytes())?;
    put_reply(machine, command, reply)
}

/// The line of a refusal, by its number and name.
fn refusal_line(alloc: Global, refusal: Refusal) -> Result<Vec<u8>, AllocError> {
    let mut line = Vec::with_capacity(alloc, REPLY_ROOM)?;
    put_refusal(&mut line, refusal);
    Ok(line)
}

/// What the machine replies to a line.
fn reply(alloc: Global, machine: &mut Plain, line: &str) -> Result<Vec<u8>, AllocError> {
    let mut reply = Vec::with_capacity(alloc, REPLY_ROOM)?;
    match put_line(alloc, machine, line, &mut reply) {
        Ok(()) => Ok(reply),
        Err(refusal) => refusal_line(alloc, refusal),
    }
}

fn print_each<R: AllocGlobal + Print>(rt: &R, machine: &mut Plain, script: &str) -> io::Result<()> {
    for line in script.lines() {
        let reply = reply(rt.alloc(), machine, line)?;
        Print::write_all(rt, &reply)?;
    }
    Ok(())
}

/// Prints what a new machine replies to the lines of the script.
pub(crate) fn print_replies<R: AllocGlobal + Print>(
    rt: &R,
    tie: Tie,
    script: &str,
) -> io::Result<()> {
    let mut machine = Plain::new(rt.alloc(), tie);
    let printed = print_each(rt, &mut machine, script);
    drop(machine);
    printed
}
