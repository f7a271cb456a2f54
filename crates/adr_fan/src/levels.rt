//! The threads, one in each level of a recursion, and the input in the innermost.
ghost use Rattle.std.specs.Prelude.{◌≡◌, ◌≤◌, ◌^◌, false, [], IfOk, length};
ghost use Rattle.adr_script.specs.Logs.{reads_made, has_read_failed, has_write_failed};
ghost use Rattle.adr_fan.specs.Levels.{fault_of, GoesOn, IsServed};
ghost use Rattle.adr_fan.specs.Parts.{AreParts, AreTrue};

use crate::mailbox::Mailbox;
use crate::reading::{Answers, Part, Reply, start};
use crate::script::{FanDesk, close_all};
use adr_board::{Gate, Naming, Reader};
use adr_script::{Fault, Logs, serve};
use std::io::{Read, Write};
use std::sync::{Arc, Wait};
use std::thread::{PromisedHandle, Threads};

/// How the input ended, where its lines were answered.
#[derive(Clone, Copy, PartialEq, Eq)]
pub(crate) enum Ending {
    All,
    ReadFailed,
    NoMoreReads,
}

/// Why a run stops before that.
#[derive(Clone, Copy, PartialEq, Eq)]
pub(crate) enum Stop {
    WriteFailed,
    NoRuntime,
}

impl Stop {
    /// The fault of a run that stops so.
    pub(crate) fn fault(self) -> Fault
        ensures { result ≡ fault_of self }
    {
        match self {
            Stop::WriteFailed => Fault::Writing,
            Stop::NoRuntime => Fault::Runtime,
        }
    }
}

/// What the readers handed back, checked, reader 0 first.
#[derive(Drop)]
pub(crate) struct Collected {
    pub(crate) parts: Vec<Vec<Reply>>,
    pub(crate) ending: Ending,
}

/// Answers the lines, and closes the mailboxes.
fn serve_all<J: Naming, H: AllocGlobal + Threads + Wait, I: Read, W: Write>(
    rt: &H,
    reader: &mut I,
    writer: &mut W,
    logs: &mut Logs,
    desk: &mut FanDesk<J>,
) -> Result<Collected, Stop>
    requires made { reads_made logs.old.reads ≡ 0 }
    requires no_read { has_read_failed logs.old.reads ≡ false }
    requires no_write { has_write_failed logs.old.writes ≡ false }
    ensures served { IsServed desk.old (I.remaining reader.old) (I.remaining reader.new) (W.contents writer.old) (W.contents writer.new) logs.new.reads logs.new.writes desk.new result }
    ensures parts { IfOk result (λ c. c.parts.items ≡ []) }
    ensures bound { reads_made logs.new.reads ≤ 2 ^ 32 }
{
    let parts = Vec::new(rt.alloc());
    let served = serve(rt, reader, writer, logs, desk);
    close_all(rt, desk.boxes.as_slice());
    match served {
        Ok(()) => Ok(Collected {
            parts,
            ending: Ending::All,
        }),
        Err(Fault::Reading) => Ok(Collected {
            parts,
            ending: Ending::ReadFailed,
        }),
        Err(Fault::Reads) => Ok(Collected {
            parts,
            ending: Ending::NoMoreReads,
        }),
        Err(Fault::Writing) => Err(Stop::WriteFailed),
        Err(Fault::Runtime) => Err(Stop::NoRuntime),
    }
}

/// Starts the thread of the reader in this seat.
fn start_seat<
    J: Naming + Send + 'static,
    H: AllocGlobal + Threads + Wait + Clone + Drop + Send + 'static,
    G: Gate + Send + Sync + Drop + 'static,
>(
    rt: &H,
    gate: &Arc<G>,
    boxes: &[Arc<Mailbox>],
    seated: Reader<J>,
    seat: usize,
) -> Option<PromisedHandle<Part<J>, Answers<J>>> {
    let mailbox = boxes.get(seat)?;
    start(rt, gate, mailbox, seated, seat)
}

/// Starts a thread for the last of these readers, and goes on with the others. The innermost level answers the lines.
/// On the way back each level joins its thread and checks its replies.
pub(crate) fn level<
    J: Naming + Send + 'static,
    H: AllocGlobal + Threads + Wait + Clone + Drop + Send + 'static,
    I: Read,
    W: Write,
    G: Gate + Send + Sync + Drop + 'static,
>(
    rt: &H,
    gate: &Arc<G>,
    reader: &mut I,
    writer: &mut W,
    logs: &mut Logs,
    desk: &mut FanDesk<J>,
    seats: Vec<Reader<J>>,
) -> Result<Collected, Stop>
    requires made { reads_made logs.old.reads ≡ 0 }
    requires no_read { has_read_failed logs.old.reads ≡ false }
    requires no_write { has_write_failed logs.old.writes ≡ false }
    ensures served { IsServed desk.old (I.remaining reader.old) (I.remaining reader.new) (W.contents writer.old) (W.contents writer.new) logs.new.reads logs.new.writes desk.new result }
    ensures count { IfOk result (λ c. length c.parts.items ≡ length seats.items) }
    ensures parts { IfOk result (λ c. AreParts desk.new c.parts.items) }
    ensures bound { reads_made logs.new.reads ≤ 2 ^ 32 }
{
    let mut seats = seats;
    let Some(seated) = seats.pop() else {
        return serve_all(rt, reader, writer, logs, desk);
    };
    let Some(child) = start_seat(rt, gate, desk.boxes.as_slice(), seated, seats.len()) else {
        close_all(rt, desk.boxes.as_slice());
        return Err(Stop::NoRuntime);
    };
    let collected = level(rt, gate, reader, writer, logs, desk, seats);
    let part = child.join(rt);
    with_part(desk, part, collected)
}

/// What was collected, and the replies of one reader more, once they are checked. Nothing where nothing was collected.
fn with_part<J: Naming>(
    desk: &FanDesk<J>,
    part: Part<J>,
    collected: Result<Collected, Stop>,
) -> Result<Collected, Stop>
    requires { AreTrue J.tie part.reader.seen part.replies.items }
    ensures { GoesOn desk.now collected result }
{
    let Collected { mut parts, ending } = collected?;
    let Some(replies) = desk.check(part) else {
        return Err(Stop::NoRuntime);
    };
    if parts.push(replies).is_err() {
        return Err(Stop::NoRuntime);
    }
    Ok(Collected { parts, ending })
}
