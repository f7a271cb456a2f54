//! A script with many readers.
ghost use Rattle.std.specs.Prelude.{◌≡◌, ◌≤◌, true, false, Err, OnOk, IsErrOf, IfSome, length};
ghost use Rattle.adr_script.specs.Logs.{has_read_failed, has_write_failed};
ghost use Rattle.adr_resolver.specs.Fan.{fan_start};
ghost use Rattle.adr_resolver.specs.Outcome.{AreNew, IsCaused};
ghost use Rattle.adr_fan.specs.Levels.{HasWritten, IsFanOutcome, IsFanRun};
ghost use Rattle.adr_fan.specs.Parts.{all_texts};

use crate::levels::{Collected, Ending, level};
use crate::mailbox::Mailbox;
use crate::script::FanDesk;
use crate::writing::write_parts;
use adr_board::{Board, Gate, Naming, NewBoard, Reader};
use adr_model::Tie;
use adr_resolver::BodyReader;
use adr_script::{Fault, Logs, WriteLog};
use std::alloc::{AllocError, Global};
use std::io::{Read, Write};
use std::marker::Brand;
use std::sync::{Arc, Wait};
use std::thread::Threads;

/// So many mailboxes.
fn mailboxes(alloc: Global, readers: usize) -> Result<Vec<Arc<Mailbox>>, AllocError> {
    let mut boxes = Vec::new(alloc);
    for _ in 0..readers {
        boxes.push(Arc::new(alloc, Mailbox::new(alloc))?)?;
    }
    Ok(boxes)
}

/// A desk before the first line, and its readers.
fn open<J: Naming, R: Wait>(
    rt: &R,
    alloc: Global,
    board: NewBoard,
    readers: usize,
    tie: Tie,
) -> Option<(FanDesk<J>, Vec<Reader<J>>)>
    requires readers { (1 ≤ readers) × (readers ≤ 64) }
    requires book { board.diary.page.book ≡ J.history }
    requires tie { tie ≡ J.tie }
    ensures { IfSome result (λ o. (o.0 ≡ fan_start tie) × (length o.1.items ≡ readers)) }
{
    let boxes = mailboxes(alloc, readers).ok()?;
    match Board::open::<J, R>(rt, alloc, board, readers, tie) {
        Ok((editor, seats)) => {
            let desk = FanDesk {
                editor,
                sent: Vec::new(alloc),
                boxes,
                bodies: BodyReader::keeping(alloc),
            };
            Some((desk, seats))
        }
        Err(_) => None,
    }
}

/// [`fan`] on this board, which is ended before the readers' parts are written.
fn fan_as<
    J: Naming + Send + 'static,
    H: AllocGlobal + Threads + Wait + Clone + Drop + Send + 'static,
    I: Read,
    W: Write,
    G: Gate + Send + Sync + Drop + 'static,
>(
    rt: &H,
    reader: &mut I,
    writer: &mut W,
    logs: &mut Logs,
    board: NewBoard,
    readers: usize,
    gate: &Arc<G>,
    tie: Tie,
) -> Result<(), Fault>
    requires readers { (1 ≤ readers) × (readers ≤ 64) }
    requires book { board.diary.page.book ≡ J.history }
    requires tie { tie ≡ J.tie }
    requires logs { AreNew logs.old }
    ensures { IsFanOutcome tie readers (I.remaining reader.old) (I.remaining reader.new) (W.contents writer.old) (W.contents writer.new) logs.new.reads logs.new.writes result }
{
    let Some((mut desk, seats)) = open::<J, H>(rt, rt.alloc(), board, readers, tie) else {
        return Err(Fault::Runtime);
    };
    let collected = level(rt, gate, reader, writer, logs, &mut desk, seats);
    close(rt, desk);
    match collected {
        Ok(collected) => write_all(&mut logs.writes, writer, collected),
        Err(stop) => Err(stop.fault()),
    }
}

/// Writes the parts, and ends as the input did.
fn write_all<W: Write>(
    writes: &mut WriteLog,
    writer: &mut W,
    collected: Collected,
) -> Result<(), Fault>
    requires { has_write_failed writes.old ≡ false }
    ensures write_ends { has_write_failed writes.new ≡ true → result ≡ Err Fault.Writing }
    ensures write_failed { IsErrOf result Fault.Writing → has_write_failed writes.new ≡ true }
    ensures written { HasWritten collected.ending result (W.contents writer.old) (W.contents writer.new) (all_texts 0 collected.parts.items) }
{
    let Collected { parts, ending } = collected;
    if write_parts(writes, writer, parts.as_slice()).is_err() {
        return Err(Fault::Writing);
    }
    match ending {
        Ending::All => Ok(()),
        Ending::ReadFailed => Err(Fault::Reading),
        Ending::NoMoreReads => Err(Fault::Reads),
    }
}

fn close<J: Naming, R: Wait>(rt: &R, desk: FanDesk<J>) {
    let FanDesk {
        editor,
        sent: _sent,
        boxes: _boxes,
        bodies: _bodies,
    } = desk;
    editor.close(rt);
}

/// Reads a script to its end. Edits and publications are answered line by line; each query is sent to all readers,
/// which answer it in threads of their own. Behind the replies to all lines stand those of each reader.
///
/// `logs` are new, `Logs::new()`; what the reads and writes met is noted there, so that a fault of reading or writing
/// comes only where a read or a write failed, or all the reads that there are were made. `readers` are 1 to 64, `gate`
/// is what each passes before it answers, and `tie` says which of two intervals of one priority governs.
///
/// # Errors
///
/// `Reading` and `Writing` where the reader or writer failed or took no byte, `Reads` after 4,294,967,296 reads,
/// `Runtime` where there was no memory to start with, a thread couldn't be started, or a reader's replies aren't in
/// order.
pub fn fan<
    H: AllocGlobal + Threads + Wait + Clone + Drop + Send + 'static,
    I: Read,
    W: Write,
    G: Gate + Send + Sync + Drop + 'static,
>(
    rt: &H,
    reader: &mut I,
    writer: &mut W,
    logs: &mut Logs,
    readers: usize,
    gate: &Arc<G>,
    tie: Tie,
) -> Result<(), Fault>
    requires readers { (1 ≤ readers) × (readers ≤ 64) }
    requires logs { AreNew logs.old }
    ensures run { IsFanRun tie readers (I.remaining reader.old) (I.remaining reader.new) (W.contents writer.old) (W.contents writer.new) result }
    ensures cause { IsCaused logs.new.reads logs.new.writes result }
    ensures read_ends { OnOk result (has_read_failed logs.new.reads ≡ false) }
{
    let board = NewBoard::new();
    fan_as::<Brand, H, I, W, G>(rt, reader, writer, logs, board, readers, gate, tie)
}
