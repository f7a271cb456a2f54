//! A whole run over any reader and writer.
ghost use Rattle.std.specs.Prelude.{◌≡◌, ◌≤◌, true, Err};
ghost use Rattle.adr_script.specs.Logs.{has_read_failed};
ghost use Rattle.adr_resolver.specs.Kept.{kept_reply, kept_next};
ghost use Rattle.adr_resolver.specs.Outcome.{AreNew, IsCaused, IsRun};
ghost use Rattle.adr_resolver.specs.Text.{script_reply, script_next, script_start};

use crate::edited::EditedBoard;
use crate::hands::{Hands, Workers};
use crate::machine::ScriptOf;
use crate::resolver::Resolver;
use adr_board::{Naming, NewBoard};
use adr_model::Tie;
use adr_script::{Fault, Logs, serve};
use std::io::{Read, Write};
use std::marker::Brand;
use std::sync::Wait;
use std::thread::Threads;

/// Reads a script to its end, and writes the reply to each line before more is read.
///
/// What is written is the text of what is read: the machine of edits and publications run over the lines, each query
/// answered from the objects that were published last. Any line may be refused for want of memory in its place, and
/// then changes nothing. `logs` are new, `Logs::new()`; what the reads and writes met is noted there, so that a fault
/// of reading or writing comes only where a read or a write failed, or all the reads that there are were made, and none
/// of these is passed over. `workers`, 1 to 64, share out the repairs of each edit; how many there are changes nothing
/// that is written. `tie` says which of two intervals of one priority governs.
///
/// # Errors
///
/// `Reading` and `Writing` where the reader or writer failed or took no byte, `Reads` after 4,294,967,296 reads,
/// `Runtime` where there is no memory to begin with, or a board could not be opened, for want of memory or of a
/// reader's place.
pub fn run<R: Read, W: Write>(
    rt: &(impl AllocGlobal + Threads + Wait + Sync),
    reader: &mut R,
    writer: &mut W,
    logs: &mut Logs,
    workers: usize,
    tie: Tie,
) -> Result<(), Fault>
    requires workers { (1 ≤ workers) × (workers ≤ 64) }
    requires logs { AreNew logs.old }
    ensures run { IsRun script_reply script_next (script_start tie) (R.remaining reader.old) (R.remaining reader.new) (W.contents writer.old) (W.contents writer.new) result }
    ensures cause { IsCaused logs.new.reads logs.new.writes result }
    ensures read_ends { has_read_failed logs.new.reads ≡ true → result ≡ Err Fault.Reading }
{
    let hands = Workers { rt, count: workers };
    run_on::<Brand, _, _, R, W>(rt, hands, NewBoard::new(), reader, writer, logs, tie)
}

/// Reads a script to its end as [`run`] does, by these hands on this board, which is ended before it answers.
fn run_on<J: Naming, C: Hands, H: AllocGlobal + Threads + Wait, R: Read, W: Write>(
    rt: &H,
    hands: C,
    board: NewBoard,
    reader: &mut R,
    writer: &mut W,
    logs: &mut Logs,
    tie: Tie,
) -> Result<(), Fault>
    requires ready { C.ready }
    requires history { board.diary.page.book ≡ J.history }
    requires tie { tie ≡ J.tie }
    requires logs { AreNew logs.old }
    ensures run { IsRun script_reply script_next (script_start tie) (R.remaining reader.old) (R.remaining reader.new) (W.contents writer.old) (W.contents writer.new) result }
    ensures cause { IsCaused logs.new.reads logs.new.writes result }
    ensures read_ends { has_read_failed logs.new.reads ≡ true → result ≡ Err Fault.Reading }
{
    let Ok(edited) = EditedBoard::<J, C>::open(rt, rt.alloc(), hands, board, tie) else {
        return Err(Fault::Runtime);
    };
    run_by(rt, edited, reader, writer, logs)
}

/// Reads a script to its end as [`run`] does, by this resolver, which is ended before it answers.
fn run_by<S: Resolver, H: AllocGlobal + Threads + Wait, R: Read, W: Write>(
    rt: &H,
    resolver: S,
    reader: &mut R,
    writer: &mut W,
    logs: &mut Logs,
) -> Result<(), Fault>
    requires { AreNew logs.old }
    ensures run { IsRun kept_reply kept_next (S.kept resolver) (R.remaining reader.old) (R.remaining reader.new) (W.contents writer.old) (W.contents writer.new) result }
    ensures cause { IsCaused logs.new.reads logs.new.writes result }
    ensures read_ends { has_read_failed logs.new.reads ≡ true → result ≡ Err Fault.Reading }
{
    let mut machine = ScriptOf::new(rt.alloc(), resolver);
    let served = serve(rt, reader, writer, logs, &mut machine);
    machine.into_resolver().close(rt);
    served
}
