//! The program as a function of its runtime.

ghost use Rattle.std.specs.Prelude.{◌≤◌};

use adr_server::{Fault, Job, Logs, NoGate, Tie, fan, job, run, status};
use clap::{Error, error};
use std::alloc::Global;
use std::fmt::Display;
use std::process::ExitCode;
use std::rt::Env;
use std::sync::{Arc, Wait};
use std::thread::Threads;
use std::{env, io};

const FAULT: u8 = 1;

const BAD_COMMAND_LINE: u8 = 2;

/// More bytes than a list of an edit or a reply takes at once, and fewer than the 32 MiB up to which the C library learns.
const LARGE: usize = 16 << 20;

/// Does what the words of the command line ask for, and answers the exit status: 0 at the end of input, 1 after a
/// fault, 2 for a bad command line. What standard output and standard error take changes no status, but that a help
/// text which can't be written is a fault.
pub(crate) fn start_program<
    R: AllocGlobal
        + Env
        + Input
        + Print
        + Eprint
        + Threads
        + Wait
        + Clone
        + Drop
        + Send
        + Sync
        + 'static,
>(rt: &R) -> ExitCode {
    keep_freed_memory(rt.alloc());
    match words(rt) {
        Ok(words) => match job(rt.alloc(), words) {
            Ok(Job::Run(workers, tie)) => run_script(rt, workers, tie),
            Ok(Job::Fan(readers, tie)) => fan_script(rt, readers, tie),
            Err(error) => explain(rt, &error),
        },
        Err(error) if error.kind() == io::ErrorKind::InvalidData => {
            tell(rt, &"an argument is no text");
            ExitCode::from(BAD_COMMAND_LINE)
        }
        Err(_) => no_runtime(rt),
    }
}

/// Has the C library keep at hand what the script gives back. A list larger than all that it saw given back it takes
/// from the system, page by page, and gives back to it (mallopt(3), `M_MMAP_THRESHOLD`); so it is shown a larger one.
fn keep_freed_memory(alloc: Global) {
    let _large = Vec::<u8>::with_capacity(alloc, LARGE);
}

/// The words of the command line after the program's name.
fn words<R: AllocGlobal + Env>(rt: &R) -> io::Result<Vec<String>> {
    let mut arguments = env::args(rt)?;
    let _name = arguments.next();
    Ok(arguments.collect(rt.alloc())?)
}

/// Answers standard input on standard output.
fn run_script<R: AllocGlobal + Input + Print + Eprint + Threads + Wait + Sync>(
    rt: &R,
    workers: usize,
    tie: Tie,
) -> ExitCode
    requires { (1 ≤ workers) × (workers ≤ 64) }
{
    let mut reader = rt.reader();
    let mut writer = io::writer(rt);
    let mut logs = Logs::new();
    let outcome = run(rt, &mut reader, &mut writer, &mut logs, workers, tie);
    end(rt, &outcome)
}

/// Has readers answer standard input on standard output.
fn fan_script<
    R: AllocGlobal + Input + Print + Eprint + Threads + Wait + Clone + Drop + Send + 'static,
>(rt: &R, readers: usize, tie: Tie) -> ExitCode
    requires { (1 ≤ readers) × (readers ≤ 64) }
{
    let Ok(gate) = Arc::new(rt.alloc(), NoGate) else {
        return no_runtime(rt);
    };
    let mut reader = rt.reader();
    let mut writer = io::writer(rt);
    let mut logs = Logs::new();
    let outcome = fan(rt, &mut reader, &mut writer, &mut logs, readers, &gate, tie);
    end(rt, &outcome)
}

/// Says what ended the script, if a fault did, and answers the exit status.
fn end<R: Eprint>(rt: &R, outcome: &Result<(), Fault>) -> ExitCode {
    if let Err(fault) = outcome {
        tell(rt, fault);
    }
    ExitCode::from(status(outcome))
}

/// Says what is wrong with the command line, or gives the help that it asks for.
fn explain<R: Print + Eprint>(rt: &R, error: &Error) -> ExitCode {
    if error.kind() == error::ErrorKind::OutOfMemory {
        return no_runtime(rt);
    }
    let outcome = error.print(rt);
    if error.use_stderr() {
        return ExitCode::from(BAD_COMMAND_LINE);
    }
    match outcome {
        Ok(()) => ExitCode::SUCCESS,
        Err(_) => {
            tell(rt, &"writing failed");
            ExitCode::from(FAULT)
        }
    }
}

/// The end of a program that has no memory to begin with.
fn no_runtime<R: Eprint>(rt: &R) -> ExitCode {
    tell(rt, &"no runtime");
    ExitCode::from(FAULT)
}

/// Says a text on standard error, if it takes one.
fn tell<R: Eprint>(rt: &R, text: &impl Display) {
    let _unheard = eprintln!(rt; "adr: {text}");
}
