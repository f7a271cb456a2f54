//! What is told of a call, and how long it took.
//!
//! What is measured is let go by `drop` before an answer is looked at: at the end of its scope it would be taken apart,
//! field by field, in the proof of each function that has it. A line is printed by a function of its own, since a step
//! that prints is proved over the types of all that is in scope there.
ghost use Rattle.std.specs.Prelude.{◌≡◌, Ok, IfOk, IsErr, OnErr};

use adr_value::Refusal;
use std::io;
use std::rt::Clock;
use std::time::Instant;

/// The answer, with a refusal as an error of input and output.
///
/// # Errors
///
/// `OutOfMemory` for any refusal.
pub fn told<T: Drop>(answer: Result<T, Refusal>) -> io::Result<T>
    ensures ok { IfOk result (λ value. answer ≡ Ok value) }
    ensures err { OnErr result (IsErr answer) }
{
    match answer {
        Ok(value) => Ok(value),
        Err(_) => Err(io::ErrorKind::OutOfMemory.into()),
    }
}

/// The nanoseconds since then.
///
/// # Errors
///
/// That of the clock, at the start or now.
pub fn since<C: Clock>(clock: &C, start: io::Result<Instant>) -> io::Result<u128> {
    Ok(start?.elapsed(clock)?.as_nanos())
}

/// The nanoseconds since then, once a call has answered. What it made is let go after that.
///
/// # Errors
///
/// That of the clock; `OutOfMemory` where the call was refused.
pub fn taken<C: Clock, T: Drop, E: Drop>(
    clock: &C,
    start: io::Result<Instant>,
    answer: Result<T, E>,
) -> io::Result<u128> {
    let nanoseconds = since(clock, start);
    match answer {
        Ok(value) => {
            drop(value);
            nanoseconds
        }
        Err(_) => Err(io::ErrorKind::OutOfMemory.into()),
    }
}

/// Prints whether what the call left, or made, is what there is without a refusal.
///
/// # Errors
///
/// That of the standard output.
pub fn tell_same(rt: &impl Print, is_same: bool) -> io::Result<()> {
    println!(rt;
        "{}",
        if is_same {
            "  the same"
        } else {
            "  not the same"
        }
    )
}

/// Prints the call that comes next, by its line and number, so that no two of a part are the same.
///
/// # Errors
///
/// That of the standard output.
pub fn tell_call(rt: &impl Print, line: &str, number: usize) -> io::Result<()> {
    println!(rt; "{line}: call {number}")
}

/// Prints the call that comes next.
///
/// # Errors
///
/// That of the standard output.
pub fn tell_next(rt: &impl Print, call: &str) -> io::Result<()> {
    println!(rt; "{call}")
}

/// Prints that a call was refused.
///
/// # Errors
///
/// That of the standard output.
pub fn tell_want(rt: &impl Print) -> io::Result<()> {
    println!(rt; "  refused")
}

/// Prints that a call was refused, and whether all is as before it.
///
/// # Errors
///
/// That of the standard output.
pub fn tell_refused(rt: &impl Print, is_same: bool) -> io::Result<()> {
    tell_want(rt)?;
    tell_same(rt, is_same)
}

/// Prints what a call answered.
///
/// # Errors
///
/// That of the standard output.
pub fn tell_ordinary(rt: &impl Print, answer: Result<u64, Refusal>) -> io::Result<()> {
    match answer {
        Ok(number) => println!(rt; "  ordinary: {number}"),
        Err(refusal) => println!(rt; "  ordinary: {refusal}"),
    }
}
