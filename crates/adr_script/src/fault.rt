//! How a run ended.
ghost use Rattle.std.specs.Prelude.{◌≡◌, OnOk, OnErr};

use thiserror::Error;

/// Why a run ended before the input's end. Its text is what a program says of it.
#[derive(Clone, Copy, Debug, Drop, Error, PartialEq, Eq)]
pub enum Fault {
    /// A read failed.
    #[error("reading failed")]
    Reading,
    /// 4,294,967,296 reads were made, and the input hadn't ended.
    #[error("too many reads")]
    Reads,
    /// A write failed, took no byte, or was interrupted 4,294,967,296 times in a row.
    #[error("writing failed")]
    Writing,
    /// There was no memory to start with, or the machine found no runtime for a line.
    #[error("no runtime")]
    Runtime,
}

/// The exit status of a program that ends with a run: 0, or 1 for a fault.
pub fn status(outcome: &Result<(), Fault>) -> u8
    ensures ok { OnOk outcome.now (result ≡ 0) }
    ensures err { OnErr outcome.now (result ≡ 1) }
{
    match outcome {
        Ok(()) => 0,
        Err(_) => 1,
    }
}
