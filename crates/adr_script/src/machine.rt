//! What a script's lines are handed to.
ghost use Rattle.std.specs.Prelude.{◌≡◌, ◌≤◌, ℕ, List, [], OnOk, OnErr, IsErrOf, vec_capacity};
ghost use Rattle.adr_script.specs.declared.machine.Unanswered.TheVariants.{NoMemory};

use std::alloc::{AllocError, AllocFailed};
use std::sync::Wait;
use std::thread::Threads;
use thiserror::Error;

/// Why a line has no reply.
#[derive(Clone, Copy, Debug, Drop, Error, PartialEq, Eq)]
pub enum Unanswered {
    /// Memory was refused. The line is answered `refused 99 NoMemory`, and the run goes on.
    #[error("out of memory")]
    NoMemory,
    /// What answers lines is gone, as threads that can't be reached. The run ends.
    #[error("no runtime")]
    NoRuntime,
}

impl From<AllocError> for Unanswered {
    ghost from_gives = { λ _ error. error ≡ NoMemory };

    fn from(_error: AllocError) -> Unanswered {
        Unanswered::NoMemory
    }
}

impl<T: Drop> From<AllocFailed<T>> for Unanswered {
    ghost from_gives = { λ _ error. error ≡ NoMemory };

    fn from(_error: AllocFailed<T>) -> Unanswered {
        Unanswered::NoMemory
    }
}

/// What answers a script's lines, one after the other.
///
/// An implementer says by `answers` what a line may be replied and what that leaves, and by `halts`
/// whether it ever finds [`Unanswered::NoRuntime`]: one that never does gives `⊥`. An `Err` changes
/// nothing, so whatever may fail comes before the first change, and the reply to a change fits the
/// room that `reply` brings.
pub trait Machine {
    // The first machine may answer the line by these bytes, which leaves the second machine.
    ghost answers: { Self → List ℕ → List ℕ → Self → Type 0 };

    // The machine may find that there is no runtime.
    ghost halts: { Type 0 };

    /// Answers a line into `reply`, which is empty and has room for 64 bytes.
    ///
    /// The line has at most 4,194,304 bytes and no line feed, and has lost one carriage return at
    /// its end. The room is to stay: `reply` may be cleared and grown, but not replaced by less.
    ///
    /// # Errors
    ///
    /// Each [`Unanswered`], and the machine is as it was then; `NoRuntime` only from one that may halt.
    fn answer<H: AllocGlobal + Threads + Wait>(
        &mut self,
        rt: &H,
        line: &[u8],
        reply: &mut Vec<u8>,
    ) -> Result<(), Unanswered>
        requires empty { reply.old.items ≡ [] }
        requires room { 64 ≤ vec_capacity reply.old }
        ensures ok { OnOk result (answers self.old line.now reply.new.items self.new) }
        ensures err { OnErr result (self.new ≡ self.old) }
        ensures runtime { IsErrOf result Unanswered.NoRuntime → halts }
        ensures room { 64 ≤ vec_capacity reply.new };
}
