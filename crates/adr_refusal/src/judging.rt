//! The least of a set of faults.
//!
//! Where several things are wrong with one input, the fault of the least number is answered, so a reader
//! looks at every part before it answers. It keeps each part as a `Result` of its own, and joins them by
//! `both` in place of leaving at the first `?`:
//!
//! ```text
//! let name = read_name(body);
//! let targets = read_targets(body);
//! let (name, targets) = both(name, targets)?;
//! ```
//!
//! Where the parts are elements of a list, it makes a `Faults`, passes it each fault by `note`, and ends
//! with `answer`. Want of memory is no fault of the input: both hand it on at once.
ghost use Rattle.std.specs.Prelude.{◌≡◌, ◌≢◌, List, ◌++◌, IfOk, IfErr, OnOk, ℕ, min};
ghost use Rattle.adr_refusal.specs.Answer.{OnlyNoMemory};
ghost use Rattle.adr_refusal.specs.Faults.{Gives, IsRefusedFor, LeastIsLeast, NoneIsNone, none};
ghost use Rattle.adr_refusal.specs.Refusal.{number_of};
ghost use Rattle.adr_refusal.specs.declared.refusal.Refusal.{Refusal};

use crate::refusal::Refusal;
use std::marker::Model;

/// The least of the faults that were noted so far.
///
/// Contracts see its number, or 100 where there is none.
#[derive(Drop, Debug)]
pub struct Faults {
    least: Option<Refusal>,
}

impl Model for Faults {
    ghost use Rattle.std.specs.Prelude.{ℕ, ◌≡◌};
    ghost use Rattle.adr_refusal.specs.Faults.{least_of};

    ghost Value = { ℕ };

    ghost view = { λ f. least_of f.least };
}

impl Faults {
    /// No faults yet.
    pub fn new() -> Faults
        ensures { result ≡ none }
    {
        Faults { least: None }
    }

    /// Adds a fault, which counts only where none of a lesser number was noted.
    ///
    /// # Errors
    ///
    /// `NoMemory` where it is passed that, which is no fault: it is handed back, for the caller's `?`, and nothing is
    /// noted.
    pub fn note(&mut self, refusal: Refusal) -> Result<(), Refusal>
        ensures noted { OnOk result (self.new ≡ min self.old (number_of refusal)) }
        ensures fault { OnOk result (number_of refusal ≢ 99) }
        ensures memory { OnlyNoMemory result }
    {
        if refusal == Refusal::NoMemory {
            return Err(refusal);
        }
        match self.least {
            Some(least) if least.number() <= refusal.number() => {}
            _ => self.least = Some(refusal),
        }
        Ok(())
    }

    /// Ends the judging with the value, where no fault was noted.
    ///
    /// # Errors
    ///
    /// The fault of the least number of those that were noted.
    pub fn answer<T: Drop>(self, value: T) -> Result<T, Refusal>
        ensures value { IfOk result (λ v. (v ≡ value) × (self ≡ none)) }
        ensures refused { IfErr result (λ f. number_of f ≡ self) }
    {
        match self.least {
            Some(least) => Err(least),
            None => Ok(value),
        }
    }
}

// The lesser of two refusals. Want of memory goes before each fault.
fn lesser(first: Refusal, second: Refusal) -> Refusal
    ensures { (m n : ℕ) → IsRefusedFor first m → IsRefusedFor second n
        → IsRefusedFor result (min m n) }
{
    if first == Refusal::NoMemory {
        first
    } else if second == Refusal::NoMemory || second.number() < first.number() {
        second
    } else {
        first
    }
}

/// Both values, where neither part is refused.
///
/// If each part answers its value or the least of its own faults, the whole answers both values or the least
/// of all the faults.
///
/// # Errors
///
/// The refusal of the one part that is refused, or of two the one of the lesser number; `NoMemory` goes before each
/// other.
pub fn both<A: Drop, B: Drop>(
    first: Result<A, Refusal>,
    second: Result<B, Refusal>,
) -> Result<(A, B), Refusal>
    ensures { (fs gs : List Refusal) (a : A) (b : B) → Gives first fs a → Gives second gs b
        → Gives result (fs ++ gs) (a, b) }
{
    let first = match first {
        Ok(first) => first,
        Err(first) => {
            let Err(second) = second else {
                return Err(first);
            };
            return Err(lesser(first, second));
        }
    };
    Ok((first, second?))
}

/// The laws of the least fault: `least_fault` answers a member of the list that is no greater than any other,
/// and nothing only for the empty list.
pub fn fault_laws()
    ensures least { LeastIsLeast }
    ensures none { NoneIsNone }
{}
