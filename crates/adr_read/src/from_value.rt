//! What it is to be read from a value of a body.
ghost use Rattle.std.specs.Prelude.{◌≡◌, ◌∷◌, List, pos};
ghost use Rattle.serde_json.specs.Data.{Data};
ghost use Rattle.adr_refusal.specs.Faults.{Gives};
ghost use Rattle.adr_refusal.specs.declared.refusal.Refusal.{Refusal};
ghost use Rattle.adr_read.specs.Coming.{coming, Tells};
ghost use Rattle.adr_read.specs.Tokens.{token_of, IsSound};
ghost use Rattle.adr_read.specs.declared.from_value.Context.{Context};

use crate::tokens::{Token, Tokens};
use adr_time::Moment;
use adr_value::Refusal;
use std::alloc::Global;

/// Where a value stands.
#[derive(Clone, Copy)]
pub(crate) struct Context {
    /// The moment of the edit, which a zero start stands for.
    pub(crate) moment: Moment,
    /// The place in the list, counted from 0, which an interval without an id has as its id.
    pub(crate) place: i64,
}

impl Context {
    /// Outside of any list, in an edit at that moment.
    pub(crate) fn at(moment: Moment) -> Context
        ensures { result ≡ record { moment = moment; place = pos 0 } }
    {
        Context { moment, place: 0 }
    }
}

/// What a value is read as, or its least fault. The refusal around it is `BadJson`, of a text that ends before the
/// value does or is no JSON, or `NoMemory`.
pub(crate) type ReadResult<T> = Result<Result<T, Refusal>, Refusal>;

/// What is read from a JSON value, token by token. A reading goes through the whole value and keeps its least fault;
/// only a text that is no JSON and want of memory end it early.
pub(crate) trait Read: Sized + Drop {
    /// What is wrong with a value.
    ghost faults: { Data → List Refusal };

    /// What a value stands for where nothing is wrong.
    ghost stands_for: { Context → Data → Self };

    /// Reads the value that begins with the token, within which `depth` arrays and objects may still open.
    fn read(
        alloc: Global,
        context: &Context,
        depth: usize,
        reader: &mut Tokens<'_>,
        token: Token<'_>,
    ) -> ReadResult<Self>
        requires sound { IsSound token }
        ensures { Tells (coming depth (token_of token.entry ∷ reader.old)) reader.new
            (λ d r. Gives r (faults d) (stands_for context.now d)) result };
}
