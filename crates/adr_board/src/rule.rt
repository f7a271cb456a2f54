//! The rule under which readers and the editor share the last publication.
use crate::Publication;
use crate::shown::ShownPublication;
use crossbeam_utils::rule::{Outcome, Protocol};
use left_right::reader::Reader;
use left_right::writer::Writer;
use std::collections::LinkedList;
use std::marker::{Brand, PhantomData};

/// Names a board in types: which history its snapshots carry, and which rule for ties they go by. A call that opens a
/// board picks it, and an editor, its readers and what it told go together by it.
pub trait Naming {
    ghost use Rattle.logbook.specs.Pages.{Book};
    ghost use Rattle.adr_model.specs.declared.entry.Tie.{Tie};

    ghost history: { Book };

    ghost tie: { Tie };
}

impl Naming for Brand {
    ghost use Rattle.adr_model.specs.declared.entry.Tie.TheVariants.{Newest};

    ghost history = { record { number = 0; log_name = 0; cells_name = 0 } };

    ghost tie = { Newest };
}

/// What a thread knows: the publications that it has seen. No value of it is made.
pub type View = LinkedList<Publication>;

/// The rule of the board.
pub struct OneList<J: Naming> {
    of: PhantomData<J>,
}

impl<J: Naming> Protocol<ShownPublication, View> for OneList<J> {
    ghost use Rattle.std.specs.Prelude.{[], ◌∷◌};
    ghost use Rattle.adr_board.specs.Publications.{opening_book};
    ghost use Rattle.adr_board.specs.Rules.{Keeps};

    ghost holds = { Keeps J.tie J.history };

    ghost first = { opening_book ∷ [] };
}

/// What a look tells.
pub struct Look<J: Naming> {
    of: PhantomData<J>,
}

impl<J: Naming> Outcome<ShownPublication, View> for Look<J> {
    ghost use Rattle.adr_board.specs.Rules.{Looks};

    ghost then = { Looks J.tie J.history };
}

/// What a publication tells.
pub struct Add;

impl Outcome<ShownPublication, View> for Add {
    ghost use Rattle.adr_board.specs.Rules.{Adds};

    ghost then = { Adds };
}

/// A reader of copies that are swapped (`left_right`), under the rule of a board.
pub type RuledReader<J> = Reader<ShownPublication, View, OneList<J>>;

/// The one writer of such copies.
pub type RuledWriter<J> = Writer<ShownPublication, ShownPublication, View, OneList<J>>;
