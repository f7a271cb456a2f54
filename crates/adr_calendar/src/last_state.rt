//! States that are told one after the other.
ghost use Rattle.std.specs.Prelude.{◌≡◌, IsTrue};
ghost use Rattle.std.specs.Option.{option_and_then, ForSome};
ghost use Rattle.adr_model.specs.Answer.{shown_of as shown_by, state_text};

use crate::calendar::State;
use crate::lines::put_state;
use crate::printing::put;
use crate::shown::shown_by_winner;
use adr_book::Book;
use adr_model::Winner;
use adr_value::{PayloadType, Refusal};
use std::alloc::Global;

fn is_same_winner(a: Winner, b: Winner) -> bool
    ensures { IsTrue result → a ≡ b }
{
    a.written == b.written && a.place == b.place
}

fn is_same_governor(a: Option<Winner>, b: Option<Winner>) -> bool
    ensures { IsTrue result → a ≡ b }
{
    match (a, b) {
        (Some(a), Some(b)) => is_same_winner(a, b),
        (None, None) => true,
        _ => false,
    }
}

fn is_same(a: &State, b: &State) -> bool
    ensures { IsTrue result → a.now ≡ b.now }
{
    is_same_governor(a.governor, b.governor) && a.until == b.until
}

/// The state that was told last, and its text: resources that follow each other mostly have one state.
#[derive(Drop)]
pub(crate) struct LastState<'a> {
    book: &'a Book,
    payload_type: &'a PayloadType,
    state: Option<State>,
    text: Vec<u8>,
    ghost told: { ForSome state (λ s. text.items ≡ state_text (option_and_then (shown_by book.now.objects payload_type.now) s.governor) s.until) },
}

impl<'a> LastState<'a> {
    ghost use Rattle.std.specs.Prelude.{◌++◌, OnOk, Some};
    ghost use Rattle.adr_refusal.specs.Answer.{OnlyNoMemory};

    pub(crate) fn none(
        alloc: Global,
        book: &'a Book,
        payload_type: &'a PayloadType,
    ) -> LastState<'a>
        ensures book { result.book.now ≡ book.now }
        ensures payload_type { result.payload_type.now ≡ payload_type.now }
    {
        LastState {
            book,
            payload_type,
            state: None,
            text: Vec::new(alloc),
        }
    }

    /// Appends the state.
    pub(crate) fn put(&mut self, out: &mut Vec<u8>, state: State) -> Result<(), Refusal>
        ensures book { self.new.book.now ≡ self.old.book.now }
        ensures payload_type { self.new.payload_type.now ≡ self.old.payload_type.now }
        ensures ok { OnOk result (out.new.items ≡ out.old.items ++ state_text (option_and_then (shown_by self.old.book.now.objects self.old.payload_type.now) state.governor) state.until) }
        ensures memory { OnlyNoMemory result }
    {
        self.turn_to(state)?;
        put(out, self.text.as_slice())
    }

    /// Prints the state, unless it is the last.
    fn turn_to(&mut self, state: State) -> Result<(), Refusal>
        ensures book { self.new.book.now ≡ self.old.book.now }
        ensures payload_type { self.new.payload_type.now ≡ self.old.payload_type.now }
        ensures ok { OnOk result (self.new.state ≡ Some state) }
        ensures memory { OnlyNoMemory result }
    {
        if let Some(last) = &self.state
            && is_same(last, &state)
        {
            return Ok(());
        }
        self.state = None;
        self.text.clear();
        let shown = shown_by_winner(self.book, self.payload_type, state.governor);
        put_state(&mut self.text, shown, state.until)?;
        self.state = Some(state);
        Ok(())
    }
}
