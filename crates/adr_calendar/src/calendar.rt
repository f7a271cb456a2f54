//! What answers are printed from: a published book, and what governs by it.
ghost use Rattle.std.specs.Prelude.{◌≡◌, IfOk};
ghost use Rattle.adr_refusal.specs.Answer.{OnlyNoMemory};
ghost use Rattle.adr_calendar.specs.Segments.{types_of, IsCalendarOf, IsStateOf};

use adr_book::Book;
use adr_model::{Segment, Winner};
use adr_time::{End, Moment};
use adr_value::{PayloadType, Refusal};

/// What governs at a moment, and until when it stays so.
#[derive(Clone, Copy)]
pub struct State {
    /// The interval that governs, or None where nothing does.
    pub governor: Option<Winner>,
    /// The first moment at which something else governs, or nothing more; endless where it stays so.
    pub until: End,
}

/// A published book, and what governs by it: of a moment, of a window, and at any time.
///
/// An implementer says by `tie` under which rule for ties, and by `objects` of which book. A look-up takes the place of a
/// resource, counted from 0 in order of creation; where there is none, nothing governs. It answers `NoMemory` where
/// there is no room for what it answers, and no other refusal.
pub trait Calendar {
    ghost use Rattle.adr_model.specs.Book.{Book as Objects};
    ghost use Rattle.adr_model.specs.declared.entry.Tie.{Tie};

    ghost tie: { Self → Tie };

    ghost objects: { Self → Objects };

    /// The published book.
    fn book(&self) -> &Book
        ensures { result.now.objects ≡ objects self.now };

    /// What governs the resource at the place for the type at the moment, and until when.
    ///
    /// # Errors
    ///
    /// `NoMemory` where there is no room for it.
    fn state(
        &self,
        place: usize,
        payload_type: &PayloadType,
        moment: Moment,
    ) -> Result<State, Refusal>
        ensures ok { IfOk result (λ state. IsStateOf (tie self.now) (objects self.now) place payload_type.now moment state) }
        ensures memory { OnlyNoMemory result };

    /// The timeline of the resource at the place in the window, from a moment to before another.
    ///
    /// # Errors
    ///
    /// `NoMemory` where there is no room for it.
    fn segments(
        &self,
        place: usize,
        payload_type: &PayloadType,
        from: Moment,
        to: Moment,
    ) -> Result<Vec<Segment>, Refusal>
        ensures ok { IfOk result (λ v. IsCalendarOf (tie self.now) (objects self.now) place payload_type.now from to v.items) }
        ensures memory { OnlyNoMemory result };

    /// The types that govern the resource at the place at some moment, in the order in which they are listed.
    ///
    /// # Errors
    ///
    /// `NoMemory` where there is no room for them.
    fn types(&self, place: usize) -> Result<Vec<PayloadType>, Refusal>
        ensures ok { IfOk result (λ v. v.items ≡ types_of (tie self.now) (objects self.now) place) }
        ensures memory { OnlyNoMemory result };
}
