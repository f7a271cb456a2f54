//! The machine that keeps the book and answers from its last publication.
ghost use Rattle.std.specs.Prelude.{◌≡◌, ◌+◌, ◌⊎◌, ◌<◌, ◌≤◌, OnOk, OnErr, IfOk, IfErr, Ok, Err};
ghost use Rattle.adr_refusal.specs.Answer.{Answers, OnlyNoMemory, result_map};
ghost use Rattle.adr_refusal.specs.declared.refusal.Refusal.TheVariants.{NoMemory, Full};
ghost use Rattle.adr_model.specs.Kept.{kept_start};
ghost use Rattle.adr_model.specs.Edits.{full_at, step_to};
ghost use Rattle.adr_model.specs.Answer.{at};
ghost use Rattle.adr_model.specs.Queries.{list, roll, types};

use crate::segments::segments_of;
use crate::state::state_of;
use crate::types::types_of;
use adr_book::{Book, judge};
use adr_calendar::{Calendar, State};
use adr_model::{Published, Segment, Tie};
use adr_object::{Edit, Id};
use adr_time::{End, Moment};
use adr_value::limits::{MOST_PUBLICATIONS, MOST_VERSION};
use adr_value::{PayloadType, Refusal};
use std::alloc::Global;
use std::marker::Model;

/// The book, and a copy of it that was made when it was published last.
pub struct Plain {
    tie: Tie,
    book: Book,
    published: Book,
    number: u64,
    alloc: Global,
}

impl Drop for Plain {
    fn drop(self) {
        let Plain {
            tie: _,
            book,
            published,
            number: _,
            alloc: _,
        } = self;
        drop(book);
        drop(published);
    }
}

impl Model for Plain {
    ghost use Rattle.std.specs.Prelude.{◌≡◌};
    ghost use Rattle.adr_book.specs.Ledger.{sealed_of};
    ghost use Rattle.adr_model.specs.Kept.{Kept};

    ghost Value = { Kept };

    ghost view = { λ p. record { tie = p.tie; base = p.book.base.version; current = p.book.objects; published = p.published.objects; number = p.number } };

    // The closed batches lead to what was published.
    ghost invariant = { λ p. p.published.objects ≡ sealed_of p.book };
}

impl Plain {
    /// No objects, published as number 0.
    pub fn new(alloc: Global, tie: Tie) -> Plain
        ensures { result ≡ kept_start tie }
    {
        Plain {
            tie,
            book: Book::new(alloc),
            published: Book::new(alloc),
            number: 0,
            alloc,
        }
    }

    /// Makes an edit, and answers the version. Cost: the edit's size, and some paths in trees.
    ///
    /// # Errors
    ///
    /// The least fault: `NoStart`, `AfterEndless` or `TimeRange` from the earliest interval that has one, `Exists`,
    /// `NotThere`, `NoProgram`, `NoVen`, `InUse`, `Full`. `NoMemory` may come in place of any answer. A refusal changes
    /// nothing.
    pub fn edit(&mut self, edit: Edit) -> Result<u64, Refusal>
        ensures ok { IfOk result (λ version. (step_to (full_at self.old.base) self.old.current edit ≡ Ok self.new.current) × (version ≡ self.new.current.version)) }
        ensures bound { IfOk result (λ version. version ≤ MOST_VERSION) }
        ensures kept { OnOk result (self.new ≡ record self.old { current = self.new.current }) }
        ensures refused { IfErr result (λ refusal. (refusal ≡ NoMemory) ⊎ (step_to (full_at self.old.base) self.old.current edit ≡ Err refusal)) }
        ensures unchanged { OnErr result (self.new ≡ self.old) }
    {
        judge(&self.book, &edit)?;
        self.book.commit(edit)?;
        Ok(self.book.version())
    }

    /// Publishes the objects as they are. Cost: a copy of the book, which shares all, and its seal.
    ///
    /// # Errors
    ///
    /// `Full` after 1,000,000 publications, `NoMemory` where there is no room for a copy. A refusal changes nothing.
    pub fn publish(&mut self) -> Result<Published, Refusal>
        ensures ok { OnOk result ((self.old.number < MOST_PUBLICATIONS)
            × (self.new ≡ record self.old { published = self.old.current; number = self.old.number + 1 })) }
        ensures bound { IfOk result (λ p. (p.number ≤ MOST_PUBLICATIONS) × (p.version ≤ MOST_VERSION)) }
        ensures answer { IfOk result (λ p. (p.number ≡ self.old.number + 1) × (p.version ≡ self.old.current.version)) }
        ensures refused { IfErr result (λ refusal. (refusal ≡ NoMemory) ⊎ ((refusal ≡ Full) × (MOST_PUBLICATIONS ≤ self.old.number))) }
        ensures unchanged { OnErr result (self.new ≡ self.old) }
    {
        if MOST_PUBLICATIONS <= self.number {
            return Err(Refusal::Full);
        }
        let copy = self.book.copy()?;
        self.book.seal()?;
        self.published = copy;
        self.number += 1;
        Ok(Published {
            number: self.number,
            version: self.published.version(),
        })
    }

    /// Counts the accepted edits from the last publication on, and answers its version. Cost: a copy of the book, which
    /// shares all.
    ///
    /// # Errors
    ///
    /// `NoMemory` where there is no room; then all is as it was.
    #[tactic(auto, unfolding(adr_model::specs::Edits::after_from))]
    pub fn condense(&mut self) -> Result<u64, Refusal>
        ensures answer { IfOk result (λ version. version ≡ self.old.published.version) }
        ensures bound { IfOk result (λ version. version ≤ MOST_VERSION) }
        ensures base { OnOk result (self.new ≡ record self.old { base = self.old.published.version }) }
        ensures memory { OnlyNoMemory result }
        ensures unchanged { OnErr result (self.new ≡ self.old) }
    {
        self.book.condense(&self.published)?;
        Ok(self.published.version())
    }

    /// The reply to `at`: what governs the resource for the type at the moment, in the last publication, and until
    /// when. Cost: all events and intervals are scanned, and those that apply once more for each end and start of an
    /// interval.
    ///
    /// # Errors
    ///
    /// `UnknownResource` where the publication has no such resource; `NoMemory` in place of any answer.
    pub fn at(
        &self,
        id: &Id,
        payload_type: &PayloadType,
        moment: Moment,
    ) -> Result<Vec<u8>, Refusal>
        ensures { Answers (result_map (λ v. v.items) result) (at self.now.tie self.now.published id.now payload_type.now moment) }
    {
        adr_calendar::at(self.alloc, self, id, payload_type, moment)
    }

    /// The reply to `list`: the segments of the window, each with what governs there. Cost: the entries of the type for
    /// the resource, times their starts and ends.
    ///
    /// # Errors
    ///
    /// `BadWindow` where the window doesn't begin before it ends, then `UnknownResource` where the publication has no
    /// such resource; `NoMemory` in place of any answer.
    pub fn list(
        &self,
        id: &Id,
        payload_type: &PayloadType,
        from: Moment,
        to: Moment,
    ) -> Result<Vec<u8>, Refusal>
        ensures { Answers (result_map (λ v. v.items) result) (list self.now.tie self.now.published id.now payload_type.now from to) }
    {
        adr_calendar::list(self.alloc, self, id, payload_type, from, to)
    }

    /// The reply to `roll`: the state of each resource, in order of creation. Cost: that of [`Plain::at`] for each
    /// resource.
    ///
    /// # Errors
    ///
    /// `NoMemory` where there is no room for the reply.
    pub fn roll(&self, payload_type: &PayloadType, moment: Moment) -> Result<Vec<u8>, Refusal>
        ensures { Answers (result_map (λ v. v.items) result) (roll self.now.tie self.now.published payload_type.now moment) }
    {
        adr_calendar::roll(self.alloc, self, payload_type, moment)
    }

    /// The reply to `types`: the payload types that govern the resource at some moment. Cost: all events for each of
    /// the 34 types and each private one.
    ///
    /// # Errors
    ///
    /// `UnknownResource` where the publication has no such resource; `NoMemory` in place of any answer.
    pub fn types(&self, id: &Id) -> Result<Vec<u8>, Refusal>
        ensures { Answers (result_map (λ v. v.items) result) (types self.now.tie self.now.published id.now) }
    {
        adr_calendar::types(self.alloc, self, id)
    }
}

impl Calendar for Plain {
    ghost tie = { λ plain. plain.tie };

    ghost objects = { λ plain. plain.published };

    fn book(&self) -> &Book {
        &self.published
    }

    fn state(
        &self,
        place: usize,
        payload_type: &PayloadType,
        moment: Moment,
    ) -> Result<State, Refusal> {
        let Some(resource) = self.published.resource_at(place) else {
            return Ok(State {
                governor: None,
                until: End::Endless,
            });
        };
        state_of(
            self.alloc,
            &self.published,
            self.tie,
            &resource.id,
            payload_type,
            moment,
        )
    }

    #[tactic(auto, using(crate::proofs::Windows::segments_are_calendar))]
    fn segments(
        &self,
        place: usize,
        payload_type: &PayloadType,
        from: Moment,
        to: Moment,
    ) -> Result<Vec<Segment>, Refusal> {
        let Some(resource) = self.published.resource_at(place) else {
            return Ok(Vec::new(self.alloc));
        };
        segments_of(
            self.alloc,
            &self.published,
            self.tie,
            &resource.id,
            payload_type,
            from,
            to,
        )
    }

    fn types(&self, place: usize) -> Result<Vec<PayloadType>, Refusal> {
        match self.published.resource_at(place) {
            Some(resource) => types_of(self.alloc, &self.published, self.tie, &resource.id),
            None => Ok(Vec::new(self.alloc)),
        }
    }
}
