//! A book with its timelines.
ghost use Rattle.std.specs.Prelude.{◌≡◌, ◌≢◌, ◌++◌, ◌∷◌, [], ℤ, None, IfOk, IfSome, OnOk, OnErr};
ghost use Rattle.std.specs.Option.{option_copied, option_map_or};
ghost use Rattle.adr_refusal.specs.Answer.{OnlyNoMemory};
ghost use Rattle.adr_refusal.specs.Copy.{IsCopyOf};
ghost use Rattle.adr_model.specs.Governor.{governs};
ghost use Rattle.adr_model.specs.Timeline.{shows, IsCanonical};
ghost use Rattle.adr_book.specs.Ledger.{sealed_of};
ghost use Rattle.adr_schedule.specs.Seating.{AreSeatedFor};

use crate::Schedule;
use adr_book::Book;
use adr_model::Tie;
use adr_object::Id;
use adr_shared::Shared;
use adr_timeline::Timeline;
use adr_value::{PayloadType, Refusal};
use std::marker::Model;

/// A book, and a timeline for each resource and payload type of which something governs at some instant. Contracts see
/// the book and the rule for ties.
///
/// Resources to which the same events apply share their timelines, and copies share all.
pub struct Resolution {
    tie: Tie,
    book: Book,
    schedule: Shared<Schedule>,
}

// A function of its own, so that callers that let a resolution go need not look into it.
impl Drop for Resolution {
    fn drop(self) {
        let Resolution {
            tie: _,
            book,
            schedule,
        } = self;
        drop(book);
        drop(schedule);
    }
}

impl Model for Resolution {
    ghost use Rattle.adr_schedule.specs.Seating.{AreSeatedFor};
    ghost use Rattle.adr_schedule.specs.Resolved.{Resolved};

    ghost Value = { Resolved };

    ghost view = { λ r. record { tie = r.tie; book = r.book } };

    ghost invariant = { λ r. AreSeatedFor r.tie r.book.objects r.schedule };
}

impl Resolution {
    /// The book with the groups of its resources.
    pub fn of(tie: Tie, book: Book, schedule: Shared<Schedule>) -> Resolution
        requires { AreSeatedFor tie book.objects schedule }
        ensures tie { result.tie ≡ tie }
        ensures book { result.book ≡ book }
    {
        Resolution {
            tie,
            book,
            schedule,
        }
    }

    /// The rule for ties.
    pub fn tie(&self) -> Tie
        ensures { result ≡ self.now.tie }
    {
        self.tie
    }

    /// The book.
    pub fn book(&self) -> &Book
        ensures { result.now ≡ self.now.book }
    {
        &self.book
    }

    /// The groups of the book's resources.
    pub fn schedule(&self) -> &Schedule
        ensures { AreSeatedFor self.now.tie self.now.book.objects result.now }
    {
        self.schedule.get()
    }

    /// The timeline of the resource and the payload type, which is not empty; None where nothing governs at any
    /// instant. Cost: a few look-ups in trees.
    pub fn timeline(&self, id: &Id, payload_type: &PayloadType) -> Option<&Timeline>
        ensures shows { (t : ℤ) → option_map_or (λ l. shows l t) (option_copied result) None ≡ governs self.now.tie self.now.book.objects id.now payload_type.now t }
        ensures canonical { IfSome result (λ l. IsCanonical l.now) }
        ensures lasts { IfSome result (λ l. l.now ≢ []) }
    {
        let place = self.book.resource_place(id.lent())?;
        let group = self.schedule.get().group(place)?;
        group.timeline(payload_type)
    }

    /// A copy that shares all with this resolution, at no cost that grows.
    ///
    /// # Errors
    ///
    /// `NoMemory` where a share is refused.
    pub fn copy(&self) -> Result<Resolution, Refusal>
        ensures { IsCopyOf result self.now }
    {
        Ok(Resolution {
            tie: self.tie,
            book: self.book.copy()?,
            schedule: self.schedule.copy()?,
        })
    }

    /// Closes the open batch of the journal, also an empty one.
    ///
    /// # Errors
    ///
    /// `NoMemory` where there is no room for the batch; then all is as it was.
    pub fn seal(&mut self) -> Result<(), Refusal>
        ensures tie { self.new.tie ≡ self.old.tie }
        ensures base { self.new.book.base ≡ self.old.book.base }
        ensures objects { self.new.book.objects ≡ self.old.book.objects }
        ensures closed { OnOk result (self.new.book.closed ≡ self.old.book.closed ++ self.old.book.pending ∷ []) }
        ensures pending { OnOk result (self.new.book.pending ≡ []) }
        ensures unchanged { OnErr result (self.new ≡ self.old) }
        ensures refusal { OnlyNoMemory result }
    {
        self.book.seal()
    }

    /// Makes the objects of `at` the base, lets the closed batches go and answers the base's version: see
    /// `Book::condense`.
    ///
    /// # Errors
    ///
    /// `NoMemory` where there is no room; then all is as it was.
    pub fn condense(&mut self, at: &Book) -> Result<u64, Refusal>
        requires { at.now.objects ≡ sealed_of self.old.book }
        ensures tie { self.new.tie ≡ self.old.tie }
        ensures base { OnOk result (self.new.book.base ≡ at.now.objects) }
        ensures closed { OnOk result (self.new.book.closed ≡ []) }
        ensures pending { self.new.book.pending ≡ self.old.book.pending }
        ensures objects { self.new.book.objects ≡ self.old.book.objects }
        ensures version { IfOk result (λ version. version ≡ at.now.objects.version) }
        ensures unchanged { OnErr result (self.new ≡ self.old) }
        ensures refusal { OnlyNoMemory result }
    {
        self.book.condense(at)
    }
}
