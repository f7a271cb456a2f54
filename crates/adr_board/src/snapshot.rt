//! Snapshots: a published book with its timelines, which many readers may share, and the answers to queries from it.
ghost use Rattle.std.specs.Prelude.{◌≡◌, ◌≢◌, ◌+◌, ◌≤◌, [], ℤ, length, IfOk, IfSome};
ghost use Rattle.std.specs.Prelude.{slice_get, None, MatchOption};
ghost use Rattle.std.specs.Option.{option_copied, option_map_or};
ghost use Rattle.adr_refusal.specs.Answer.{OnlyNoMemory};
ghost use Rattle.adr_refusal.specs.Copy.{IsCopyOf};
ghost use Rattle.adr_value.specs.declared.limits.TheConstants.{MOST_VERSION};
ghost use Rattle.adr_value.specs.declared.payload.PayloadType.{PayloadType as AnyType};
ghost use Rattle.adr_model.specs.Book.{empty};
ghost use Rattle.adr_model.specs.Governor.{governs};
ghost use Rattle.adr_model.specs.Timeline.{shows, IsCanonical};
ghost use Rattle.adr_book.specs.Ledger.{closed_edits, sealed_of};
ghost use Rattle.adr_group.specs.Group.{shown_in};
ghost use Rattle.adr_board.specs.Published.{last_batch, IsPublished};
ghost use Rattle.adr_board.specs.Types.{HasPrivateNames};

mod calendar;
mod lines;
mod names;
mod types;

pub(crate) use crate::snapshot::names::{
    has_private_names, names_of_first_batch, names_stay_private,
};
use adr_book::{Base, Book};
use adr_group::Group;
use adr_model::Tie;
use adr_object::{Edit, Id};
use adr_schedule::{Resolution, Schedule};
use adr_shared::{Shared, SharedList};
use adr_timeline::Timeline;
use adr_value::{PayloadType, Refusal};
use std::alloc::Global;
use std::marker::Model;

/// A publication: its number, and the book as it was published, with a timeline for each resource and payload type of
/// which something governs. Contracts see the number, the rule for ties and the book, which has no open batch.
///
/// Nothing changes a snapshot, and copies share all.
pub struct Snapshot {
    number: u64,
    resolution: Resolution,
    alloc: Global,
}

// A function of its own, so that callers that let a snapshot go need not look into it.
impl Drop for Snapshot {
    fn drop(self) {
        let Snapshot {
            number: _,
            resolution,
            alloc: _,
        } = self;
        drop(resolution);
    }
}

impl Model for Snapshot {
    ghost use Rattle.adr_board.specs.Published.{PublishedBook, IsPublished};

    ghost Value = { PublishedBook };

    ghost view = { λ s. record { number = s.number; tie = s.resolution.tie; book = s.resolution.book } };

    ghost invariant = { λ s. IsPublished s.resolution.book };
}

impl Snapshot {
    /// Publication number 0: the empty book.
    ///
    /// # Errors
    ///
    /// `NoMemory` where there is no room for it.
    pub fn first(alloc: Global, tie: Tie) -> Result<Snapshot, Refusal>
        ensures number { IfOk result (λ snapshot. snapshot.number ≡ 0) }
        ensures tie { IfOk result (λ snapshot. snapshot.tie ≡ tie) }
        ensures base { IfOk result (λ snapshot. snapshot.book.base ≡ empty) }
        ensures objects { IfOk result (λ snapshot. snapshot.book.objects ≡ empty) }
        ensures closed { IfOk result (λ snapshot. snapshot.book.closed ≡ []) }
        ensures refusal { OnlyNoMemory result }
    {
        let schedule = Shared::new(alloc, Schedule::new(alloc)?)?;
        Ok(Snapshot {
            number: 0,
            resolution: Resolution::of(tie, Book::new(alloc), schedule),
            alloc,
        })
    }

    /// The publication of that number, of a resolution that is sealed. `names_stay_private` shows the second condition
    /// of the books that edits leave.
    pub fn of(alloc: Global, number: u64, resolution: Resolution) -> Snapshot
        requires sealed { resolution.book.pending ≡ [] }
        requires names { HasPrivateNames resolution.book.objects }
        ensures number { result.number ≡ number }
        ensures tie { result.tie ≡ resolution.tie }
        ensures book { result.book ≡ resolution.book }
    {
        Snapshot {
            number,
            resolution,
            alloc,
        }
    }

    /// How many publications there were before it, from number 0 on.
    pub fn number(&self) -> u64
        ensures { result ≡ self.now.number }
    {
        self.number
    }

    /// The number of accepted edits up to the publication.
    pub fn version(&self) -> u64
        ensures value { result ≡ self.now.book.objects.version }
        ensures counted { result ≡ self.now.book.base.version + length (closed_edits self.now.book.closed) }
        ensures bound { result ≤ MOST_VERSION }
    {
        self.resolution.book().version()
    }

    /// The rule for ties.
    pub fn tie(&self) -> Tie
        ensures { result ≡ self.now.tie }
    {
        self.resolution.tie()
    }

    /// The book: its objects, and the journal since its base.
    pub fn book(&self) -> &Book
        ensures { result.now ≡ self.now.book }
    {
        self.resolution.book()
    }

    /// What the journal starts from.
    pub fn base(&self) -> &Base
        ensures { result.now ≡ self.now.book.base }
    {
        self.resolution.book().base()
    }

    /// The edits since the publication before; none for number 0. They are the last batch of the journal.
    pub fn batch(&self) -> &SharedList<Edit>
        ensures { result.now ≡ last_batch self.now.book.closed }
    {
        let journal = self.resolution.book().journal();
        let closed = journal.closed();
        match closed.at(closed.len().saturating_sub(1)) {
            Some(batch) => batch.edits(),
            None => journal.pending(),
        }
    }

    /// The timeline of the resource and the payload type, which is not empty; None where nothing governs at any
    /// instant. Cost: a few look-ups in trees.
    pub fn timeline(&self, id: &Id, payload_type: &PayloadType) -> Option<&Timeline>
        ensures shows { (t : ℤ) → option_map_or (λ l. shows l t) (option_copied result) None ≡ governs self.now.tie self.now.book.objects id.now payload_type.now t }
        ensures canonical { IfSome result (λ l. IsCanonical l.now) }
        ensures lasts { IfSome result (λ l. l.now ≢ []) }
    {
        self.resolution.timeline(id, payload_type)
    }

    /// The timelines of the resource at the place, which it may share with others; None where there is no resource.
    pub(crate) fn group(&self, place: usize) -> Option<&Group>
        ensures { MatchOption (slice_get self.now.book.objects.resources place) (option_copied result ≡ None) (λ r. (k : AnyType) (t : ℤ) → option_map_or (λ g. shown_in g.lines k t) (option_copied result) None ≡ governs self.now.tie self.now.book.objects r.id k t) }
    {
        let schedule = self.resolution.schedule();
        self.resolution.book().book_laws();
        schedule.group(place)
    }

    /// The timeline of the resource at the place and the payload type; None where nothing governs at any instant, or
    /// there is no resource. Cost: a look-up in a table, one in a tree of the groups and one among the group's types.
    pub(crate) fn line(&self, place: usize, payload_type: &PayloadType) -> Option<&Timeline>
        ensures { MatchOption (slice_get self.now.book.objects.resources place) (option_copied result ≡ None) (λ r. (t : ℤ) → option_map_or (λ l. shows l t) (option_copied result) None ≡ governs self.now.tie self.now.book.objects r.id payload_type.now t) }
    {
        let group = self.group(place)?;
        group.timeline(payload_type)
    }

    /// Where lists for answers take their memory.
    pub(crate) fn allocator(&self) -> Global {
        self.alloc
    }

    /// The laws of what every snapshot keeps. No batch is open, the journal leads from the base to the objects, and no
    /// private type has a name of the table.
    pub fn snapshot_laws(&self)
        ensures published { IsPublished self.now.book }
        ensures leads { sealed_of self.now.book ≡ self.now.book.objects }
    {
        let _journal = self.resolution.book().journal();
    }

    /// A copy that shares all with this publication, at no cost that grows.
    ///
    /// # Errors
    ///
    /// `NoMemory` where a share is refused.
    pub fn copy(&self) -> Result<Snapshot, Refusal>
        ensures { IsCopyOf result self.now }
    {
        Ok(Snapshot {
            number: self.number,
            resolution: self.resolution.copy()?,
            alloc: self.alloc,
        })
    }
}
