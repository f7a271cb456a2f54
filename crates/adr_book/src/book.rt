//! The book.
ghost use Rattle.std.specs.Prelude.{◌≡◌, ◌+◌, ◌++◌, ◌∷◌, [], ◌≤◌, length, is_some, slice_get, Ok, IsOk, IfSome, OnOk, OnErr, IfOk};
ghost use Rattle.std.specs.Option.{option_copied, option_map};
ghost use Rattle.adr_refusal.specs.Answer.{Answers, OnlyNoMemory, result_map};
ghost use Rattle.adr_refusal.specs.Copy.{IsCopyOf};
ghost use Rattle.adr_value.specs.Limits.{limits};
ghost use Rattle.adr_model.specs.Book.{empty, program_by, ven_by, resource_by, event_by};
ghost use Rattle.adr_model.specs.Edits.{after_from, count_of, full_at, made, most_objects, step_to};
ghost use Rattle.adr_model.specs.Whole.{IsWhole};
ghost use Rattle.adr_model.specs.Within.{IsWithin};
ghost use Rattle.adr_book.specs.Ledger.{journal_of, sealed_of};
ghost use Rattle.adr_store.specs.Numbers.{by_number};

use crate::base::Base;
use crate::journal::Journal;
use crate::judging::{Judged, judge_on, judged_on};
use adr_object::{Edit, Event, Id, IdText, Kind, Program, Resource, Ven};
use adr_store::{Shared, Store};
use adr_value::Refusal;
use adr_value::limits::MOST_VERSION;
use std::alloc::Global;
use std::marker::Model;

/// The objects that the accepted edits left, and those edits in batches, from the base on.
///
/// The objects of each kind stand in order of creation: a change keeps an object's place, a delete closes the
/// gap, and a new object goes last. Copies of a book share its objects and edits.
pub struct Book {
    base: Base,
    objects: Store,
    journal: Journal,
    alloc: Global,
}

impl Drop for Book {
    fn drop(self) {
        let Book {
            base,
            objects,
            journal,
            alloc: _,
        } = self;
        drop(base);
        drop(objects);
        drop(journal);
    }
}

impl Model for Book {
    ghost use Rattle.adr_book.specs.Ledger.{Leads, Ledger, joined};

    ghost Value = { Ledger };

    ghost view = { λ b. record { base = b.base; objects = b.objects; closed = b.journal.closed; pending = b.journal.pending } };

    // The journal's edits lead from the base to the objects, and are no more than a journal has room for.
    ghost invariant = { λ b. Leads b.base (joined b.journal.closed b.journal.pending) b.objects };
}

impl Book {
    /// The book before any edit.
    pub fn new(alloc: Global) -> Book
        ensures base { result.base ≡ empty }
        ensures objects { result.objects ≡ empty }
        ensures closed { result.closed ≡ [] }
        ensures pending { result.pending ≡ [] }
    {
        Book {
            base: Base::new(alloc),
            objects: Store::new(alloc),
            journal: Journal::new(),
            alloc,
        }
    }

    /// The number of accepted edits, those before the base too.
    pub fn version(&self) -> u64
        ensures value { result ≡ self.now.objects.version }
        ensures counted { result ≡ self.now.base.version + length (journal_of self.now) }
        ensures bound { result ≤ MOST_VERSION }
    {
        self.objects.version()
    }

    /// How many objects of the kind there are.
    pub fn count(&self, kind: Kind) -> usize
        ensures value { result ≡ count_of self.now.objects kind }
        ensures bound { result ≤ most_objects kind }
    {
        self.objects.count(kind)
    }

    /// The program with the id.
    pub fn program(&self, id: &Id) -> Option<&Program>
        ensures { option_copied result ≡ program_by self.now.objects id.now }
    {
        self.objects.program(id)
    }

    /// The program at the place, counted from 0 in order of creation.
    pub fn program_at(&self, place: usize) -> Option<&Program>
        ensures { option_copied result ≡ slice_get self.now.objects.programs place }
    {
        self.objects.program_at(place)
    }

    /// The ven with the id.
    pub fn ven(&self, id: &Id) -> Option<&Ven>
        ensures { option_copied result ≡ ven_by self.now.objects id.now }
    {
        self.objects.ven(id)
    }

    /// The ven at the place, counted from 0 in order of creation.
    pub fn ven_at(&self, place: usize) -> Option<&Ven>
        ensures { option_copied result ≡ slice_get self.now.objects.vens place }
    {
        self.objects.ven_at(place)
    }

    /// The resource with the id.
    pub fn resource(&self, id: &Id) -> Option<&Resource>
        ensures { option_copied result ≡ resource_by self.now.objects id.now }
    {
        self.objects.resource(id)
    }

    /// The resource at the place, counted from 0 in order of creation.
    pub fn resource_at(&self, place: usize) -> Option<&Resource>
        ensures { option_copied result ≡ slice_get self.now.objects.resources place }
    {
        self.objects.resource_at(place)
    }

    /// The place of the resource with the id, counted from 0 in order of creation. A look-up, not a scan.
    pub fn resource_place(&self, id: IdText<'_>) -> Option<usize>
        ensures found { is_some result ≡ is_some (resource_by self.now.objects id.entry) }
        ensures value { IfSome result (λ place. slice_get self.now.objects.resources place ≡ resource_by self.now.objects id.entry) }
    {
        self.objects.resource_place(id)
    }

    /// The event with the id.
    pub fn event(&self, id: &Id) -> Option<&Event>
        ensures { option_copied result ≡ option_map (λ w. w.event) (event_by self.now.objects id.now) }
    {
        self.objects.event(id)
    }

    /// The place of the event with the id, counted from 0 in order of creation.
    pub fn event_place(&self, id: &Id) -> Option<usize>
        ensures found { is_some result ≡ is_some (event_by self.now.objects id.now) }
        ensures value { IfSome result (λ place. slice_get self.now.objects.events place ≡ event_by self.now.objects id.now) }
    {
        self.objects.event_place(id)
    }

    /// The event at the place, counted from 0 in order of creation.
    pub fn event_at(&self, place: usize) -> Option<&Event>
        ensures { option_copied result ≡ option_map (λ w. w.event) (slice_get self.now.objects.events place) }
    {
        self.objects.event_at(place)
    }

    /// The number of the edit that created or last changed the event with the id.
    pub fn written(&self, id: &Id) -> Option<u64>
        ensures { result ≡ option_map (λ w. w.written) (event_by self.now.objects id.now) }
    {
        self.objects.written(id)
    }

    /// The number of the edit that created or last changed the event at the place.
    pub fn written_at(&self, place: usize) -> Option<u64>
        ensures { result ≡ option_map (λ w. w.written) (slice_get self.now.objects.events place) }
    {
        self.objects.written_at(place)
    }

    /// The event that the edit of that number created or last changed. A look-up, not a scan.
    pub fn event_by(&self, written: u64) -> Option<&Event>
        ensures { option_copied result ≡ option_map (λ w. w.event) (by_number self.now.objects.events written) }
    {
        self.objects.event_by(written)
    }

    /// The objects themselves.
    pub fn objects(&self) -> &Store
        ensures { result.now ≡ self.now.objects }
    {
        &self.objects
    }

    /// The laws of what every book keeps. Ids and numbers are distinct, what an object names is there, and each event
    /// can be laid out. No limit of objects, entries or the version is passed, nor that of the edits since the base.
    pub fn book_laws(&self)
        ensures whole { IsWhole self.now.objects }
        ensures within { IsWithin limits MOST_VERSION self.now.objects }
        ensures room { self.now.objects.version ≤ full_at self.now.base.version }
    {
        let _ = &self.objects;
    }

    /// What the journal starts from.
    pub fn base(&self) -> &Base
        ensures { result.now ≡ self.now.base }
    {
        &self.base
    }

    /// The accepted edits since the base, which lead to the book's objects.
    pub fn journal(&self) -> &Journal
        ensures closed { result.now.closed ≡ self.now.closed }
        ensures pending { result.now.pending ≡ self.now.pending }
        ensures leads { after_from self.now.base (journal_of self.now) ≡ self.now.objects }
    {
        &self.journal
    }

    /// Makes an edit that `judge` accepts, and answers the version. Cost: some paths in trees; the edit's object is
    /// kept and not copied, and an event's entries are counted.
    ///
    /// # Errors
    ///
    /// `NoMemory` where there is no room; then all is as it was.
    pub fn commit(&mut self, edit: Edit) -> Result<u64, Refusal>
        requires { IsOk (step_to (full_at self.old.base.version) self.old.objects edit) }
        ensures objects { OnOk result (step_to (full_at self.old.base.version) self.old.objects edit ≡ Ok self.new.objects) }
        ensures pending { OnOk result (self.new.pending ≡ self.old.pending ++ edit ∷ []) }
        ensures closed { self.new.closed ≡ self.old.closed }
        ensures base { self.new.base ≡ self.old.base }
        ensures version { IfOk result (λ version. version ≡ self.new.objects.version) }
        ensures unchanged { OnErr result (self.new ≡ self.old) }
        ensures refusal { OnlyNoMemory result }
    {
        let copy = edit.copy()?;
        let journal = self.journal.with(self.alloc, edit)?;
        self.objects.make(copy)?;
        self.journal = journal;
        Ok(self.objects.version())
    }

    /// Closes the open batch of the journal, also an empty one. Cost: a path in the tree of the closed batches.
    ///
    /// # Errors
    ///
    /// `NoMemory` where there is no room for the batch; then all is as it was.
    pub fn seal(&mut self) -> Result<(), Refusal>
        ensures base { self.new.base ≡ self.old.base }
        ensures objects { self.new.objects ≡ self.old.objects }
        ensures closed { OnOk result (self.new.closed ≡ self.old.closed ++ self.old.pending ∷ []) }
        ensures pending { OnOk result (self.new.pending ≡ []) }
        ensures sealed { OnOk result (sealed_of self.new ≡ self.new.objects) }
        ensures unchanged { OnErr result (self.new ≡ self.old) }
        ensures refusal { OnlyNoMemory result }
    {
        self.journal.seal(self.alloc)
    }

    /// Makes the objects of `at` the base, lets the closed batches go and answers the base's version. `at` has the
    /// objects that the base and the closed batches lead to, as a copy made when the last of them was closed. Cost: the
    /// same whatever the book holds, and letting the old batches and what the old base alone holds go.
    ///
    /// # Errors
    ///
    /// `NoMemory` where there is no room for the base; then all is as it was.
    pub fn condense(&mut self, at: &Book) -> Result<u64, Refusal>
        requires { at.now.objects ≡ sealed_of self.old }
        ensures base { OnOk result (self.new.base ≡ at.now.objects) }
        ensures closed { OnOk result (self.new.closed ≡ []) }
        ensures pending { self.new.pending ≡ self.old.pending }
        ensures objects { self.new.objects ≡ self.old.objects }
        ensures version { IfOk result (λ version. version ≡ at.now.objects.version) }
        ensures unchanged { OnErr result (self.new ≡ self.old) }
        ensures refusal { OnlyNoMemory result }
    {
        let base = Base::of(self.alloc, at.objects.copy()?)?;
        self.base = base;
        self.journal.condense();
        Ok(self.base.version())
    }

    /// A book equal to this one, which shares its base, objects and edits, whatever their number.
    ///
    /// # Errors
    ///
    /// `NoMemory`, only where a share is refused.
    pub fn copy(&self) -> Result<Book, Refusal>
        ensures { IsCopyOf result self.now }
    {
        Ok(Book {
            base: self.base.copy()?,
            objects: self.objects.copy()?,
            journal: self.journal.copy()?,
            alloc: self.alloc,
        })
    }
}

/// Whether the book accepts the edit. Cost: the edit's size.
///
/// # Errors
///
/// The least of the edit's faults: of a written event's layout `NoStart`, `AfterEndless` or `TimeRange`; `Exists`,
/// `NotThere`; `NoProgram`, `NoVen`; `InUse`; `Full` where the edits since the base, the version, the objects of a
/// created kind or the entries are at their limit. `NoMemory` where there is no room to lay out the event.
pub fn judge(book: &Book, edit: &Edit) -> Result<(), Refusal>
    ensures { Answers (result_map (λ _. made book.now.objects edit.now) result) (step_to (full_at book.now.base.version) book.now.objects edit.now) }
{
    let _layout = judge_on(book.alloc, &book.objects, book.base.full_at(), edit)?;
    Ok(())
}

/// The edit where the book accepts it, with the layout that judging it computed. Cost: the edit's size.
///
/// # Errors
///
/// As of [`judge`].
pub fn judged(book: &Book, edit: Edit) -> Result<Judged, Refusal>
    ensures answer { Answers (result_map (λ _. made book.now.objects edit) result) (step_to (full_at book.now.base.version) book.now.objects edit) }
    ensures edit { IfOk result (λ judged. judged ≡ edit) }
{
    judged_on(book.alloc, &book.objects, book.base.full_at(), edit)
}
