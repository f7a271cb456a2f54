//! The desk.
ghost use denote.Param.Send.{IsSync};
ghost use Rattle.std.specs.Prelude.{◌≡◌, ◌≢◌, ◌<◌, ◌≤◌, ◌++◌, ◌∷◌, [], ℤ, None, Ok, IsOk, IfOk, IfSome, OnOk, OnErr};
ghost use Rattle.std.specs.Option.{option_copied, option_map_or};
ghost use Rattle.adr_refusal.specs.Answer.{OnlyNoMemory};
ghost use Rattle.adr_refusal.specs.Copy.{IsCopyOf};
ghost use Rattle.adr_group.specs.Jobs.{AreDone, IsCrew};
ghost use Rattle.adr_model.specs.Book.{empty};
ghost use Rattle.adr_model.specs.Edits.{full_at, step_to};
ghost use Rattle.adr_model.specs.Governor.{governs};
ghost use Rattle.adr_model.specs.Timeline.{shows, IsCanonical};
ghost use Rattle.adr_model.specs.Touches.{touches};
ghost use Rattle.adr_book.specs.Ledger.{sealed_of};
ghost use Rattle.adr_regroup.specs.Compared.{most_compared_in};
ghost use Rattle.adr_desk.specs.Applied.{IsApplied};
ghost use Rattle.adr_desk.specs.Loaded.{accepted_of, answers_to, objects_after};

use crate::bulk::{commit_all, index_all, seat_all};
use crate::make::{Made, make};
use crate::receipt::Receipt;
use adr_audience::Audiences;
use adr_book::{Book, Judged, judged};
use adr_group::{Done, Gate, NoGate, RepairJob, do_all, do_jobs};
use adr_lines::{Indexes, exchange_laws};
use adr_model::Tie;
use adr_object::{Edit, Id};
use adr_schedule::{Resolution, Schedule};
use adr_shared::Shared;
use adr_timeline::Timeline;
use adr_value::{PayloadType, Refusal};
use std::alloc::Global;
use std::marker::Model;
use std::mem;
use std::thread::Threads;

/// A book with its timelines, which edits repair where they touch them. Contracts see the book and the rule for ties.
///
/// Beside them it keeps what an edit asks: what resources offer and events ask for, and the entries of all events by
/// payload type.
pub struct Desk {
    resolution: Resolution,
    keys: Audiences,
    indexes: Indexes,
    alloc: Global,
}

// A function of its own, so that callers that let a desk go need not look into it.
impl Drop for Desk {
    fn drop(self) {
        let Desk {
            resolution,
            keys,
            indexes,
            alloc: _,
        } = self;
        drop(resolution);
        drop(keys);
        drop(indexes);
    }
}

impl Model for Desk {
    ghost use Rattle.adr_schedule.specs.Resolved.{Resolved};
    ghost use Rattle.adr_desk.specs.Desk.{AreOf};

    ghost Value = { Resolved };

    ghost view = { λ d. d.resolution };

    ghost invariant = { λ d. AreOf d.resolution.tie d.resolution.book.objects d.keys d.indexes };
}

impl Desk {
    /// The desk of an empty book, under a rule for ties that stays.
    ///
    /// # Errors
    ///
    /// `NoMemory` where there is no room for it.
    pub fn new(alloc: Global, tie: Tie) -> Result<Desk, Refusal>
        ensures tie { IfOk result (λ desk. desk.tie ≡ tie) }
        ensures base { IfOk result (λ desk. desk.book.base ≡ empty) }
        ensures objects { IfOk result (λ desk. desk.book.objects ≡ empty) }
        ensures closed { IfOk result (λ desk. desk.book.closed ≡ []) }
        ensures pending { IfOk result (λ desk. desk.book.pending ≡ []) }
        ensures refusal { OnlyNoMemory result }
    {
        let schedule = Shared::new(alloc, Schedule::new(alloc)?)?;
        Ok(Desk {
            resolution: Resolution::of(tie, Book::new(alloc), schedule),
            keys: Audiences::new(alloc),
            indexes: Indexes::new(alloc),
            alloc,
        })
    }

    /// The desk of the edits, from an empty book, and for each edit in order the version after it or why it is refused:
    /// as `apply` makes and answers them one after the other on a new desk. A refused edit changes nothing. All
    /// timelines are built once, at the end, by as many threads as there are processors.
    ///
    /// Cost: that of judging and committing each edit; the keys of all resources and events, and for each resource a
    /// look for the events that apply to it; each event is laid out once for all and once for each group to which it
    /// applies, where its entries are indexed; and for each group and payload type a sort of the entries of its own
    /// events, and a pass over them.
    ///
    /// # Errors
    ///
    /// `NoMemory` where there is no room: for one edit or one timeline it refuses all.
    pub fn load<R: Threads + Sync>(
        rt: &R,
        alloc: Global,
        edits: Vec<Edit>,
        tie: Tie,
    ) -> Result<(Desk, Vec<Result<u64, Refusal>>), Refusal>
        ensures answers { IfOk result (λ loaded. loaded.1.items ≡ answers_to (full_at empty.version) empty edits.items) }
        ensures objects { IfOk result (λ loaded. loaded.0.book.objects ≡ objects_after (full_at empty.version) empty edits.items) }
        ensures pending { IfOk result (λ loaded. loaded.0.book.pending ≡ accepted_of (full_at empty.version) empty edits.items) }
        ensures closed { IfOk result (λ loaded. loaded.0.book.closed ≡ []) }
        ensures base { IfOk result (λ loaded. loaded.0.book.base ≡ empty) }
        ensures tie { IfOk result (λ loaded. loaded.0.tie ≡ tie) }
        ensures refusal { OnlyNoMemory result }
    {
        let (book, answers) = commit_all(alloc, edits)?;
        let keys = Audiences::of(alloc, book.objects())?;
        let indexes = index_all(alloc, tie, &book)?;
        let schedule = seat_all(rt, alloc, tie, &book, &keys)?;
        let schedule = Shared::new(alloc, schedule)?;
        let desk = Desk {
            resolution: Resolution::of(tie, book, schedule),
            keys,
            indexes,
            alloc,
        };
        Ok((desk, answers))
    }

    /// A desk of its own with the same book and timelines, which it shares. Cost: the keys of all resources and events,
    /// and the entries of all events.
    ///
    /// # Errors
    ///
    /// `NoMemory` where there is no room.
    pub fn copy(&self) -> Result<Desk, Refusal>
        ensures { IsCopyOf result self.now }
    {
        exchange_laws();
        let resolution = self.resolution.copy()?;
        let keys = Audiences::of(self.alloc, self.book().objects())?;
        let indexes = self.indexes.copy(self.alloc)?;
        Ok(Desk {
            resolution,
            keys,
            indexes,
            alloc: self.alloc,
        })
    }

    /// The rule for ties.
    pub fn tie(&self) -> Tie
        ensures { result ≡ self.now.tie }
    {
        self.resolution.tie()
    }

    /// The book.
    pub fn book(&self) -> &Book
        ensures { result.now ≡ self.now.book }
    {
        self.resolution.book()
    }

    /// The timeline of the resource and the payload type, which is not empty; None where nothing governs at any
    /// instant. Cost: a few look-ups in trees.
    pub fn timeline(&self, id: &Id, payload_type: &PayloadType) -> Option<&Timeline>
        ensures shows { (t : ℤ) → option_map_or (λ l. shows l t) (option_copied result) None ≡ governs self.now.tie self.now.book.objects id.now payload_type.now t }
        ensures canonical { IfSome result (λ l. IsCanonical l.now) }
        ensures lasts { IfSome result (λ l. l.now ≢ []) }
    {
        self.resolution.timeline(id, payload_type)
    }

    /// The book with its timelines, as they stand.
    pub fn resolution(&self) -> &Resolution
        ensures { result.now ≡ self.now }
    {
        &self.resolution
    }

    /// A copy of the book with its timelines whose open batch is closed, which shares all with the desk: what a
    /// publication shows.
    ///
    /// # Errors
    ///
    /// `NoMemory` where there is no room for the batch.
    pub fn sealed(&self) -> Result<Resolution, Refusal>
        ensures tie { IfOk result (λ sealed. sealed.tie ≡ self.now.tie) }
        ensures base { IfOk result (λ sealed. sealed.book.base ≡ self.now.book.base) }
        ensures objects { IfOk result (λ sealed. sealed.book.objects ≡ self.now.book.objects) }
        ensures closed { IfOk result (λ sealed. sealed.book.closed ≡ self.now.book.closed ++ self.now.book.pending ∷ []) }
        ensures pending { IfOk result (λ sealed. sealed.book.pending ≡ []) }
        ensures refusal { OnlyNoMemory result }
    {
        let mut sealed = self.resolution.copy()?;
        sealed.seal()?;
        Ok(sealed)
    }

    /// Goes on from a resolution of the same objects under the same rule, as `sealed` answers it: its journal becomes
    /// the desk's.
    pub fn go_on_from(&mut self, resolution: Resolution)
        requires tie { resolution.tie ≡ self.old.tie }
        requires objects { resolution.book.objects ≡ self.old.book.objects }
        ensures { self.new ≡ resolution }
    {
        drop(mem::replace(&mut self.resolution, resolution));
    }

    /// Closes the open batch of the journal, also an empty one.
    ///
    /// # Errors
    ///
    /// `NoMemory` where there is no room for the batch; then all is as it was.
    pub fn seal(&mut self) -> Result<(), Refusal>
        ensures tie { self.new.tie ≡ self.old.tie }
        ensures base { self.new.book.base ≡ self.old.book.base }
        ensures objects { self.new.book.objects ≡ self.old.book.objects }
        ensures closed { OnOk result (self.new.book.closed ≡ self.old.book.closed ++ self.old.book.pending ∷ []) }
        ensures pending { OnOk result (self.new.book.pending ≡ []) }
        ensures unchanged { OnErr result (self.new ≡ self.old) }
        ensures refusal { OnlyNoMemory result }
    {
        self.resolution.seal()
    }

    /// Makes the objects of `at` the base, lets the closed batches go and answers the base's version: see
    /// `Book::condense`.
    ///
    /// # Errors
    ///
    /// `NoMemory` where there is no room; then all is as it was.
    pub fn condense(&mut self, at: &Book) -> Result<u64, Refusal>
        requires { at.now.objects ≡ sealed_of self.old.book }
        ensures tie { self.new.tie ≡ self.old.tie }
        ensures base { OnOk result (self.new.book.base ≡ at.now.objects) }
        ensures closed { OnOk result (self.new.book.closed ≡ []) }
        ensures pending { self.new.book.pending ≡ self.old.book.pending }
        ensures objects { self.new.book.objects ≡ self.old.book.objects }
        ensures version { IfOk result (λ version. version ≡ at.now.objects.version) }
        ensures unchanged { OnErr result (self.new ≡ self.old) }
        ensures refusal { OnlyNoMemory result }
    {
        self.resolution.condense(at)
    }

    /// Makes an edit that the book accepts: the crew repairs the timelines.
    fn make<C: Fn(&Indexes, &[RepairJob]) -> Result<Vec<Done>, Refusal>>(
        &mut self,
        crew: &C,
        edit: &Judged,
    ) -> Result<Receipt, Refusal>
        requires crew { IsCrew (λ v. v.items) (C.pre crew.now) (C.post crew.now) }
        requires accepted { IsOk (step_to (full_at self.old.book.base.version) self.old.book.objects edit.now) }
        ensures tie { self.new.tie ≡ self.old.tie }
        ensures base { self.new.book.base ≡ self.old.book.base }
        ensures objects { OnOk result (step_to (full_at self.old.book.base.version) self.old.book.objects edit.now ≡ Ok self.new.book.objects) }
        ensures pending { OnOk result (self.new.book.pending ≡ self.old.book.pending ++ edit.now ∷ []) }
        ensures closed { self.new.book.closed ≡ self.old.book.closed }
        ensures version { IfOk result (λ receipt. receipt.version ≡ self.new.book.objects.version) }
        ensures touched { IfOk result (λ receipt. receipt.touched ≡ touches self.old.book.objects self.new.book.objects) }
        ensures compares { IfOk result (λ receipt. receipt.compares ≤ most_compared_in self.new.book.objects receipt.touched) }
        ensures unchanged { OnErr result (self.new ≡ self.old) }
        ensures refusal { OnlyNoMemory result }
    {
        let made = make(
            self.alloc,
            crew,
            &self.resolution,
            &mut self.keys,
            &mut self.indexes,
            edit,
        )?;
        let Made {
            resolution,
            touched,
            compares,
        } = made;
        drop(mem::replace(&mut self.resolution, resolution));
        Ok(Receipt {
            version: self.resolution.book().version(),
            touched,
            compares,
        })
    }

    /// Makes an edit, repairs timelines where it touches them, and answers the version, where that was and how much was
    /// compared.
    ///
    /// Cost: of an event, the resources to which it applies, and for each group of them the entries that meet the
    /// event's; of a program that changes, a look at each event, and for those of the program that of the resources
    /// to which it comes to apply or does no more, and then all keys anew; of a resource, or of each of a ven that
    /// changes, the events that apply to it and their entries, and a look at up to 127 groups near it for one to
    /// share; of a ven, also a look at each resource of a ven of its name, and a step for each other resource; of an
    /// event or a resource that goes, a pass over the keys. Of the table of seats, four bytes a resource, a piece of
    /// two kilobytes is copied for each resource that comes or gets other writes, all of it for one that goes, and what
    /// is written of it at an edit of an event, where some members of a group change and others don't.
    ///
    /// Memory beside what is kept: the index of a payload type keeps empty chunks of some 7 KiB ready, one for each
    /// entry of an event, or one for each 32 of them and for each chunk that it has, where those are fewer.
    ///
    /// # Errors
    ///
    /// The least of the edit's faults: of a written event's layout `NoStart`, `AfterEndless` or `TimeRange`; `Exists`,
    /// `NotThere`; `NoProgram`, `NoVen`; `InUse`; `Full` at a limit of the book or its journal. `NoMemory` may come in
    /// place of any. Then all is as it was.
    pub fn apply(&mut self, edit: Edit) -> Result<Receipt, Refusal>
        ensures { IsApplied edit self.old self.new result }
    {
        let alloc = self.alloc;
        let alone = |indexes: &Indexes, jobs: &[RepairJob]| -> Result<Vec<Done>, Refusal>
            ensures done { IfOk result (λ done. AreDone indexes.now jobs.now done.items) }
            ensures refusal { OnlyNoMemory result }
        { do_jobs(alloc, indexes, &NoGate, 0, jobs) };
        self.apply_by(&alone, edit)
    }

    /// Makes an edit as [`Desk::apply`] does, by several workers, 1 to 64, who share out the jobs of its repair: see
    /// `do_all` of adr_group. A job is one payload type of a group, whether an event is laid over its timeline or taken out
    /// of it, or what governs is built anew. Each worker passes the gate before each of its jobs. The answer is the same for
    /// every number of workers.
    ///
    /// # Errors
    ///
    /// As of [`Desk::apply`].
    pub fn apply_with<R: Threads + Sync, G: Gate + Sync>(
        &mut self,
        rt: &R,
        workers: usize,
        gate: &G,
        edit: Edit,
    ) -> Result<Receipt, Refusal>
        ensures { IsApplied edit self.old self.new result }
    {
        let alloc = self.alloc;
        let crowd = |indexes: &Indexes, jobs: &[RepairJob]| -> Result<Vec<Done>, Refusal>
            requires { IsSync R.row × IsSync G.row }
            ensures done { IfOk result (λ done. AreDone indexes.now jobs.now done.items) }
            ensures refusal { OnlyNoMemory result }
        { do_all(rt, alloc, indexes, workers, gate, jobs) };
        self.apply_by(&crowd, edit)
    }

    /// Makes an edit as [`Desk::apply`] does, by a crew that does the jobs of its repair.
    fn apply_by<C: Fn(&Indexes, &[RepairJob]) -> Result<Vec<Done>, Refusal>>(
        &mut self,
        crew: &C,
        edit: Edit,
    ) -> Result<Receipt, Refusal>
        requires crew { IsCrew (λ v. v.items) (C.pre crew.now) (C.post crew.now) }
        ensures { IsApplied edit self.old self.new result }
    {
        let edit = judged(self.resolution.book(), edit)?;
        self.make(crew, &edit)
    }
}
