//! A desk with its last publication, and the next one made ready.
ghost use Rattle.std.specs.Prelude.{◌≡◌, ◌⊎◌, ◌≤◌, [], IfErr, IfOk, Ok, OnErr, OnOk};
ghost use Rattle.std.specs.Arc.{arc_value};
ghost use Rattle.adr_refusal.specs.Answer.{OnlyNoMemory};
ghost use Rattle.adr_refusal.specs.declared.refusal.Refusal.TheVariants.{NoMemory, Full};
ghost use Rattle.adr_value.specs.declared.limits.TheConstants.{MOST_PUBLICATIONS};
ghost use Rattle.adr_model.specs.Book.{empty};
ghost use Rattle.adr_model.specs.Edits.{after_from};
ghost use Rattle.adr_desk.specs.Applied.{IsApplied};
ghost use Rattle.adr_board.specs.Published.{last_batch};
ghost use Rattle.adr_board.specs.Publications.{opening_book};
ghost use Rattle.adr_board.specs.Publishers.{desk_of, gone_on, next_of, opening_of};

use crate::snapshot::{Snapshot, has_private_names, names_of_first_batch, names_stay_private};
use adr_desk::{Desk, Gate, Receipt};
use adr_model::Tie;
use adr_object::Edit;
use adr_schedule::Resolution;
use adr_value::Refusal;
use adr_value::limits::MOST_PUBLICATIONS;
use std::alloc::Global;
use std::marker::Model;
use std::sync::Arc;
use std::thread::Threads;

/// A publication that is ready, before anything changes. Contracts see its snapshot.
#[derive(Drop)]
pub struct Prepared {
    sealed: Resolution,
    snapshot: Arc<Snapshot>,
}

impl Model for Prepared {
    ghost use Rattle.adr_board.specs.Published.{PublishedBook};

    ghost Value = { PublishedBook };

    ghost use Rattle.std.specs.Prelude.{◌≡◌, ◌≤◌};
    ghost use Rattle.std.specs.Arc.{arc_value};
    ghost use Rattle.adr_value.specs.declared.limits.TheConstants.{MOST_PUBLICATIONS};

    ghost view = { λ p. arc_value p.snapshot };

    ghost invariant = { λ p. (p.sealed.tie ≡ (arc_value p.snapshot).tie) × (p.sealed.book ≡ (arc_value p.snapshot).book) × ((arc_value p.snapshot).number ≤ MOST_PUBLICATIONS) };
}

impl Prepared {
    ghost use Rattle.std.specs.Arc.{arc_value};

    /// The snapshot to be shown.
    pub fn snapshot(&self) -> &Arc<Snapshot>
        ensures { arc_value result.now ≡ self.now }
    {
        &self.snapshot
    }
}

/// A desk, and the snapshot that was made of it last. Contracts see the desk's rule for ties and its book, and that
/// publication.
pub struct Publisher {
    alloc: Global,
    desk: Desk,
    last: Arc<Snapshot>,
}

// A function of its own, so that callers that let one go need not look into it.
impl Drop for Publisher {
    fn drop(self) {
        let Publisher {
            alloc: _,
            desk,
            last,
        } = self;
        drop(desk);
        drop(last);
    }
}

impl Model for Publisher {
    ghost use Rattle.adr_board.specs.Publishers.{Publishing};

    ghost Value = { Publishing };

    ghost use Rattle.std.specs.Arc.{arc_value};
    ghost use Rattle.adr_board.specs.Publishers.{FollowsLast};

    ghost view = { λ p. record { tie = p.desk.tie; book = p.desk.book; last = arc_value p.last } };

    ghost invariant = { λ p. FollowsLast p.desk.tie p.desk.book (arc_value p.last) };
}

// Publication 0.
#[tactic(auto, using(crate::proofs::Following::is_opening))]
fn opening_snapshot(alloc: Global, tie: Tie) -> Result<Arc<Snapshot>, Refusal>
    ensures ok { IfOk result (λ s. arc_value s ≡ opening_of tie) }
    ensures refusal { OnlyNoMemory result }
{
    let snapshot = Snapshot::first(alloc, tie)?;
    snapshot.snapshot_laws();
    Arc::new(alloc, snapshot).map_err(|_| Refusal::NoMemory)
}

impl Publisher {
    ghost use Rattle.std.specs.Arc.{arc_value};

    /// An empty desk, published as number 0.
    ///
    /// # Errors
    ///
    /// `NoMemory` where there is no room for it.
    #[tactic(auto, using(crate::proofs::Following::is_opening))]
    pub fn open(alloc: Global, tie: Tie) -> Result<Publisher, Refusal>
        ensures ok { IfOk result (λ p. p ≡ record { tie = tie; book = opening_book; last = opening_of tie }) }
        ensures memory { OnlyNoMemory result }
    {
        Publisher::over(alloc, Desk::new(alloc, tie)?)
    }

    /// A desk of which nothing was published yet but number 0, the empty book.
    ///
    /// # Errors
    ///
    /// `NoMemory` where there is no room for that.
    pub fn over(alloc: Global, desk: Desk) -> Result<Publisher, Refusal>
        requires base { desk.book.base ≡ empty }
        requires closed { desk.book.closed ≡ [] }
        ensures ok { IfOk result (λ p. p ≡ record { tie = desk.tie; book = desk.book; last = opening_of desk.tie }) }
        ensures memory { OnlyNoMemory result }
    {
        names_of_first_batch(&desk);
        let last = opening_snapshot(alloc, desk.tie())?;
        Ok(Publisher { alloc, desk, last })
    }

    /// Makes an edit, as the desk's `apply` does.
    ///
    /// # Errors
    ///
    /// Of the edit's faults the least, as the desk's `apply` names them; `NoMemory` in place of any. Then all is as it
    /// was.
    pub fn apply(&mut self, edit: Edit) -> Result<Receipt, Refusal>
        ensures applied { IsApplied edit (desk_of self.old) (desk_of self.new) result }
        ensures last { self.new.last ≡ self.old.last }
        ensures unchanged { OnErr result (self.new ≡ self.old) }
    {
        has_private_names(&edit);
        names_stay_private();
        self.desk.apply(edit)
    }

    /// Makes an edit by several workers, as the desk's `apply_with` does.
    ///
    /// # Errors
    ///
    /// As of [`Publisher::apply`].
    pub fn apply_with<R: Threads + Sync, G: Gate + Sync>(
        &mut self,
        rt: &R,
        workers: usize,
        gate: &G,
        edit: Edit,
    ) -> Result<Receipt, Refusal>
        ensures applied { IsApplied edit (desk_of self.old) (desk_of self.new) result }
        ensures last { self.new.last ≡ self.old.last }
        ensures unchanged { OnErr result (self.new ≡ self.old) }
    {
        has_private_names(&edit);
        names_stay_private();
        self.desk.apply_with(rt, workers, gate, edit)
    }

    /// The desk as it is, sealed, under the next number. Cost: a copy of the book and its timelines, which shares all
    /// with the desk.
    ///
    /// # Errors
    ///
    /// `Full` after 1,000,000 publications, else `NoMemory`.
    pub fn prepare(&self) -> Result<Prepared, Refusal>
        ensures next { IfOk result (λ p. p ≡ next_of self.now) }
        ensures most { IfOk result (λ p. p.number ≤ MOST_PUBLICATIONS) }
        ensures leads { IfOk result (λ p. p.book.objects ≡ after_from self.now.last.book.objects (last_batch p.book.closed)) }
        ensures refused { IfErr result (λ e. (e ≡ NoMemory) ⊎ ((e ≡ Full) × (self.now.last.number ≡ MOST_PUBLICATIONS))) }
    {
        let number = self.last.number();
        if number >= MOST_PUBLICATIONS {
            return Err(Refusal::Full);
        }
        let _leads = self.desk.book().journal();
        let sealed = self.desk.sealed()?;
        let snapshot = Snapshot::of(self.alloc, number + 1, sealed.copy()?);
        match Arc::new(self.alloc, snapshot) {
            Ok(snapshot) => Ok(Prepared { sealed, snapshot }),
            Err(_) => Err(Refusal::NoMemory),
        }
    }

    /// Goes on from what `prepare` made ready. It is never refused.
    pub fn go_on_with(&mut self, prepared: Prepared)
        requires next { prepared ≡ next_of self.old }
        ensures { self.new ≡ gone_on self.old }
    {
        let Prepared { sealed, snapshot } = prepared;
        snapshot.snapshot_laws();
        self.desk.go_on_from(sealed);
        self.last = snapshot;
    }

    /// Counts the accepted edits from the last publication on, lets the closed batches go and answers that
    /// publication's version.
    ///
    /// # Errors
    ///
    /// `NoMemory` where there is no room; then all is as it was.
    pub fn condense(&mut self) -> Result<u64, Refusal>
        ensures version { IfOk result (λ version. version ≡ self.old.last.book.objects.version) }
        ensures base { OnOk result (self.new.book.base ≡ self.old.last.book.objects) }
        ensures closed { OnOk result (self.new.book.closed ≡ []) }
        ensures pending { self.new.book.pending ≡ self.old.book.pending }
        ensures objects { self.new.book.objects ≡ self.old.book.objects }
        ensures tie { self.new.tie ≡ self.old.tie }
        ensures last { self.new.last ≡ self.old.last }
        ensures unchanged { OnErr result (self.new ≡ self.old) }
        ensures refusal { OnlyNoMemory result }
    {
        self.desk.condense(self.last.book())
    }

    /// The desk.
    pub fn desk(&self) -> &Desk
        ensures tie { result.now.tie ≡ self.now.tie }
        ensures book { result.now.book ≡ self.now.book }
    {
        &self.desk
    }

    /// The last publication. It stores the desk's book as it was published, whatever was condensed since.
    pub fn last(&self) -> &Arc<Snapshot>
        ensures last { arc_value result.now ≡ self.now.last }
        ensures tie { (arc_value result.now).tie ≡ self.now.tie }
        ensures most { (arc_value result.now).number ≤ MOST_PUBLICATIONS }
    {
        &self.last
    }

    /// Where it takes its memory.
    pub fn allocator(&self) -> Global {
        self.alloc
    }
}
