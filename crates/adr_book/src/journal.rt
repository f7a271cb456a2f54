//! The accepted edits in order, in batches.
ghost use Rattle.std.specs.Prelude.{◌≡◌, ◌++◌, ◌∷◌, [], OnOk, OnErr, IfOk};
ghost use Rattle.adr_refusal.specs.Answer.{OnlyNoMemory};

use adr_object::Edit;
use adr_shared::SharedList;
use adr_value::{Refusal, TryClone};
use std::alloc::Global;
use std::marker::Model;
use std::mem;

/// A closed list of accepted edits, whose copies share its memory.
pub struct Batch {
    edits: SharedList<Edit>,
}

// A function of its own, so that callers that let a value go need not look into it.
impl Drop for Batch {
    fn drop(self) {
        let Batch { edits } = self;
        drop(edits);
    }
}

impl Model for Batch {
    ghost use Rattle.std.specs.Prelude.{List};
    ghost use Rattle.adr_object.specs.declared.object.Edit.{Edit as OneEdit};

    ghost Value = { List OneEdit };

    ghost view = { λ b. b.edits };
}

impl Batch {
    /// The edits, in order.
    pub fn edits(&self) -> &SharedList<Edit>
        ensures { result.now ≡ self.now }
    {
        &self.edits
    }
}

impl TryClone for Batch {
    fn try_clone(&self) -> Result<Batch, Refusal> {
        Ok(Batch {
            edits: self.edits.copy()?,
        })
    }
}

/// The accepted edits in order: closed batches, one for each publication, and the edits since the last of them.
pub struct Journal {
    closed: SharedList<Batch>,
    pending: SharedList<Edit>,
}

impl Drop for Journal {
    fn drop(self) {
        let Journal { closed, pending } = self;
        drop(closed);
        drop(pending);
    }
}

impl Model for Journal {
    ghost use Rattle.adr_book.specs.Ledger.{Batches};

    ghost Value = { Batches };

    ghost view = { λ j. record { closed = j.closed; pending = j.pending } };
}

impl Journal {
    pub(crate) fn new() -> Journal
        ensures closed { result.closed ≡ [] }
        ensures pending { result.pending ≡ [] }
    {
        Journal {
            closed: SharedList::new(),
            pending: SharedList::new(),
        }
    }

    /// The closed batches, the earliest first.
    pub fn closed(&self) -> &SharedList<Batch>
        ensures { result.now ≡ self.now.closed }
    {
        &self.closed
    }

    /// The edits since the last closed batch, in order.
    pub fn pending(&self) -> &SharedList<Edit>
        ensures { result.now ≡ self.now.pending }
    {
        &self.pending
    }

    /// The journal with the edit last. Cost: a path in the tree of the open edits.
    pub(crate) fn with(&self, alloc: Global, edit: Edit) -> Result<Journal, Refusal>
        ensures closed { IfOk result (λ journal. journal.closed ≡ self.now.closed) }
        ensures pending { IfOk result (λ journal. journal.pending ≡ self.now.pending ++ edit ∷ []) }
        ensures refusal { OnlyNoMemory result }
    {
        Ok(Journal {
            closed: self.closed.copy()?,
            pending: self.pending.with(alloc, edit)?,
        })
    }

    /// Closes the open batch. `NoMemory` leaves all as it was. Cost: a path in the tree of the batches, whatever the
    /// batch holds.
    pub(crate) fn seal(&mut self, alloc: Global) -> Result<(), Refusal>
        ensures closed { OnOk result (self.new.closed ≡ self.old.closed ++ self.old.pending ∷ []) }
        ensures pending { OnOk result (self.new.pending ≡ []) }
        ensures still_closed { OnErr result (self.new.closed ≡ self.old.closed) }
        ensures still_open { OnErr result (self.new.pending ≡ self.old.pending) }
        ensures refusal { OnlyNoMemory result }
    {
        let edits = self.pending.copy()?;
        let closed = self.closed.with(alloc, Batch { edits })?;
        drop(mem::replace(&mut self.closed, closed));
        drop(mem::replace(&mut self.pending, SharedList::new()));
        Ok(())
    }

    /// Lets the closed batches go.
    pub(crate) fn condense(&mut self)
        ensures closed { self.new.closed ≡ [] }
        ensures pending { self.new.pending ≡ self.old.pending }
    {
        drop(mem::replace(&mut self.closed, SharedList::new()));
    }

    /// A journal of the same batches and open edits, which shares their memory, whatever their number.
    pub(crate) fn copy(&self) -> Result<Journal, Refusal>
        ensures closed { IfOk result (λ copy. copy.closed ≡ self.now.closed) }
        ensures pending { IfOk result (λ copy. copy.pending ≡ self.now.pending) }
        ensures refusal { OnlyNoMemory result }
    {
        Ok(Journal {
            closed: self.closed.copy()?,
            pending: self.pending.copy()?,
        })
    }
}
