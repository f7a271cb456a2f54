//! What readers are shown, of which `left_right` holds two copies.
ghost use Rattle.std.specs.Prelude.{◌≡◌};
ghost use Rattle.adr_board.specs.Rules.{showing};

use crate::Page;
use crate::snapshot::Snapshot;
use left_right::Absorb;
use std::alloc::AllocError;
use std::sync::Arc;

/// A share of the last publication's snapshot, with the place of its attempt and the history up to that.
#[derive(Drop)]
pub struct ShownPublication {
    /// The last publication, which readers take shares of.
    pub snapshot: Arc<Snapshot>,
    /// The place of its attempt among those of the history, from 0.
    pub attempt: u64,
    /// The history up to that attempt.
    pub page: Page,
}

impl ShownPublication {
    /// A share of the snapshot, of the attempt at that place, with its own handle on the page.
    pub(crate) fn of(snapshot: Arc<Snapshot>, attempt: u64, page: &Page) -> ShownPublication
        ensures snapshot { result.snapshot ≡ snapshot }
        ensures attempt { result.attempt ≡ attempt }
        ensures page { result.page ≡ page.now }
    {
        ShownPublication {
            snapshot,
            attempt,
            page: page.again(),
        }
    }
}

/// What a copy shows, whoever shares it. No value of it is made.
pub struct Showing {
    /// The last publication.
    pub snapshot: Snapshot,
    /// The place of its attempt among those of the history, from 0.
    pub attempt: u64,
    /// The history up to that attempt.
    pub page: Page,
}

/// The one operation: this is shown now.
impl Absorb<ShownPublication> for ShownPublication {
    type State = Showing;

    ghost state = { λ s. showing s };

    ghost applied = { λ _ operation. showing operation };

    fn absorb_first(
        &mut self,
        operation: &ShownPublication,
        _other: &ShownPublication,
    ) -> Result<(), AllocError> {
        self.snapshot = Arc::try_clone(&operation.snapshot)?;
        self.attempt = operation.attempt;
        self.page = operation.page.again();
        Ok(())
    }

    fn absorb_second(
        &mut self,
        operation: ShownPublication,
        _other: &ShownPublication,
    ) -> Result<(), ShownPublication> {
        *self = operation;
        Ok(())
    }
}
