//! The laws of runs.
ghost use Rattle.adr_board.specs.Laws.{PublicationsHaveAllEdits, SnapshotsTellOfTheirEdits};

/// What a run of steps promises, as [`replay`](crate::replay) answers it. A publication has the objects that all
/// accepted edits of the steps before it leave of the empty book, to the end of the run, whatever is condensed; its
/// version is their number. A snapshot that a reader sees is that of a publication that an earlier step made, or of
/// number 0: its objects are what the accepted edits up to that leave, so is what the base and the batches that it
/// stores lead to, its version is their number, and its timelines show what governs there.
#[tactic(auto, using(crate::proofs::Replayed::snapshots_tell_of_their_edits))]
pub fn replay_laws()
    ensures publications { PublicationsHaveAllEdits }
    ensures snapshots { SnapshotsTellOfTheirEdits }
{}
