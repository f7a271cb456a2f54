//! The steps of a run, and what they show.
use crate::snapshot::Snapshot;
use adr_model::Published;
use adr_object::Edit;
use adr_value::Refusal;
use std::sync::Arc;

/// A step of a run. Readers are numbered from 0 on.
#[derive(Drop)]
pub enum Step {
    /// An edit of the editor's.
    Edit(Edit),
    /// A publication.
    Publish,
    /// The last publication becomes the base.
    Condense,
    /// The reader is told of all publications.
    Tell(usize),
    /// The reader looks.
    Look(usize),
}

/// What a step shows.
#[derive(Drop)]
pub enum Shown {
    /// The version after an edit.
    Done(u64),
    /// Why an edit or a publication is refused, and changes nothing.
    Refused(Refusal),
    /// The publication that was made.
    Published(Published),
    /// The reader was told.
    Told,
    /// The version of the base.
    Condensed(u64),
    /// What the reader sees.
    Seen(Arc<Snapshot>),
}
