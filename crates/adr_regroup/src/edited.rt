//! An accepted edit that is made to a desk.
use adr_audience::Audiences;
use adr_book::Book;
use adr_lines::Indexes;
use adr_model::Tie;
use adr_object::Edit;
use adr_schedule::Schedule;

/// An accepted edit that is made to a desk: the books before and after it, and of the desk before it the rule of ties,
/// the keys, the indexes and the groups.
#[derive(Clone, Copy)]
pub struct Edited<'a> {
    /// Which of two intervals of one priority governs, before the edit as after it.
    pub tie: Tie,
    /// The book before the edit, which accepts it.
    pub old: &'a Book,
    /// The book that the edit leaves.
    pub new: &'a Book,
    /// What is written or removed.
    pub edit: &'a Edit,
    /// Those of the resources and events of the old book.
    pub keys: &'a Audiences,
    /// The entries of the old book's events, by payload type.
    pub indexes: &'a Indexes,
    /// The groups of the old book's resources.
    pub schedule: &'a Schedule,
}
