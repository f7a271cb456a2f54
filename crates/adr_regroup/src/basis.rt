//! What tells the writes of places.
use adr_audience::Audiences;
use adr_book::Book;
use adr_lines::Indexes;
use adr_model::Tie;

/// The book whose places get writes, and what tells them: the keys of an old book with the same events, and the indexes
/// of these events.
#[derive(Clone, Copy)]
pub(crate) struct Basis<'a> {
    pub(crate) tie: Tie,
    pub(crate) old: &'a Book,
    pub(crate) new: &'a Book,
    pub(crate) keys: &'a Audiences,
    pub(crate) indexes: &'a Indexes,
}
