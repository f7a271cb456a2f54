//! An accepted edit that is made to a desk.
use adr_book::Book;
use adr_model::{Placed, Tie};
use adr_object::Edit;
use adr_schedule::Schedule;

/// An accepted edit that is made to a desk: where the intervals of its event lie, the books before and after it, and of
/// the desk before it the rule of ties and the groups.
#[derive(Clone, Copy)]
pub(crate) struct Accepted<'a> {
    pub(crate) tie: Tie,
    pub(crate) old: &'a Book,
    pub(crate) new: &'a Book,
    pub(crate) edit: &'a Edit,
    pub(crate) layout: &'a [Placed],
    pub(crate) schedule: &'a Schedule,
}
