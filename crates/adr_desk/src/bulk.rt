//! A book and all its timelines at once: the edits one after the other, and then what they resolve to, built by as many
//! threads as there are processors.
mod commits;
mod gathering;
mod grouping;
mod seating;
mod sharing;
mod windows;

pub(crate) use crate::bulk::commits::commit_all;
pub(crate) use crate::bulk::gathering::index_all;
pub(crate) use crate::bulk::seating::seat_all;
