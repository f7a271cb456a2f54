#![tactic(auto)]
//! Which group of timelines each resource has; and a book and what it resolves to, a timeline for each resource and payload
//! type of which something governs.

mod change;
mod draft;
mod exchange;
mod gathered;
mod made;
mod moves;
mod place;
mod resolution;
mod schedule;
mod shift;
mod tally;

pub use change::{Change, Side};
pub use resolution::Resolution;
pub use schedule::Schedule;
