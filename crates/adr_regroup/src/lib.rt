#![tactic(auto)]
//! What an edit of a program, of a ven or of a resource does to the groups of timelines: events come to apply to other
//! resources, and groups are repaired there alone.

mod basis;
mod edited;
mod places;
mod program;
mod reseat;
mod spot;
mod ven_or_resource;
mod writes;

pub use edited::Edited;
pub use program::after_program;
pub use ven_or_resource::{after_resource, after_ven};
pub use writes::writes_of;
