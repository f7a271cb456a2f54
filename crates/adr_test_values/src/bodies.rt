//! Edits from lines with bodies. An object of a line is read from its body, so that it has all that a body may hold.
mod events;
mod reading;

pub use events::any_edit;
pub use reading::{edit, kind_of, object, shared, word};
