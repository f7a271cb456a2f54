#![tactic(auto)]
//! Where an edit may have changed what governs, listed from what the edit concerns: `edit_touches` at once,
//! `EditTouches` resource by resource.

mod concern;
mod edited;
mod ids;
mod matching;
mod windows;

pub use edited::{EditTouches, edit_touches};
pub use matching::is_applied;
