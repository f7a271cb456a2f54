#![tactic(auto)]
//! The answers to queries, printed from what any published book offers: who governs, until when, and which segments.

mod answers;
mod calendar;
mod events;
mod json;
mod last_state;
mod laws;
mod lines;
mod moments;
mod printing;
mod shown;

pub use answers::{at, governor, list, roll, types};
pub use calendar::{Calendar, State};
pub use json::put_json_array;
pub use laws::list_laws;
pub use lines::{Signal, cut};
pub use shown::shown_by_winner;
