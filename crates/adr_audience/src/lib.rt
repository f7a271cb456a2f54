#![tactic(auto)]
//! Whom each event is for, found without looking at every resource, and which events apply to a resource, found
//! without looking at every event.

mod asked;
mod audiences;
mod candidates;
mod event_keys;
mod event_rows;
mod laws;
mod query;
mod resource_keys;
mod resource_rows;
mod vens;

pub use adr_keys::{Key, Places};
pub use asked::Asked;
pub use audiences::Audiences;
pub use laws::{asks_of_edits, events_follow_asked, rows_match_as_scenes, rows_of_edits};
