#![tactic(auto)]
//! The entries of an event under each of its payload types, and why timelines are repaired only where entries differ;
//! and the entries of all events, in an index for each type.

mod counting;
mod grouped;
mod indexes;
mod laws;
mod winning;

pub use grouped::{TypeEntries, event_entries, placed_entries};
pub use indexes::Indexes;
pub use laws::{exchange_laws, filling_laws};
pub use winning::{held_wins, same_wins};
