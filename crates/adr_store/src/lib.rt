#![tactic(auto)]
//! The objects of the server, each kind in order of creation, found by id, place and number.

mod counting;
mod events;
mod kept;
mod keys;
mod numbers;
mod resources;
mod store;
mod table;
mod tally;

pub use adr_shared::Shared;
pub use counting::entry_count;
pub use kept::Kept;
pub use store::Store;
