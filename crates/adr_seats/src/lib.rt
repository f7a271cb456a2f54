#![tactic(auto)]
//! Which slot each place has, how many places each slot has, and slots that no place has.

mod chunk;
mod counts;
mod law;
mod seats;
mod table;
mod unused;

pub use law::all_of_a_slot;
pub use seats::Seats;
