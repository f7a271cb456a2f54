#![tactic(auto)]
//! The entries of a payload type in order, found by the moments and windows that they cover.

mod by_end;
mod chunk;
mod index;
mod order;
mod query;
mod reach;
mod stretch;
mod table;
mod tops;
mod tree;
mod wanted;

pub use adr_model::Entry;
pub use index::Index;
pub use wanted::Wanted;
