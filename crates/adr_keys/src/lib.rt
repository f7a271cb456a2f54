#![tactic(auto)]
//! Rows of keys, with an index from each key to the places of the rows that have it.

mod blocks;
mod index;
mod key;
mod places;
mod row;
mod sets;
mod word;

pub use index::KeyIndex;
pub use key::Key;
pub use places::Places;
pub use row::Row;
