#![tactic(auto)]
//! The schedule answered by scanning: slow and plain, the reference that faster layers are compared with.

mod entries;
mod governing;
mod order;
mod plain;
mod segments;
mod state;
mod types;

pub use plain::Plain;
