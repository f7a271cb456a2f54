#![tactic(auto)]
//! Which events apply to a resource, and which of two intervals goes before the other.

mod matching;
mod ranking;
mod scene;

pub use adr_model::{Rank, Tie};
pub use matching::{applies, matches};
pub use ranking::{Meter, before, rank_laws};
pub use scene::Scene;
