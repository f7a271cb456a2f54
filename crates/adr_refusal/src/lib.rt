//! Why a call is refused, which of several faults is answered, and copies that may be refused: what every layer shares.
#![tactic(auto)]

mod judging;
mod refusal;
mod try_clone;

pub use judging::{Faults, both, fault_laws};
pub use refusal::{Refusal, refusal_laws};
pub use try_clone::TryClone;
