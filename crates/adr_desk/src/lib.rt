#![tactic(auto)]
//! A book and the timelines of all its resources, each shown at every instant what governs, repaired by each edit where
//! it touches.

mod accepted;
mod after_event;
mod bulk;
mod desk;
mod events;
mod kinds;
mod make;
mod ranks;
mod receipt;
mod side;

pub use adr_group::{Gate, NoGate};
pub use adr_model::Touch;
pub use adr_touches::EditTouches;
pub use desk::Desk;
pub use receipt::{Receipt, Touched};
