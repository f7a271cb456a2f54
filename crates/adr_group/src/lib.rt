#![tactic(auto)]
//! The timelines of resources to which the same events apply, their repair where events differ, and workers that do the jobs
//! of a repair at once, and the gates that they pass.

mod exchange;
mod gate;
mod governed;
mod group;
mod job;
mod laws;
mod line;
mod met;
mod parts;
mod repair;
mod share;
mod timelines;
mod type_name;
mod windows;
mod writes;

pub use gate::{Gate, NoGate};
pub use group::Group;
pub use job::{Done, Held, RepairJob, do_jobs, shared_windows};
pub use laws::right_moves;
pub use share::do_all;
pub use writes::Writes;
