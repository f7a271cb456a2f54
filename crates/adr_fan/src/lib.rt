#![tactic(auto)]
//! A script that many readers answer, each in a thread of its own, while one thread goes on editing.

mod answering;
mod checking;
mod fanning;
mod laws;
mod levels;
mod mailbox;
mod queries;
mod reading;
mod script;
mod writing;

pub use adr_board::{Gate, NoGate};
pub use fanning::fan;
pub use laws::reader_laws;
