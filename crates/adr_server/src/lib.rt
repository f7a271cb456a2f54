#![tactic(auto)]
//! A server of scripts: its command line, read by `clap`, and by one name its lines, its runs, and the laws of what it
//! writes. Who wants no command line takes `adr_resolver`, and `adr_fan` for many readers.

mod jobs;
mod laws;
mod release;
mod words;

pub use crate::jobs::Job;
pub use crate::laws::lines_by_the_grammar;
pub use crate::words::job;
pub use adr_fan::{Gate, NoGate, fan, reader_laws};
pub use adr_resolver::{
    Command, Fault, Logs, ReadLog, Tie, WriteLog, fan_laws, least_matching_interval_governs,
    limit_laws, parse_line, run, status,
};
