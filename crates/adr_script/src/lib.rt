//! The loop that reads a script, hands each line to a [`Machine`], and writes the replies.
//!
//! A script is bytes. A line ends before a line feed; a last line without one counts if it has a
//! byte. A carriage return at a line's end is no part of what the machine sees. A line of more than
//! 4,194,304 bytes is answered `refused 1 LongLine`, and a line for which there is no memory
//! `refused 99 NoMemory`; neither changes the machine. Each reply is written before more is read.
#![tactic(auto)]

mod answering;
mod fault;
mod laws;
mod line;
mod log;
mod machine;
mod output;
mod reading;

pub use fault::{Fault, status};
pub use laws::{
    like_machines_tell_one_text, lines_make_up_the_bytes, no_mark_is_the_text, no_other_lines_do,
};
pub use line::MAX_LINE;
pub use log::{Logs, ReadLog, WriteLog};
pub use machine::{Machine, Unanswered};
pub use output::write_fully;
pub use reading::serve;
