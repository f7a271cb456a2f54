#![tactic(auto)]
//! The script: lines to commands, commands to replies, and a whole run over any reader and writer.

mod command;
mod edited;
mod fields;
mod hands;
mod laws;
mod line;
mod machine;
mod program;
mod replies;
mod resolver;

pub use adr_model::Tie;
pub use adr_read::BodyReader;
pub use adr_script::{Fault, Logs, ReadLog, WriteLog, status};
pub use command::Command;
pub use laws::{fan_laws, kept_laws, least_matching_interval_governs, limit_laws};
pub use line::{object_of, parse_line, parse_line_by, type_word};
pub use program::run;
pub use replies::{put_condensed, put_ok, put_published, put_refusal, put_refused};
pub use resolver::Resolver;
