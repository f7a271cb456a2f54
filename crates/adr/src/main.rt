//! Answers a script from standard input on standard output: `adr run < script`.
#![tactic(auto)]

mod start;

use start::start_program;
use std::process::ExitCode;

fn main(rt: HostRuntime) -> ExitCode {
    start_program(&rt)
}
