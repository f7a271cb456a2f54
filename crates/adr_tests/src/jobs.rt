//! Jobs that the words of a command line ask for.
use crate::rows::{Spelled, check};
use adr_model::Tie;
use adr_server::{Job, job};
use adr_value::Refusal;
use std::alloc::Global;
use std::test::Fail;

/// A job, with its count and its rule for ties, or that there is none, and the words behind the program's name.
const JOBS: &str = "run 1 newest = run
run 64 newest = run --workers 64
fan 2 newest = fan --readers 2
none = 
none = run --workers 0
none = run --workers 65
run 1 newest = run --tie newest
run 1 latest-start = run --tie latest-start
run 64 latest-start = run --workers 64 --tie latest-start
fan 2 latest-start = fan --readers 2 --tie latest-start
fan 1 newest = fan
none = run --tie oldest";

/// The words of a text, which spaces part.
fn words(alloc: Global, text: &str) -> Result<Vec<String>, Refusal> {
    let mut words = Vec::new(alloc);
    for word in text.split(' ') {
        if !word.is_empty() {
            words.push(String::from_str(alloc, word)?)?;
        }
    }
    Ok(words)
}

/// The job of that name, count and rule for ties.
fn job_of(text: &str) -> Option<Job> {
    let (name, rest) = text.split_once(' ')?;
    let (count, tie) = rest.split_once(' ')?;
    let count = count.parse::<usize>().ok()?;
    let tie = if tie == "newest" {
        Tie::Newest
    } else {
        Tie::LatestStart
    };
    match name {
        "run" => Some(Job::Run(count, tie)),
        _ => Some(Job::Fan(count, tie)),
    }
}

/// Whether the words of the text ask for that job, or for none.
pub(crate) fn is_asked(alloc: Global, text: &str, wanted: &str) -> Result<bool, Refusal> {
    let words = words(alloc, text)?;
    let asked = job(alloc, words).ok();
    Ok(asked == job_of(wanted))
}

#[test]
fn jobs_are_asked_for(rt: HostRuntime) -> Result<(), Fail> {
    check(rt.alloc(), Spelled::Job, JOBS)
}
