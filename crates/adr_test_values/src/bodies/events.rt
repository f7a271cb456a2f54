//! Edits of events in short words.
use crate::bodies::{edit, word};
use adr_object::Edit;
use adr_value::Refusal;
use std::alloc::Global;

/// The JSON of intervals for the words of a line, each with the payload types of its word, which commas part.
fn intervals(alloc: Global, line: &str) -> Result<String, Refusal> {
    let payloads = line.replace(alloc, ',', r#"","values":[1]},{"type":""#)?;
    let intervals = payloads
        .as_str()
        .replace(alloc, ' ', r#"","values":[1]}]},{"payloads":[{"type":""#)?;
    Ok(format!(in alloc; r#"[{{"payloads":[{{"type":"{intervals}","values":[1]}}]}}]"#)?)
}

/// The line of an event's verb, id, targets, priority, start and length, with its body.
fn event_line(alloc: Global, words: [&str; 6], intervals: &str) -> Result<String, Refusal> {
    let [verb, id, targets, priority, start, length] = words;
    Ok(format!(in alloc;
        r#"{verb} event {id} {{"programID":"p1","priority":{priority},"targets":{targets},"intervalPeriod":{{"start":"1970-01-01T0{start}Z","duration":{length}}},"intervals":{intervals}}}"#
    )?)
}

/// The line with a body that writes the event of `ID TARGETS PRIORITY START LENGTH TYPES ..`.
fn event_text(alloc: Global, verb: &str, line: &str) -> Result<String, Refusal> {
    let (id, line) = word(line)?;
    let (targets, line) = word(line)?;
    let (priority, line) = word(line)?;
    let (start, line) = word(line)?;
    let (length, line) = word(line)?;
    let intervals = intervals(alloc, line)?;
    let words = [verb, id, targets, priority, start, length];
    event_line(alloc, words, intervals.as_str())
}

/// The edit of a line: `VERB event ID TARGETS PRIORITY START LENGTH TYPES ..` writes an event; any other line has a
/// body.
///
/// # Errors
///
/// `BadLine` where a word is wanting; those of an id and of a body; `NoMemory`.
pub fn any_edit(alloc: Global, line: &str) -> Result<Edit, Refusal> {
    match line.split_once(" event ") {
        Some((verb, event)) if verb != "delete" => {
            let line = event_text(alloc, verb, event)?;
            edit(alloc, line.as_str())
        }
        _ => edit(alloc, line),
    }
}
