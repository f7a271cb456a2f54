//! Edits from short lines, each read as a line with a body.
//!
//!     create program ID      create ven ID      create resource ID VEN
//!     create event ID PROGRAM START LENGTH PRIORITY PRICE VEN
//!
//! and the same with `change`, and `delete KIND ID`. A ven's name is its id, an event has one interval with one price;
//! its priority and the ven that it is for may be `-`. Behind the id of any kind its body may stand instead, which
//! begins with a brace.
use crate::bodies;
use adr_object::Edit;
use adr_value::Refusal;
use std::alloc::{AllocError, Global};

/// The first word of a line, and what follows it; nothing where no space parts them.
pub fn word(line: &str) -> (&str, &str) {
    match bodies::word(line) {
        Ok(words) => words,
        Err(_) => (line, ""),
    }
}

/// What asks for the resources of the ven, or for all.
fn targets(alloc: Global, ven: &str) -> Result<String, AllocError> {
    if ven == "-" {
        return format!(in alloc; "null");
    }
    format!(in alloc; r#"[{{"type":"VEN_NAME","values":["{ven}"]}}]"#)
}

/// The body of the event of `PROGRAM START LENGTH PRIORITY PRICE VEN`.
fn event_body(alloc: Global, line: &str) -> Result<String, AllocError> {
    let (program, line) = word(line);
    let (start, line) = word(line);
    let (length, line) = word(line);
    let (priority, line) = word(line);
    let (price, ven) = word(line);
    let priority = if priority == "-" { "null" } else { priority };
    let targets = targets(alloc, ven)?;
    format!(in alloc;
        r#"{{"programID":"{program}","priority":{priority},"targets":{targets},"intervalPeriod":{{"start":"{start}","duration":"{length}"}},"intervals":[{{"id":0,"payloads":[{{"type":"PRICE","values":[{price}]}}]}}]}}"#
    )
}

/// The body of an object of a kind, from what follows its id.
fn body(alloc: Global, kind: &str, id: &str, line: &str) -> Result<String, AllocError> {
    if line.starts_with('{') {
        return String::from_str(alloc, line);
    }
    match kind {
        "program" => format!(in alloc; r#"{{"programName":"P"}}"#),
        "ven" => format!(in alloc; r#"{{"venName":"{id}"}}"#),
        "resource" => format!(in alloc; r#"{{"resourceName":"R","venID":"{line}"}}"#),
        _ => event_body(alloc, line),
    }
}

/// The edit of a line.
///
/// # Errors
///
/// What refuses its id or its body; `NoMemory`.
pub fn edit(alloc: Global, line: &str) -> Result<Edit, Refusal> {
    let (verb, line) = word(line);
    let (kind, line) = word(line);
    let (id, line) = word(line);
    let body = body(alloc, kind, id, line)?;
    let line = format!(in alloc; "{verb} {kind} {id} {body}")?;
    bodies::edit(alloc, line.as_str())
}
