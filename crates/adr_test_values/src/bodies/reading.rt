//! Objects and edits from the words of a line and from bodies.
//!
//! What owns objects is let go by `drop` before a function returns: at the end of its scope it would be taken apart,
//! field by field, in the proof of each function that has it.
use adr_object::{Edit, Id, Kind, Object, Shared};
use adr_read::{read_event, read_program, read_resource, read_ven};
use adr_time::Moment;
use adr_value::Refusal;
use std::alloc::Global;

/// The first word of a line, and what follows it.
///
/// # Errors
///
/// `BadLine` where no space parts them.
pub fn word(line: &str) -> Result<(&str, &str), Refusal> {
    line.split_once(' ').ok_or(Refusal::BadLine)
}

/// What was read or copied, where it may have several owners.
///
/// # Errors
///
/// That of the value; `NoMemory` where there is no room to share it.
pub fn shared<T: Drop>(alloc: Global, value: Result<T, Refusal>) -> Result<Shared<T>, Refusal> {
    Shared::new(alloc, value?)
}

/// The object of a body on a line of that kind and id.
fn read_object(alloc: Global, kind: &str, id: &Id, body: &[u8]) -> Result<Object, Refusal> {
    match kind {
        "program" => {
            let program = read_program(alloc, body, id, Moment::MIN);
            Ok(Object::Program(shared(alloc, program)?))
        }
        "ven" => {
            let ven = read_ven(alloc, body, id, Moment::MIN);
            Ok(Object::Ven(shared(alloc, ven)?))
        }
        "resource" => {
            let resource = read_resource(alloc, body, id, Moment::MIN);
            Ok(Object::Resource(shared(alloc, resource)?))
        }
        _ => {
            let event = read_event(alloc, body, id, Moment::MIN);
            Ok(Object::Event(shared(alloc, event)?))
        }
    }
}

/// The object of a line `KIND ID JSON`.
///
/// # Errors
///
/// `BadLine` where a word is wanting; those of an id and of a body; `NoMemory`.
pub fn object(alloc: Global, line: &str) -> Result<Object, Refusal> {
    let (kind, line) = word(line)?;
    let (id, body) = word(line)?;
    let id = Id::read(alloc, id.as_bytes())?;
    let object = read_object(alloc, kind, &id, body.as_bytes());
    drop(id);
    object
}

/// The kind that the word names; an event by any other word.
pub fn kind_of(word: &str) -> Kind {
    match word {
        "program" => Kind::Program,
        "ven" => Kind::Ven,
        "resource" => Kind::Resource,
        _ => Kind::Event,
    }
}

/// The removal of a line `KIND ID JSON`, which needs no body.
fn removal(alloc: Global, line: &str) -> Result<Edit, Refusal> {
    let (kind, line) = word(line)?;
    let (id, _) = word(line)?;
    Ok(Edit::Remove(kind_of(kind), Id::read(alloc, id.as_bytes())?))
}

/// The edit of a line `VERB KIND ID JSON`.
///
/// # Errors
///
/// `BadLine` where a word is wanting; those of an id and of a body; `NoMemory`.
pub fn edit(alloc: Global, line: &str) -> Result<Edit, Refusal> {
    let (verb, line) = word(line)?;
    match verb {
        "create" => Ok(Edit::Create(object(alloc, line)?)),
        "change" => Ok(Edit::Change(object(alloc, line)?)),
        _ => removal(alloc, line),
    }
}
