//! From a line to its command, or the least of its faults.
ghost use Rattle.std.specs.Prelude.{◌≡◌};
ghost use Rattle.adr_refusal.specs.Answer.{Answers};
ghost use Rattle.adr_resolver.specs.Line.{moment_word, type_word, object_of, write_command, delete_command, at_command, list_command, roll_command, types_command, query_named, line_named};
ghost use Rattle.adr_resolver.specs.Views.{write_view, delete_view, at_view, list_view, roll_view};

use crate::command::Command;
use crate::fields::{
    AtLine, DeleteLine, ListLine, RollLine, Verb, WriteLine, at_line, delete_line, list_line,
    roll_line, types_line, write_line,
};
use adr_object::{Edit, Id, Kind, Object, Shared};
use adr_read::BodyReader;
use adr_script::MAX_LINE;
use adr_time::{Moment, read_moment};
use adr_value::{PayloadType, Refusal};
use std::alloc::Global;
use std::str;

fn moment_word(word: &[u8]) -> Result<Moment, Refusal>
    ensures { result ≡ moment_word word.now }
{
    match str::from_utf8(word) {
        Ok(text) => read_moment(text),
        Err(_) => Err(Refusal::BadMoment),
    }
}

/// The payload type that a word names.
///
/// # Errors
///
/// `BadText` for a name that has not 1 to 128 characters, also for one that is no UTF-8; `NoMemory` where there is no
/// room for it.
pub fn type_word(alloc: Global, word: &[u8]) -> Result<PayloadType, Refusal>
    ensures { Answers result (type_word word.now) }
{
    match str::from_utf8(word) {
        Ok(text) => PayloadType::type_of(alloc, text),
        Err(_) => Err(Refusal::BadText),
    }
}

/// The object of a body, at the moment of its edit, by a reader that may keep its memory for the bodies that follow.
///
/// # Errors
///
/// The least fault of the body, or `NoMemory`.
pub fn object_of(
    alloc: Global,
    bodies: &mut BodyReader,
    kind: Kind,
    now: Moment,
    id: &Id,
    body: &[u8],
) -> Result<Object, Refusal>
    ensures { Answers result (object_of kind now id.now body.now) }
{
    match kind {
        Kind::Program => {
            let program = bodies.program(alloc, body, id, now)?;
            Ok(Object::Program(Shared::new(alloc, program)?))
        }
        Kind::Event => {
            let event = bodies.event(alloc, body, id, now)?;
            Ok(Object::Event(Shared::new(alloc, event)?))
        }
        Kind::Ven => {
            let ven = bodies.ven(alloc, body, id, now)?;
            Ok(Object::Ven(Shared::new(alloc, ven)?))
        }
        Kind::Resource => {
            let resource = bodies.resource(alloc, body, id, now)?;
            Ok(Object::Resource(Shared::new(alloc, resource)?))
        }
    }
}

#[tactic(auto, unfolding(crate::specs::Line::write_command_by))]
fn write_command(
    alloc: Global,
    bodies: &mut BodyReader,
    line: &WriteLine<'_>,
) -> Result<Command, Refusal>
    ensures { Answers result (write_command (write_view line.now)) }
{
    let now = moment_word(line.moment)?;
    let id = Id::read(alloc, line.id)?;
    let object = object_of(alloc, bodies, line.kind, now, &id, line.body)?;
    match line.verb {
        Verb::Create => Ok(Command::Edit(Edit::Create(object))),
        Verb::Change => Ok(Command::Edit(Edit::Change(object))),
    }
}

#[tactic(auto, unfolding(crate::specs::Line::delete_command))]
fn delete_command(alloc: Global, line: &DeleteLine<'_>) -> Result<Command, Refusal>
    ensures { Answers result (delete_command (delete_view line.now)) }
{
    moment_word(line.moment)?;
    let id = Id::read(alloc, line.id)?;
    Ok(Command::Edit(Edit::Remove(line.kind, id)))
}

#[tactic(auto, unfolding(crate::specs::Line::at_command))]
fn at_command(alloc: Global, line: &AtLine<'_>) -> Result<Command, Refusal>
    ensures { Answers result (at_command (at_view line.now)) }
{
    let moment = moment_word(line.moment)?;
    let resource = Id::read(alloc, line.resource)?;
    let payload_type = type_word(alloc, line.payload_type)?;
    Ok(Command::At(resource, payload_type, moment))
}

#[tactic(auto, unfolding(crate::specs::Line::list_command))]
fn list_command(alloc: Global, line: &ListLine<'_>) -> Result<Command, Refusal>
    ensures { Answers result (list_command (list_view line.now)) }
{
    let from = moment_word(line.from)?;
    let to = moment_word(line.to)?;
    let resource = Id::read(alloc, line.resource)?;
    let payload_type = type_word(alloc, line.payload_type)?;
    Ok(Command::List(resource, payload_type, from, to))
}

#[tactic(auto, unfolding(crate::specs::Line::roll_command))]
fn roll_command(alloc: Global, line: &RollLine<'_>) -> Result<Command, Refusal>
    ensures { Answers result (roll_command (roll_view line.now)) }
{
    let moment = moment_word(line.moment)?;
    let payload_type = type_word(alloc, line.payload_type)?;
    Ok(Command::Roll(payload_type, moment))
}

fn types_command(alloc: Global, resource: &[u8]) -> Result<Command, Refusal>
    ensures { Answers result (types_command resource.now) }
{
    Ok(Command::Types(Id::read(alloc, resource)?))
}

/// The query that a line is.
#[tactic(auto, unfolding(crate::specs::Line::query_named))]
fn query_named(alloc: Global, line: &[u8]) -> Result<Command, Refusal>
    ensures { Answers result (query_named line.now) }
{
    if let Some(at) = at_line(line) {
        return at_command(alloc, &at);
    }
    if let Some(list) = list_line(line) {
        return list_command(alloc, &list);
    }
    if let Some(roll) = roll_line(line) {
        return roll_command(alloc, &roll);
    }
    match types_line(line) {
        Some(resource) => types_command(alloc, resource),
        None => Err(Refusal::BadLine),
    }
}

/// The command that a line is. The line has no line feed, and no carriage return at its end.
///
/// Cost: a pass over the words of the line for each form until one fits, and that of reading the body.
///
/// # Errors
///
/// The least fault of the line: `LongLine` for more than 4,194,304 bytes, `BadLine` where it has no form of the script,
/// `BadMoment`, `BadId`, `BadText` for a type that is no UTF-8 or has more than 128 characters, and those of the body
/// (`BadNumber` to `TooMany`). `NoMemory` may come in place of any.
pub fn parse_line(alloc: Global, line: &[u8]) -> Result<Command, Refusal>
    ensures { Answers result (line_named line.now) }
{
    parse_line_by(alloc, &mut BodyReader::new(), line)
}

/// As `parse_line`, by a reader that may keep its memory for the bodies of the lines that follow.
///
/// # Errors
///
/// As of [`parse_line`].
#[tactic(auto, unfolding(crate::specs::Line::line_named_by))]
pub fn parse_line_by(
    alloc: Global,
    bodies: &mut BodyReader,
    line: &[u8],
) -> Result<Command, Refusal>
    ensures { Answers result (line_named line.now) }
{
    if line.len() > MAX_LINE {
        return Err(Refusal::LongLine);
    }
    if line == b"publish".as_slice() {
        return Ok(Command::Publish);
    }
    if line == b"condense".as_slice() {
        return Ok(Command::Condense);
    }
    if let Some(write) = write_line(line) {
        return write_command(alloc, bodies, &write);
    }
    match delete_line(line) {
        Some(delete) => delete_command(alloc, &delete),
        None => query_named(alloc, line),
    }
}
