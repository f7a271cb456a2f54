//! The lines of a script, answered one at a time.
ghost use Rattle.std.specs.Prelude.{◌≡◌, ◌≤◌, [], OnOk, OnErr, IfOk, vec_capacity};
ghost use Rattle.adr_refusal.specs.Answer.{Answers, OnlyNoMemory, result_map};
ghost use Rattle.adr_resolver.specs.declared.command.Command.TheVariants.{Edit as EditCommand, Publish as PublishCommand, Condense as CondenseCommand};
ghost use Rattle.adr_resolver.specs.Kept.{kept_command_next, kept_next};
ghost use Rattle.adr_embed.specs.Held.{kept_of};
ghost use Rattle.adr_embed.specs.Answered.{asked_answer, command_answer, line_answer};

use crate::steps;
use adr_board::{Publisher, Snapshot};
use adr_object::Edit;
use adr_resolver::{
    BodyReader, Command, parse_line, parse_line_by, put_condensed, put_ok, put_published,
};
use adr_value::Refusal;
use std::alloc::Global;

/// An empty reply with room for a short one.
fn short_reply(alloc: Global) -> Result<Vec<u8>, Refusal>
    ensures empty { IfOk result (λ reply. reply.items ≡ []) }
    ensures room { IfOk result (λ reply. 64 ≤ vec_capacity reply) }
    ensures memory { OnlyNoMemory result }
{
    let mut reply = Vec::new(alloc);
    reply.reserve(64)?;
    Ok(reply)
}

/// Makes an edit.
fn edit(publisher: &mut Publisher, edit: Edit) -> Result<Vec<u8>, Refusal>
    ensures answer { Answers (result_map (λ reply. reply.items) result) (command_answer (kept_of publisher.old) (EditCommand edit)) }
    ensures next { OnOk result (kept_of publisher.new ≡ kept_command_next (kept_of publisher.old) (EditCommand edit)) }
    ensures unchanged { OnErr result (kept_of publisher.new ≡ kept_of publisher.old) }
{
    let mut reply = short_reply(publisher.allocator())?;
    let version = steps::edit(publisher, edit)?;
    put_ok(&mut reply, version);
    Ok(reply)
}

/// Publishes the objects as they are.
fn publish(publisher: &mut Publisher) -> Result<Vec<u8>, Refusal>
    ensures answer { Answers (result_map (λ reply. reply.items) result) (command_answer (kept_of publisher.old) PublishCommand) }
    ensures next { OnOk result (kept_of publisher.new ≡ kept_command_next (kept_of publisher.old) PublishCommand) }
    ensures unchanged { OnErr result (kept_of publisher.new ≡ kept_of publisher.old) }
{
    let mut reply = short_reply(publisher.allocator())?;
    let published = steps::publish(publisher)?;
    put_published(&mut reply, published.number, published.version);
    Ok(reply)
}

/// Makes the last publication the base.
fn condense(publisher: &mut Publisher) -> Result<Vec<u8>, Refusal>
    ensures answer { Answers (result_map (λ reply. reply.items) result) (command_answer (kept_of publisher.old) CondenseCommand) }
    ensures next { OnOk result (kept_of publisher.new ≡ kept_command_next (kept_of publisher.old) CondenseCommand) }
    ensures unchanged { OnErr result (kept_of publisher.new ≡ kept_of publisher.old) }
{
    let mut reply = short_reply(publisher.allocator())?;
    let version = steps::condense(publisher)?;
    put_condensed(&mut reply, version);
    Ok(reply)
}

/// Answers a line of an editor, by this reader of bodies. A refused one changes nothing.
pub(crate) fn answer(
    publisher: &mut Publisher,
    bodies: &mut BodyReader,
    line: &[u8],
) -> Result<Vec<u8>, Refusal>
    ensures answer { Answers (result_map (λ reply. reply.items) result) (line_answer (kept_of publisher.old) line.now) }
    ensures next { OnOk result (kept_of publisher.new ≡ kept_next (kept_of publisher.old) line.now) }
    ensures unchanged { OnErr result (kept_of publisher.new ≡ kept_of publisher.old) }
{
    let alloc = publisher.allocator();
    match parse_line_by(alloc, bodies, line)? {
        Command::Edit(change) => edit(publisher, change),
        Command::Publish => publish(publisher),
        Command::Condense => condense(publisher),
        Command::At(id, payload_type, moment) => {
            adr_calendar::at(alloc, &**publisher.last(), &id, &payload_type, moment)
        }
        Command::List(id, payload_type, from, to) => {
            adr_calendar::list(alloc, &**publisher.last(), &id, &payload_type, from, to)
        }
        Command::Roll(payload_type, moment) => {
            adr_calendar::roll(alloc, &**publisher.last(), &payload_type, moment)
        }
        Command::Types(id) => adr_calendar::types(alloc, &**publisher.last(), &id),
    }
}

/// Answers a line of a reader from a publication: a query. `BadLine` for a line that is none.
pub(crate) fn ask(alloc: Global, snapshot: &Snapshot, line: &[u8]) -> Result<Vec<u8>, Refusal>
    ensures { Answers (result_map (λ reply. reply.items) result) (asked_answer snapshot.now.tie snapshot.now.book.objects line.now) }
{
    match parse_line(alloc, line)? {
        Command::At(id, payload_type, moment) => {
            adr_calendar::at(alloc, snapshot, &id, &payload_type, moment)
        }
        Command::List(id, payload_type, from, to) => {
            adr_calendar::list(alloc, snapshot, &id, &payload_type, from, to)
        }
        Command::Roll(payload_type, moment) => {
            adr_calendar::roll(alloc, snapshot, &payload_type, moment)
        }
        Command::Types(id) => adr_calendar::types(alloc, snapshot, &id),
        Command::Edit(_) | Command::Publish | Command::Condense => Err(Refusal::BadLine),
    }
}
