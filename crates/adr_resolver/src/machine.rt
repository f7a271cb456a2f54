//! A resolver, as what answers a script's lines.
ghost use Rattle.std.specs.Prelude.{◌≡◌, ◌≢◌, ◌≤◌, [], OnOk, OnErr, vec_capacity};
ghost use Rattle.adr_refusal.specs.Answer.{result_map};
ghost use Rattle.adr_resolver.specs.declared.command.Command.TheVariants.{Edit as EditCommand, Publish as PublishCommand, Condense as CondenseCommand, At as AtCommand, List as ListCommand, Roll as RollCommand, Types as TypesCommand};
ghost use Rattle.adr_resolver.specs.Kept.{kept_command_reply, kept_command_next};
ghost use Rattle.adr_resolver.specs.Text.{answer_line};

use crate::command::Command;
use crate::line::parse_line_by;
use crate::replies::{put_answer, put_condensed, put_ok, put_published, put_refused};
use crate::resolver::Resolver;
use adr_object::{Edit, Id};
use adr_read::BodyReader;
use adr_script::{Machine, Unanswered};
use adr_time::Moment;
use adr_value::{PayloadType, Refusal};
use std::alloc::Global;
use std::marker::Model;
use std::sync::Wait;
use std::thread::Threads;

/// Answers a script's lines from a resolver. It is not `Drop`: end it by `into_resolver`.
pub(crate) struct ScriptOf<R: Resolver> {
    resolver: R,
    bodies: BodyReader,
}

impl<R: Resolver> Model for ScriptOf<R> {
    ghost use Rattle.adr_model.specs.Kept.{Kept};

    ghost Value = { Kept };

    ghost view = { λ s. R.kept s.resolver };
}

impl<R: Resolver> ScriptOf<R> {
    /// A script over the resolver as it is.
    pub(crate) fn new(alloc: Global, resolver: R) -> ScriptOf<R>
        ensures { result ≡ R.kept resolver }
    {
        ScriptOf {
            resolver,
            bodies: BodyReader::keeping(alloc),
        }
    }

    /// The resolver, once there are no more lines.
    pub(crate) fn into_resolver(self) -> R {
        let ScriptOf { resolver, bodies } = self;
        drop(bodies);
        resolver
    }

    /// Makes an edit.
    fn edit(&mut self, edit: Edit, reply: &mut Vec<u8>) -> Result<(), Unanswered>
        requires empty { reply.old.items ≡ [] }
        requires room { 64 ≤ vec_capacity reply.old }
        ensures reply { OnOk result (reply.new.items ≡ kept_command_reply self.old (EditCommand edit)) }
        ensures next { OnOk result (self.new ≡ kept_command_next self.old (EditCommand edit)) }
        ensures err { OnErr result ((self.new ≡ self.old) × (result ≡ Err Unanswered.NoMemory)) }
        ensures room { 64 ≤ vec_capacity reply.new }
    {
        match self.resolver.edit(edit) {
            Ok(version) => {
                put_ok(reply, version);
                Ok(())
            }
            Err(refusal) => put_refused(reply, refusal),
        }
    }

    /// Publishes the objects as they are.
    fn publish<H: Wait>(&mut self, rt: &H, reply: &mut Vec<u8>) -> Result<(), Unanswered>
        requires empty { reply.old.items ≡ [] }
        requires room { 64 ≤ vec_capacity reply.old }
        ensures reply { OnOk result (reply.new.items ≡ kept_command_reply self.old PublishCommand) }
        ensures next { OnOk result (self.new ≡ kept_command_next self.old PublishCommand) }
        ensures err { OnErr result ((self.new ≡ self.old) × (result ≡ Err Unanswered.NoMemory)) }
        ensures room { 64 ≤ vec_capacity reply.new }
    {
        match self.resolver.publish(rt) {
            Ok(published) => {
                put_published(reply, published.number, published.version);
                Ok(())
            }
            Err(refusal) => put_refused(reply, refusal),
        }
    }

    /// Makes the last publication the base.
    fn condense(&mut self, reply: &mut Vec<u8>) -> Result<(), Unanswered>
        requires empty { reply.old.items ≡ [] }
        requires room { 64 ≤ vec_capacity reply.old }
        ensures reply { OnOk result (reply.new.items ≡ kept_command_reply self.old CondenseCommand) }
        ensures next { OnOk result (self.new ≡ kept_command_next self.old CondenseCommand) }
        ensures err { OnErr result ((self.new ≡ self.old) × (result ≡ Err Unanswered.NoMemory)) }
        ensures room { 64 ≤ vec_capacity reply.new }
    {
        match self.resolver.condense() {
            Ok(version) => {
                put_condensed(reply, version);
                Ok(())
            }
            Err(_) => Err(Unanswered::NoMemory),
        }
    }

    /// Answers what governs.
    fn at(
        &self,
        id: &Id,
        payload_type: &PayloadType,
        moment: Moment,
        reply: &mut Vec<u8>,
    ) -> Result<(), Unanswered>
        requires empty { reply.old.items ≡ [] }
        requires room { 64 ≤ vec_capacity reply.old }
        ensures reply { OnOk result (reply.new.items ≡ kept_command_reply self.now (AtCommand id.now payload_type.now moment)) }
        ensures err { OnErr result (result ≡ Err Unanswered.NoMemory) }
        ensures room { 64 ≤ vec_capacity reply.new }
    {
        put_answer_or_refusal(reply, self.resolver.at(id, payload_type, moment))
    }

    /// Answers what governs from a moment to before another.
    fn list(
        &self,
        id: &Id,
        payload_type: &PayloadType,
        from: Moment,
        to: Moment,
        reply: &mut Vec<u8>,
    ) -> Result<(), Unanswered>
        requires empty { reply.old.items ≡ [] }
        requires room { 64 ≤ vec_capacity reply.old }
        ensures reply { OnOk result (reply.new.items ≡ kept_command_reply self.now (ListCommand id.now payload_type.now from to)) }
        ensures err { OnErr result (result ≡ Err Unanswered.NoMemory) }
        ensures room { 64 ≤ vec_capacity reply.new }
    {
        put_answer_or_refusal(reply, self.resolver.list(id, payload_type, from, to))
    }

    /// Answers what governs each resource.
    fn roll(
        &self,
        payload_type: &PayloadType,
        moment: Moment,
        reply: &mut Vec<u8>,
    ) -> Result<(), Unanswered>
        requires empty { reply.old.items ≡ [] }
        requires room { 64 ≤ vec_capacity reply.old }
        ensures reply { OnOk result (reply.new.items ≡ kept_command_reply self.now (RollCommand payload_type.now moment)) }
        ensures err { OnErr result (result ≡ Err Unanswered.NoMemory) }
        ensures room { 64 ≤ vec_capacity reply.new }
    {
        put_answer_or_refusal(reply, self.resolver.roll(payload_type, moment))
    }

    /// Answers which payload types govern a resource.
    fn types(&self, id: &Id, reply: &mut Vec<u8>) -> Result<(), Unanswered>
        requires empty { reply.old.items ≡ [] }
        requires room { 64 ≤ vec_capacity reply.old }
        ensures reply { OnOk result (reply.new.items ≡ kept_command_reply self.now (TypesCommand id.now)) }
        ensures err { OnErr result (result ≡ Err Unanswered.NoMemory) }
        ensures room { 64 ≤ vec_capacity reply.new }
    {
        put_answer_or_refusal(reply, self.resolver.types(id))
    }
}

/// Puts the answer to a query, or its refusal; want of memory is no reply.
fn put_answer_or_refusal(
    reply: &mut Vec<u8>,
    answer: Result<Vec<u8>, Refusal>,
) -> Result<(), Unanswered>
    requires empty { reply.old.items ≡ [] }
    requires room { 64 ≤ vec_capacity reply.old }
    ensures reply { OnOk result (reply.new.items ≡ answer_line (result_map (λ v. v.items) answer)) }
    ensures answer { OnOk result (result_map (λ v. v.items) answer ≢ Err Refusal.NoMemory) }
    ensures err { OnErr result (result ≡ Err Unanswered.NoMemory) }
    ensures room { 64 ≤ vec_capacity reply.new }
{
    match answer {
        Ok(answer) => Ok(put_answer(reply, &answer)?),
        Err(refusal) => put_refused(reply, refusal),
    }
}

impl<R: Resolver> Machine for ScriptOf<R> {
    ghost use Rattle.std.specs.Prelude.{List};
    ghost use Rattle.adr_script.specs.Text.{AnswersBy};
    ghost use Rattle.adr_resolver.specs.Kept.{kept_reply, kept_next};

    ghost answers = { AnswersBy kept_reply kept_next };

    ghost halts = { ⊥ };

    fn answer<H: AllocGlobal + Threads + Wait>(
        &mut self,
        rt: &H,
        line: &[u8],
        reply: &mut Vec<u8>,
    ) -> Result<(), Unanswered> {
        match parse_line_by(rt.alloc(), &mut self.bodies, line) {
            Ok(Command::Edit(edit)) => self.edit(edit, reply),
            Ok(Command::Publish) => self.publish(rt, reply),
            Ok(Command::Condense) => self.condense(reply),
            Ok(Command::At(id, payload_type, moment)) => self.at(&id, &payload_type, moment, reply),
            Ok(Command::List(id, payload_type, from, to)) => self.list(
                &id,
                &payload_type,
                from,
                to,
                reply,
            ),
            Ok(Command::Roll(payload_type, moment)) => self.roll(&payload_type, moment, reply),
            Ok(Command::Types(id)) => self.types(&id, reply),
            Err(refusal) => put_refused(reply, refusal),
        }
    }
}
