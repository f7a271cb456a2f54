//! The editor's side: what answers the lines.
ghost use Rattle.std.specs.Prelude.{◌≡◌, ◌≤◌, ◌++◌, ◌∷◌, [], OnOk, OnErr, IfSome, vec_capacity};
ghost use Rattle.adr_resolver.specs.declared.command.Command.TheVariants.{Edit as EditCommand, Publish as PublishCommand, Condense as CondenseCommand};
ghost use Rattle.adr_model.specs.Machine.{last_number};
ghost use Rattle.adr_resolver.specs.Fan.{editor_reply, editor_next, sent_reply, with_query};
ghost use Rattle.adr_fan.specs.Parts.{AreTrue, IsPart};
ghost use Rattle.adr_fan.specs.Queries.{query_in};

use crate::checking::{are_in_order, settle};
use crate::mailbox::Mailbox;
use crate::queries::{Query, Sent};
use crate::reading::{Part, Reply};
use adr_board::{Editor, Naming};
use adr_object::Edit;
use adr_resolver::{
    BodyReader, Command, parse_line_by, put_condensed, put_ok, put_published, put_refusal,
    put_refused,
};
use adr_script::{Machine, Unanswered};
use adr_value::Refusal;
use std::alloc::{AllocError, Global};
use std::marker::Model;
use std::sync::{Arc, Wait};
use std::thread::Threads;

const MOST_QUERIES: usize = 65_536;

/// The editor, the queries that it has sent, the readers' mailboxes, and what reads the lines' bodies.
pub(crate) struct FanDesk<J: Naming> {
    pub(crate) editor: Editor<J>,
    pub(crate) sent: Vec<Sent>,
    pub(crate) boxes: Vec<Arc<Mailbox>>,
    pub(crate) bodies: BodyReader,
}

impl<J: Naming> Model for FanDesk<J> {
    ghost use Rattle.std.specs.Prelude.{[]};
    ghost use Rattle.adr_board.specs.Publications.{publications_in};
    ghost use Rattle.adr_resolver.specs.Fan.{Fan};

    ghost Value = { Fan };

    ghost view = { λ d. record { machine = record { tie = d.editor.tie; base = d.editor.book.base.version; current = d.editor.book.objects; published = publications_in d.editor.published; pending = d.editor.book.pending; seen = [] }; sent = d.sent.items } };
}

impl<J: Naming> FanDesk<J> {
    /// Makes an edit.
    fn edit(&mut self, edit: Edit, reply: &mut Vec<u8>) -> Result<(), Unanswered>
        requires empty { reply.old.items ≡ [] }
        requires room { 64 ≤ vec_capacity reply.old }
        ensures reply { OnOk result (reply.new.items ≡ editor_reply self.old (EditCommand edit)) }
        ensures next { OnOk result (self.new ≡ editor_next self.old (EditCommand edit)) }
        ensures err { OnErr result (self.new ≡ self.old) }
        ensures room { 64 ≤ vec_capacity reply.new }
    {
        match self.editor.apply(edit) {
            Ok(_receipt) => {
                put_ok(reply, self.editor.desk().book().version());
                Ok(())
            }
            Err(refusal) => put_refused(reply, refusal),
        }
    }

    /// Publishes the objects as they are.
    #[tactic(auto, using(adr_board::proofs::Linked::publications_push, adr_board::proofs::Linked::publications_long))]
    fn publish<R: Wait>(&mut self, rt: &R, reply: &mut Vec<u8>) -> Result<(), Unanswered>
        requires empty { reply.old.items ≡ [] }
        requires room { 64 ≤ vec_capacity reply.old }
        ensures reply { OnOk result (reply.new.items ≡ editor_reply self.old PublishCommand) }
        ensures next { OnOk result (self.new ≡ editor_next self.old PublishCommand) }
        ensures err { OnErr result (self.new ≡ self.old) }
        ensures room { 64 ≤ vec_capacity reply.new }
    {
        match self.editor.publish(rt) {
            Ok(published) => {
                let version = self.editor.desk().book().version();
                put_published(reply, published.number, version);
                Ok(())
            }
            Err(refusal) => put_refused(reply, refusal),
        }
    }

    /// Makes the last publication the base.
    #[tactic(auto, using(crate::proofs::Lasts::last_objects, crate::proofs::Lasts::version_at_end))]
    fn condense(&mut self, reply: &mut Vec<u8>) -> Result<(), Unanswered>
        requires empty { reply.old.items ≡ [] }
        requires room { 64 ≤ vec_capacity reply.old }
        ensures reply { OnOk result (reply.new.items ≡ editor_reply self.old CondenseCommand) }
        ensures next { OnOk result (self.new ≡ editor_next self.old CondenseCommand) }
        ensures err { OnErr result (self.new ≡ self.old) }
        ensures room { 64 ≤ vec_capacity reply.new }
    {
        let version = self.editor.last().version();
        match self.editor.condense() {
            Ok(_) => {
                put_condensed(reply, version);
                Ok(())
            }
            Err(_) => Err(Unanswered::NoMemory),
        }
    }

    /// Sends a query to every reader, or refuses it.
    fn send<H: AllocGlobal + Wait>(
        &mut self,
        rt: &H,
        query: Query,
        reply: &mut Vec<u8>,
    ) -> Result<(), Unanswered>
        requires empty { reply.old.items ≡ [] }
        requires room { 64 ≤ vec_capacity reply.old }
        ensures reply { OnOk result (reply.new.items ≡ sent_reply self.old) }
        ensures next { OnOk result (self.new ≡ with_query self.old (query_in query)) }
        ensures err { OnErr result (self.new ≡ self.old) }
        ensures room { 64 ≤ vec_capacity reply.new }
    {
        if self.sent.len() >= MOST_QUERIES {
            put_refusal(reply, Refusal::Full);
            return Ok(());
        }
        let sent = Sent::new(query, self.last_number());
        self.send_on(rt, sent)
    }

    /// Sends it to every reader, and keeps it.
    fn send_on<H: AllocGlobal + Wait>(&mut self, rt: &H, sent: Sent) -> Result<(), Unanswered>
        ensures ok { OnOk result (self.new ≡ record self.old { sent = self.old.sent ++ sent ∷ [] }) }
        ensures err { OnErr result (self.new ≡ self.old) }
    {
        self.sent.reserve(1)?;
        deliver(rt, self.boxes.as_slice(), &sent)?;
        self.sent.push_reserved(sent);
        Ok(())
    }

    /// A reader's replies, if they are one of its parts. The reader learns of all publications and looks once more.
    pub(crate) fn check(&self, part: Part<J>) -> Option<Vec<Reply>>
        requires { AreTrue J.tie part.reader.seen part.replies.items }
        ensures { IfSome result (IsPart self.now) }
    {
        let Part {
            mut reader,
            replies,
            whole,
        } = part;
        self.editor.editor_laws();
        if !whole || !settle(&self.editor, &mut reader) {
            return None;
        }
        let last = self.last_number();
        if are_in_order(self.sent.as_slice(), replies.as_slice(), last) {
            Some(replies)
        } else {
            None
        }
    }

    /// The number of the last publication.
    #[tactic(auto, using(crate::proofs::Lasts::number_at_end))]
    fn last_number(&self) -> u64
        ensures { result ≡ last_number self.now.machine }
    {
        self.editor.last().number()
    }
}

/// So many copies of what is sent.
fn copies_of(alloc: Global, sent: &Sent, count: usize) -> Result<Vec<Sent>, Refusal> {
    let mut copies = Vec::with_capacity(alloc, count)?;
    for _ in 0..count {
        copies.push(sent.copy()?)?;
    }
    Ok(copies)
}

fn make_room<R: Wait>(rt: &R, boxes: &[Arc<Mailbox>]) -> Result<(), AllocError> {
    for mailbox in boxes {
        mailbox.make_room(rt)?;
    }
    Ok(())
}

/// Sends one copy to each mailbox.
fn send_all<R: Wait>(rt: &R, boxes: &[Arc<Mailbox>], copies: Vec<Sent>) -> Result<(), AllocError> {
    for (mailbox, sent) in boxes.iter().zip(copies) {
        mailbox.send(rt, sent)?;
    }
    Ok(())
}

/// Sends a copy to each mailbox, once there is room in all.
fn deliver<H: AllocGlobal + Wait>(
    rt: &H,
    boxes: &[Arc<Mailbox>],
    sent: &Sent,
) -> Result<(), Unanswered> {
    let Ok(copies) = copies_of(rt.alloc(), sent, boxes.len()) else {
        return Err(Unanswered::NoMemory);
    };
    make_room(rt, boxes)?;
    match send_all(rt, boxes, copies) {
        Ok(()) => Ok(()),
        Err(_) => Err(Unanswered::NoRuntime),
    }
}

/// No query comes from now on.
pub(crate) fn close_all<R: Wait>(rt: &R, boxes: &[Arc<Mailbox>]) {
    for mailbox in boxes {
        mailbox.close(rt);
    }
}

impl<J: Naming> Machine for FanDesk<J> {
    ghost use Rattle.adr_script.specs.Text.{AnswersBy};
    ghost use Rattle.adr_resolver.specs.Fan.{fan_reply, fan_next};

    ghost answers = { AnswersBy fan_reply fan_next };

    // a query may not be sent on
    ghost halts = { Unit {0} };

    fn answer<H: AllocGlobal + Threads + Wait>(
        &mut self,
        rt: &H,
        line: &[u8],
        reply: &mut Vec<u8>,
    ) -> Result<(), Unanswered> {
        match parse_line_by(rt.alloc(), &mut self.bodies, line) {
            Ok(Command::Edit(edit)) => self.edit(edit, reply),
            Ok(Command::Publish) => self.publish(rt, reply),
            Ok(Command::Condense) => self.condense(reply),
            Ok(Command::At(id, payload_type, moment)) => {
                self.send(rt, Query::At(id, payload_type, moment), reply)
            }
            Ok(Command::List(id, payload_type, from, to)) => {
                self.send(rt, Query::List(id, payload_type, from, to), reply)
            }
            Ok(Command::Roll(payload_type, moment)) => {
                self.send(rt, Query::Roll(payload_type, moment), reply)
            }
            Ok(Command::Types(id)) => self.send(rt, Query::Types(id), reply),
            Err(refusal) => put_refused(reply, refusal),
        }
    }
}
