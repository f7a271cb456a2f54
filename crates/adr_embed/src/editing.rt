//! An editor with the reply that it gave last.
ghost use Rattle.std.specs.Prelude.{◌≡◌, [], OnOk, OnErr, IfOk};
ghost use Rattle.adr_refusal.specs.Answer.{Answers, OnlyNoMemory, result_map};
ghost use Rattle.adr_model.specs.Kept.{kept_start};
ghost use Rattle.adr_resolver.specs.Kept.{kept_next};
ghost use Rattle.adr_embed.specs.Answered.{line_answer};
ghost use Rattle.adr_embed.specs.Steps.{changed, created, object_named, removed, IsCondensed, IsEdit, IsPublication};

use crate::instants::moment_at;
use crate::reading::Reading;
use crate::script::answer;
use crate::steps;
use adr_board::Publisher;
use adr_model::{Published, Tie};
use adr_object::{Edit, Id, Kind, Object};
use adr_resolver::{BodyReader, object_of};
use adr_value::Refusal;
use std::alloc::Global;
use std::marker::Model;

/// An editor, with the memory in which it reads bodies, and its reply to the last line. Contracts see what it keeps, and
/// the reply.
#[derive(Drop)]
pub struct Editing {
    publisher: Publisher,
    bodies: BodyReader,
    reply: Vec<u8>,
}

impl Model for Editing {
    ghost use Rattle.adr_embed.specs.Held.{Edited, kept_of};

    ghost Value = { Edited };

    ghost view = { λ e. record { kept = kept_of e.publisher; reply = e.reply.items } };
}

impl Editing {
    /// No objects, published as number 0, and no reply.
    ///
    /// # Errors
    ///
    /// `NoMemory` where there is no room for them.
    pub fn open(alloc: Global, tie: Tie) -> Result<Editing, Refusal>
        ensures ok { IfOk result (λ e. e ≡ record { kept = kept_start tie; reply = [] }) }
        ensures memory { OnlyNoMemory result }
    {
        Ok(Editing {
            publisher: Publisher::open(alloc, tie)?,
            bodies: BodyReader::keeping(alloc),
            reply: Vec::new(alloc),
        })
    }

    /// Answers a line of the script, and keeps the reply.
    ///
    /// # Errors
    ///
    /// Why the line is refused; `NoMemory` in place of any. Nothing is changed then, and there is no reply.
    pub fn line(&mut self, line: &[u8]) -> Result<(), Refusal>
        ensures answer { Answers (result_map (λ _. self.new.reply) result) (line_answer self.old.kept line.now) }
        ensures next { OnOk result (self.new.kept ≡ kept_next self.old.kept line.now) }
        ensures unchanged { OnErr result (self.new ≡ record { kept = self.old.kept; reply = [] }) }
    {
        self.reply.clear();
        self.reply = answer(&mut self.publisher, &mut self.bodies, line)?;
        Ok(())
    }

    /// The object that a body spells under an id, in an edit at a moment.
    #[tactic(auto, unfolding(crate::specs::Steps::object_named))]
    fn object(
        &mut self,
        seconds: i64,
        nanoseconds: u32,
        kind: Kind,
        id: &[u8],
        body: &[u8],
    ) -> Result<Object, Refusal>
        ensures object { Answers result (object_named seconds nanoseconds kind id.now body.now) }
        ensures same { self.new ≡ self.old }
    {
        let alloc = self.publisher.allocator();
        let now = moment_at(seconds, nanoseconds)?;
        let id = Id::read(alloc, id)?;
        object_of(alloc, &mut self.bodies, kind, now, &id, body)
    }

    /// Makes an edit that creates an object, at a moment of so many seconds since 1970-01-01T00:00:00Z and nanoseconds
    /// after them. Answers the version after it. As all calls but `line` it leaves the reply.
    ///
    /// # Errors
    ///
    /// The least fault: `BadMoment`, `BadId`, those of the body, those of the objects that are there; `NoMemory` in
    /// place of any.
    pub fn create(
        &mut self,
        seconds: i64,
        nanoseconds: u32,
        kind: Kind,
        id: &[u8],
        body: &[u8],
    ) -> Result<u64, Refusal>
        ensures edit { IsEdit self.old.kept self.new.kept (created seconds nanoseconds kind id.now body.now) result }
        ensures reply { self.new.reply ≡ self.old.reply }
    {
        let object = self.object(seconds, nanoseconds, kind, id, body)?;
        steps::edit(&mut self.publisher, Edit::Create(object))
    }

    /// Makes an edit that puts a whole object in the place of the one with its id.
    ///
    /// # Errors
    ///
    /// As of [`Editing::create`].
    pub fn change(
        &mut self,
        seconds: i64,
        nanoseconds: u32,
        kind: Kind,
        id: &[u8],
        body: &[u8],
    ) -> Result<u64, Refusal>
        ensures edit { IsEdit self.old.kept self.new.kept (changed seconds nanoseconds kind id.now body.now) result }
        ensures reply { self.new.reply ≡ self.old.reply }
    {
        let object = self.object(seconds, nanoseconds, kind, id, body)?;
        steps::edit(&mut self.publisher, Edit::Change(object))
    }

    /// Makes an edit that takes an object away. At which moment changes nothing.
    ///
    /// # Errors
    ///
    /// `BadId`, or why the object stays; `NoMemory` in place of any.
    pub fn remove(&mut self, kind: Kind, id: &[u8]) -> Result<u64, Refusal>
        ensures edit { IsEdit self.old.kept self.new.kept (removed kind id.now) result }
        ensures reply { self.new.reply ≡ self.old.reply }
    {
        let id = Id::read(self.publisher.allocator(), id)?;
        steps::edit(&mut self.publisher, Edit::Remove(kind, id))
    }

    /// Publishes the objects as they are.
    ///
    /// # Errors
    ///
    /// `Full` after 1,000,000 publications; `NoMemory` where there is no room. Nothing is changed then.
    pub fn publish(&mut self) -> Result<Published, Refusal>
        ensures publication { IsPublication self.old.kept self.new.kept result }
        ensures reply { self.new.reply ≡ self.old.reply }
    {
        steps::publish(&mut self.publisher)
    }

    /// Counts the accepted edits from the last publication on, and answers its version.
    ///
    /// # Errors
    ///
    /// `NoMemory` where there is no room. Nothing is changed then.
    pub fn condense(&mut self) -> Result<u64, Refusal>
        ensures condensed { IsCondensed self.old.kept self.new.kept result }
        ensures reply { self.new.reply ≡ self.old.reply }
    {
        steps::condense(&mut self.publisher)
    }

    /// The reply to the last line, or nothing where it was refused.
    pub fn reply(&self) -> &[u8]
        ensures { result.now ≡ self.now.reply }
    {
        &self.reply
    }

    /// A reader of the last publication.
    ///
    /// # Errors
    ///
    /// `NoMemory` where there is no room for a share of it.
    pub fn look(&self, alloc: Global) -> Result<Reading, Refusal>
        ensures ok { IfOk result (λ r. r ≡ record { number = self.now.kept.number; tie = self.now.kept.tie; book = self.now.kept.published; reply = [] }) }
        ensures memory { OnlyNoMemory result }
    {
        Reading::of(alloc, self.publisher.last())
    }
}
