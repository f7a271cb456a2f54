//! A reader of one publication, with the answer that it gave last.
ghost use Rattle.std.specs.Prelude.{◌≡◌, [], OnOk, OnErr, IfOk, option_map};
ghost use Rattle.adr_refusal.specs.Answer.{Answers, OnlyNoMemory, result_map};
ghost use Rattle.adr_calendar.specs.Shown.{shown_view};
ghost use Rattle.adr_embed.specs.Answered.{asked_answer};
ghost use Rattle.adr_embed.specs.Governor.{governor_told, shown_bytes, source_of, told_by};

use crate::governor::{Governor, GovernorSource};
use crate::instants::moment_at;
use crate::script::ask;
use adr_board::Snapshot;
use adr_calendar::{Signal, governor, put_json_array, shown_by_winner};
use adr_object::IdText;
use adr_resolver::type_word;
use adr_value::Refusal;
use std::alloc::Global;
use std::marker::Model;
use std::sync::Arc;

/// A publication, and the answer that was given last from it. Contracts see its number, its rule for ties and its
/// objects, and the answer.
#[derive(Drop)]
pub struct Reading {
    snapshot: Arc<Snapshot>,
    reply: Vec<u8>,
}

impl Model for Reading {
    ghost use Rattle.std.specs.Arc.{arc_value};
    ghost use Rattle.adr_embed.specs.Held.{Seen};

    ghost Value = { Seen };

    ghost view = { λ r. record { number = (arc_value r.snapshot).number; tie = (arc_value r.snapshot).tie; book = (arc_value r.snapshot).book.objects; reply = r.reply.items } };
}

/// Puts the bytes of what is shown into an empty reply.
fn put_shown(
    reply: &mut Vec<u8>,
    shown: Option<Signal<'_>>,
) -> Result<Option<GovernorSource>, Refusal>
    requires empty { reply.old.items ≡ [] }
    ensures bytes { OnOk result (reply.new.items ≡ shown_bytes (option_map shown_view shown.entry)) }
    ensures source { IfOk result (λ source. source ≡ option_map source_of (option_map shown_view shown.entry)) }
    ensures memory { OnlyNoMemory result }
{
    let Some(shown) = shown else {
        return Ok(None);
    };
    let event = shown.event.text().as_bytes();
    reply.extend_from_slice(event)?;
    put_json_array(reply, shown.values)?;
    Ok(Some(GovernorSource {
        interval: shown.interval,
        event_len: event.len(),
        values_len: reply.len() - event.len(),
    }))
}

/// Tells what governs, and puts the bytes of it into an empty reply.
#[tactic(auto, unfolding(crate::specs::Governor::governor_told))]
fn tell(
    alloc: Global,
    snapshot: &Snapshot,
    resource: &[u8],
    payload_type: &[u8],
    seconds: i64,
    nanoseconds: u32,
    reply: &mut Vec<u8>,
) -> Result<Governor, Refusal>
    requires empty { reply.old.items ≡ [] }
    ensures { Answers (result_map (λ governor. told_by governor reply.new.items) result) (governor_told snapshot.now.tie snapshot.now.book.objects resource.now payload_type.now seconds nanoseconds) }
{
    let moment = moment_at(seconds, nanoseconds)?;
    let resource = IdText::read(resource)?;
    let payload_type = type_word(alloc, payload_type)?;
    let state = governor(snapshot, resource, &payload_type, moment)?;
    let shown = shown_by_winner(snapshot.book(), &payload_type, state.governor);
    Ok(Governor {
        source: put_shown(reply, shown)?,
        until: state.until,
    })
}

impl Reading {
    ghost use Rattle.std.specs.Arc.{arc_value};

    /// A reader of the publication, with no answer. `NoMemory`.
    pub(crate) fn of(alloc: Global, snapshot: &Arc<Snapshot>) -> Result<Reading, Refusal>
        ensures ok { IfOk result (λ r. r ≡ record { number = (arc_value snapshot.now).number; tie = (arc_value snapshot.now).tie; book = (arc_value snapshot.now).book.objects; reply = [] }) }
        ensures memory { OnlyNoMemory result }
    {
        let Ok(snapshot) = Arc::try_clone(snapshot) else {
            return Err(Refusal::NoMemory);
        };
        Ok(Reading {
            snapshot,
            reply: Vec::new(alloc),
        })
    }

    /// Another reader of the same publication, for another thread.
    ///
    /// # Errors
    ///
    /// `NoMemory` where there is no room for a share of it.
    pub fn share(&self, alloc: Global) -> Result<Reading, Refusal>
        ensures ok { IfOk result (λ r. r ≡ record self.now { reply = [] }) }
        ensures memory { OnlyNoMemory result }
    {
        Reading::of(alloc, &self.snapshot)
    }

    /// Answers a query of the script from the publication, and keeps the answer.
    ///
    /// # Errors
    ///
    /// Why the line is refused, `BadLine` also for one that is no query; `NoMemory` in place of any. There is no answer
    /// then.
    pub fn line(&mut self, alloc: Global, line: &[u8]) -> Result<(), Refusal>
        ensures answer { Answers (result_map (λ _. self.new.reply) result) (asked_answer self.old.tie self.old.book line.now) }
        ensures same { self.new ≡ record self.old { reply = self.new.reply } }
        ensures refused { OnErr result (self.new.reply ≡ []) }
    {
        self.reply.clear();
        self.reply = ask(alloc, &*self.snapshot, line)?;
        Ok(())
    }

    /// What governs the resource for the payload type at so many seconds since 1970-01-01T00:00:00Z and nanoseconds
    /// after them, and keeps the bytes of the answer. Cost: a few look-ups in trees, and the bytes.
    ///
    /// # Errors
    ///
    /// The least fault: `BadMoment`, `BadId`, `BadText` of the type, `UnknownResource`; `NoMemory` in place of any.
    /// There is no answer then.
    pub fn governor(
        &mut self,
        alloc: Global,
        resource: &[u8],
        payload_type: &[u8],
        seconds: i64,
        nanoseconds: u32,
    ) -> Result<Governor, Refusal>
        ensures answer { Answers (result_map (λ governor. told_by governor self.new.reply) result) (governor_told self.old.tie self.old.book resource.now payload_type.now seconds nanoseconds) }
        ensures same { self.new ≡ record self.old { reply = self.new.reply } }
        ensures refused { OnErr result (self.new.reply ≡ []) }
    {
        self.reply.clear();
        let told = tell(
            alloc,
            &*self.snapshot,
            resource,
            payload_type,
            seconds,
            nanoseconds,
            &mut self.reply,
        );
        if told.is_err() {
            self.reply.clear();
        }
        told
    }

    /// The last answer, or nothing where the call was refused.
    pub fn reply(&self) -> &[u8]
        ensures { result.now ≡ self.now.reply }
    {
        &self.reply
    }

    /// The number of the publication.
    pub fn number(&self) -> u64
        ensures { result ≡ self.now.number }
    {
        self.snapshot.number()
    }

    /// The number of accepted edits up to it.
    pub fn version(&self) -> u64
        ensures { result ≡ self.now.book.version }
    {
        self.snapshot.version()
    }
}
