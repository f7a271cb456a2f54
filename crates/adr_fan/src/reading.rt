//! A reader's thread.
ghost use Rattle.std.specs.Prelude.{◌≡◌, ◌<◌, ◌≤◌, length, IfSome};
ghost use mathlib.Core.List.{IsPrefix};
ghost use Rattle.adr_resolver.specs.Text.{answer_line};
ghost use Rattle.adr_model.specs.Queries.{answer as answer_of};
ghost use Rattle.adr_fan.specs.Parts.{IsTrueReply, AreTrue};

use crate::answering::answer;
use crate::mailbox::Mailbox;
use crate::queries::Sent;
use adr_board::{Gate, Naming, Reader, Snapshot as PublishedSnapshot};
use adr_value::Refusal;
use std::alloc::Global;
use std::snapshot::Snapshot;
use std::sync::{Arc, Wait};
use std::thread;
use std::thread::{Promise, PromisedHandle, Threads};

/// A reply to a query, and the number of the publication that it is from. With no text there was no memory.
#[derive(Drop)]
pub(crate) struct Reply {
    pub(crate) sent: Sent,
    pub(crate) shown: u64,
    pub(crate) text: Option<Vec<u8>>,
}

/// What a reader's thread hands back.
#[derive(Drop)]
pub(crate) struct Part<J: Naming> {
    pub(crate) reader: Reader<J>,
    pub(crate) replies: Vec<Reply>,
    /// Each query that arrived has a reply.
    pub(crate) whole: bool,
}

/// The reader that is handed back goes on from this one, and each reply is from a publication that it has seen, by the
/// board's rule for ties.
#[derive(Drop)]
pub(crate) struct Answers<J: Naming>(Snapshot<Reader<J>>);

impl<J: Naming> Promise<Part<J>> for Answers<J> {
    ghost use mathlib.Core.List.{IsPrefix};
    ghost use Rattle.adr_fan.specs.Parts.{AreTrue};

    ghost kept_by = { λ p part. IsPrefix p.0.value.seen part.reader.seen × AreTrue J.tie part.reader.seen part.replies.items };
}

/// The reply to a query from a snapshot.
fn reply_from(alloc: Global, snapshot: &PublishedSnapshot, sent: Sent) -> Reply
    ensures shown { result.shown ≡ snapshot.now.number }
    ensures text { IfSome result.text (λ text. text.items ≡ answer_line (answer_of snapshot.now.tie snapshot.now.book.objects result.sent.query)) }
{
    let text = answer(alloc, snapshot, sent.query());
    Reply {
        sent,
        shown: snapshot.number(),
        text,
    }
}

/// The reply to a query, from the publication that is shown now, and never from one before the latest that the reader
/// replied from. None where there is none to be had.
fn reply_to<J: Naming>(
    alloc: Global,
    reader: &mut Reader<J>,
    sent: Sent,
    latest: u64,
) -> Option<Reply>
    ensures seen { IsPrefix reader.old.seen reader.new.seen }
    ensures reply { IfSome result (IsTrueReply J.tie reader.new.seen) }
    ensures order { latest < length reader.old.seen → IfSome result (λ reply. latest ≤ reply.shown) }
{
    match reader.look() {
        Ok(snapshot) => Some(reply_from(alloc, &snapshot, sent)),
        Err(refusal) => {
            if refusal != Refusal::NoMemory {
                return None;
            }
            Some(Reply {
                shown: latest.max(sent.number()),
                sent,
                text: None,
            })
        }
    }
}

impl<J: Naming> Part<J> {
    /// Replies to a query. Where it can't, the part isn't whole.
    fn reply(&mut self, alloc: Global, sent: Sent)
        requires { AreTrue J.tie self.old.reader.seen self.old.replies.items }
        ensures seen { IsPrefix self.old.reader.seen self.new.reader.seen }
        ensures replies { AreTrue J.tie self.new.reader.seen self.new.replies.items }
    {
        let latest = self.replies.last().map_or(0, |reply| reply.shown);
        let Some(reply) = reply_to(alloc, &mut self.reader, sent, latest) else {
            self.whole = false;
            return;
        };
        if self.replies.push(reply).is_err() {
            self.whole = false;
        }
    }
}

/// Replies to all queries that come, until the mailbox is closed.
fn reply_all<J: Naming, R: Wait, G: Gate>(
    rt: &R,
    alloc: Global,
    gate: &G,
    mailbox: &Mailbox,
    reader: Reader<J>,
    seat: usize,
) -> Part<J>
    ensures seen { IsPrefix reader.seen result.reader.seen }
    ensures replies { AreTrue J.tie result.reader.seen result.replies.items }
{
    let mut part = Part {
        reader,
        replies: Vec::new(alloc),
        whole: true,
    };
    'queries: for _ in rt.forever() {
        let Some(sent) = mailbox.receive(rt) else {
            break;
        };
        gate.pass(seat);
        part.reply(alloc, sent);
    }
    part
}

/// What a reader's thread shares with who starts it.
fn shares_of<R: Clone + Drop, G: Drop>(
    rt: &R,
    gate: &Arc<G>,
    mailbox: &Arc<Mailbox>,
) -> Option<(R, Arc<G>, Arc<Mailbox>)> {
    Some((
        rt.clone().ok()?,
        Arc::try_clone(gate).ok()?,
        Arc::try_clone(mailbox).ok()?,
    ))
}

/// Starts a reader's thread.
pub(crate) fn start<
    J: Naming + Send + 'static,
    R: AllocGlobal + Threads + Wait + Clone + Drop + Send + 'static,
    G: Gate + Send + Sync + Drop + 'static,
>(
    rt: &R,
    gate: &Arc<G>,
    mailbox: &Arc<Mailbox>,
    reader: Reader<J>,
    seat: usize,
) -> Option<PromisedHandle<Part<J>, Answers<J>>>
    ensures { IfSome result (λ child. child.promise.0.value.seen ≡ reader.seen) }
{
    let (there, gate, mailbox) = shares_of(rt, gate, mailbox)?;
    let alloc = rt.alloc();
    let promise = Answers(Snapshot::of(&reader));
    thread::spawn_with(rt, promise, move || {
        reply_all(&there, alloc, &*gate, &*mailbox, reader, seat)
    })
    .ok()
}
