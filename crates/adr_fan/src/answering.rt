//! The answers to queries from a snapshot.
ghost use Rattle.std.specs.Prelude.{◌≡◌, IfSome, Ok, Err};
ghost use Rattle.adr_refusal.specs.Answer.{Answers, result_map};
ghost use Rattle.adr_model.specs.Queries.{answer as answer_of};
ghost use Rattle.adr_resolver.specs.Text.{answer_line, refusal_line};
ghost use Rattle.adr_fan.specs.Queries.{query_in};

use crate::queries::Query;
use adr_board::Snapshot;
use adr_calendar::{at, list, roll, types};
use adr_resolver::put_refusal;
use adr_value::Refusal;
use std::alloc::Global;

/// The room that a refusal line takes at most.
const LINE_ROOM: usize = 64;

/// The line of a refusal. None where there is no memory for it.
fn refusal_text(alloc: Global, refusal: Refusal) -> Option<Vec<u8>>
    ensures { IfSome result (λ text. text.items ≡ refusal_line refusal) }
{
    let mut text = Vec::with_capacity(alloc, LINE_ROOM).ok()?;
    put_refusal(&mut text, refusal);
    Some(text)
}

/// What the query asks of the snapshot.
fn ask(alloc: Global, snapshot: &Snapshot, query: &Query) -> Result<Vec<u8>, Refusal>
    ensures { Answers (result_map (λ v. v.items) result) (answer_of snapshot.now.tie snapshot.now.book.objects (query_in query.now)) }
{
    match query {
        Query::At(id, payload_type, moment) => at(alloc, snapshot, id, payload_type, *moment),
        Query::List(id, payload_type, from, to) => {
            list(alloc, snapshot, id, payload_type, *from, *to)
        }
        Query::Roll(payload_type, moment) => roll(alloc, snapshot, payload_type, *moment),
        Query::Types(id) => types(alloc, snapshot, id),
    }
}

/// The answer to a query from a snapshot, which may be a refusal's line. None where there is no memory for it.
pub(crate) fn answer(alloc: Global, snapshot: &Snapshot, query: &Query) -> Option<Vec<u8>>
    ensures { IfSome result (λ text. text.items ≡ answer_line (answer_of snapshot.now.tie snapshot.now.book.objects (query_in query.now))) }
{
    match ask(alloc, snapshot, query) {
        Ok(text) => Some(text),
        Err(refusal) => {
            if refusal == Refusal::NoMemory {
                return None;
            }
            refusal_text(alloc, refusal)
        }
    }
}
