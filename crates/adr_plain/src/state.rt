//! What governs at a moment, and until when.
ghost use Rattle.std.specs.Prelude.{IfOk};
ghost use Rattle.adr_refusal.specs.Answer.{OnlyNoMemory};
ghost use Rattle.adr_calendar.specs.Segments.{IsStateAt};

use crate::entries::ranked_entries;
use crate::governing::{until, winner_at};
use adr_book::Book;
use adr_calendar::State;
use adr_model::Tie;
use adr_object::Id;
use adr_time::Moment;
use adr_value::{PayloadType, Refusal};
use std::alloc::Global;

/// The state of the type for the resource at the moment, under the rule for ties.
pub(crate) fn state_of(
    alloc: Global,
    book: &Book,
    tie: Tie,
    id: &Id,
    payload_type: &PayloadType,
    moment: Moment,
) -> Result<State, Refusal>
    ensures ok { IfOk result (λ state. IsStateAt tie book.now.objects id.now payload_type.now moment state) }
    ensures memory { OnlyNoMemory result }
{
    let entries = ranked_entries(alloc, book, tie, id, payload_type)?;
    let entries = entries.as_slice();
    let until = until(alloc, entries, moment)?;
    let governor = winner_at(entries, moment);
    Ok(State { governor, until })
}
