//! What governs shows of a payload type.
ghost use Rattle.std.specs.Prelude.{◌≡◌, IfSome};
ghost use Rattle.std.specs.Option.{option_and_then, option_copied, option_map};
ghost use Rattle.adr_calendar.specs.Shown.{event_alone, shown_view};
ghost use Rattle.adr_model.specs.Answer.{first_payload as first_of_type, shown_in as shown_at, shown_of as shown_by};

use crate::lines::Signal;
use adr_book::Book;
use adr_model::Winner;
use adr_object::{Event, Payload};
use adr_value::PayloadType;

fn first_payload<'a>(payload_type: &PayloadType, payloads: &'a [Payload]) -> Option<&'a Payload>
    ensures { option_copied result ≡ first_of_type payload_type.now payloads.now }
{
    payloads
        .iter()
        .find(|payload| payload.kind.name() == payload_type.name())
}

/// What the interval at the place of an event shows of the type.
pub(crate) fn shown_in<'a>(
    payload_type: &PayloadType,
    place: u32,
    event: &'a Event,
) -> Option<Signal<'a>>
    ensures value { option_map shown_view result ≡ shown_at payload_type.now place (event_alone event.now) }
    ensures event { IfSome result (λ s. s.event.now ≡ event.now.id) }
{
    let interval = event.intervals.as_slice().get(place as usize)?;
    let payload = first_payload(payload_type, interval.payloads.as_slice())?;
    Some(Signal {
        event: &event.id,
        interval: interval.id,
        values: payload.values.as_slice(),
    })
}

/// What a winner shows of the type.
#[tactic(auto, using(crate::proofs::Numbered::event_of_winner))]
pub(crate) fn shown_of<'a>(
    book: &'a Book,
    payload_type: &PayloadType,
    winner: Winner,
) -> Option<Signal<'a>>
    ensures { option_map shown_view result ≡ shown_by book.now.objects payload_type.now winner }
{
    shown_in(payload_type, winner.place, book.event_by(winner.written)?)
}

/// What the winner shows of the payload type, where there is one.
pub fn shown_by_winner<'a>(
    book: &'a Book,
    payload_type: &PayloadType,
    winner: Option<Winner>,
) -> Option<Signal<'a>>
    ensures { option_map shown_view result ≡ option_and_then (shown_by book.now.objects payload_type.now) winner }
{
    shown_of(book, payload_type, winner?)
}
