//! The touches of one event that applies.
ghost use Rattle.std.specs.Prelude.{◌≡◌, ◌++◌, [], OnOk, IfOk, map};
ghost use Rattle.std.specs.List.{list_any};
ghost use Rattle.std.specs.Result.{result_unwrap_or};
ghost use Rattle.adr_refusal.specs.Answer.{OnlyNoMemory};
ghost use Rattle.adr_value.specs.Same.{same_type};
ghost use Rattle.adr_model.specs.Layout.{layout};
ghost use Rattle.adr_model.specs.Touches.{types_of, touches_of};
ghost use Rattle.adr_touches.specs.Applied.{written_event};
ghost use Rattle.adr_touches.specs.Windows.{touches_in, touches_at, touches_along};

use crate::matching::Applied;
use adr_layout::{Placed, lay_out};
use adr_model::Touch;
use adr_object::{Event, Id, Interval, Payload};
use adr_time::Span;
use adr_value::{PayloadType, Refusal};
use std::alloc::Global;

fn has_type(types: &[PayloadType], payload_type: &PayloadType) -> bool
    ensures { result ≡ list_any (λ t. same_type t payload_type.now) types.now }
{
    types
        .iter()
        .any(|other| other.name() == payload_type.name())
}

/// The payload types, each where it stands first.
fn payload_types(alloc: Global, payloads: &[Payload]) -> Result<Vec<PayloadType>, Refusal>
    ensures ok { IfOk result (λ types. types.items ≡ types_of payloads.now) }
    ensures memory { OnlyNoMemory result }
{
    let mut types = Vec::new(alloc);
    for payload in payloads {
        if !has_type(types.as_slice(), &payload.kind) {
            types.push(payload.kind.copy()?)?;
        }
    }
    Ok(types)
}

/// Where the intervals of an event lie; nowhere where its layout has a fault.
#[tactic(auto, using(crate::proofs::Laid::laid_spans, crate::proofs::Laid::no_span))]
fn places(alloc: Global, event: &Event) -> Result<Vec<Placed>, Refusal>
    ensures ok { IfOk result (λ places. map (λ p. p.span) places.items ≡ result_unwrap_or (layout event.now) []) }
    ensures memory { OnlyNoMemory result }
{
    match lay_out(alloc, event) {
        Ok(places) => Ok(places),
        Err(refusal) => {
            if refusal == Refusal::NoMemory {
                return Err(refusal);
            }
            Ok(Vec::new(alloc))
        }
    }
}

/// Adds a touch of the window for each type.
fn add_types(
    touches: &mut Vec<Touch>,
    resource: &Id,
    window: Span,
    types: &[PayloadType],
) -> Result<(), Refusal>
    ensures ok { OnOk result (touches.new.items ≡ touches.old.items ++ touches_in resource.now window types.now) }
    ensures memory { OnlyNoMemory result }
{
    for payload_type in types {
        touches.push(Touch {
            resource: resource.copy()?,
            kind: payload_type.copy()?,
            window,
        })?;
    }
    Ok(())
}

/// Adds a touch for each type of the interval that lies there, if that covers some instant.
fn add_interval(
    touches: &mut Vec<Touch>,
    alloc: Global,
    resource: &Id,
    interval: &Interval,
    span: Span,
) -> Result<(), Refusal>
    ensures ok { OnOk result (touches.new.items ≡ touches.old.items ++ touches_at resource.now (interval.now, span)) }
    ensures memory { OnlyNoMemory result }
{
    if !span.lasts() {
        return Ok(());
    }
    let types = payload_types(alloc, interval.payloads.as_slice())?;
    add_types(touches, resource, span, types.as_slice())
}

// Two lists are walked in step.
fn add_intervals(
    touches: &mut Vec<Touch>,
    alloc: Global,
    resource: &Id,
    intervals: &[Interval],
    places: &[Placed],
) -> Result<(), Refusal>
    ensures ok { OnOk result (touches.new.items ≡ touches.old.items ++ touches_along resource.now intervals.now (map (λ p. p.span) places.now)) }
    ensures memory { OnlyNoMemory result }
{
    let mut intervals = intervals;
    let mut places = places;
    'rest: while let Some((place, others)) = places.split_first() {
        let Some((interval, more)) = intervals.split_first() else {
            return Ok(());
        };
        add_interval(touches, alloc, resource, interval, place.span)?;
        intervals = more;
        places = others;
    }
    Ok(())
}

/// Adds a touch for each interval of the event that lasts and each of its types.
pub(crate) fn add_event(
    touches: &mut Vec<Touch>,
    alloc: Global,
    resource: &Id,
    applied: Applied<'_>,
) -> Result<(), Refusal>
    ensures ok { OnOk result (touches.new.items ≡ touches.old.items ++ touches_of resource.now (written_event applied.entry)) }
    ensures memory { OnlyNoMemory result }
{
    let places = places(alloc, applied.event)?;
    let intervals = applied.event.intervals.as_slice();
    add_intervals(touches, alloc, resource, intervals, places.as_slice())
}
