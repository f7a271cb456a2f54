#![tactic(auto)]
//! Where the intervals of an event lie in time.

ghost use Rattle.std.specs.Prelude.{◌≡◌};
ghost use Rattle.adr_refusal.specs.Answer.{Answers, result_map};
ghost use Rattle.adr_model.specs.Layout.{layout, placed_from, first_start, start_after, duration_of, interval_span, span_from};

pub use adr_model::Placed;
use adr_object::{Event, Interval, Period};
use adr_refusal::Refusal;
use adr_time::{End, Length, Moment, Span, end_of};
use std::alloc::Global;

/// Where the intervals of an event lie, with their places in its array (OpenADR 3.0 Definition, interval and
/// intervalPeriod). One with its own period starts there; one without starts where the one before it ends, the
/// first at the event's own start. It lasts its own duration, else the event's default one, else no time.
///
/// One pass, with one growth.
///
/// # Errors
///
/// The earliest interval that has a fault decides the refusal: `NoStart` where the first has no start anywhere,
/// `AfterEndless` where one without its own period follows an endless one, `TimeRange` where an end is out of
/// range. `NoMemory` where there is no room for the list.
pub fn lay_out(alloc: Global, event: &Event) -> Result<Vec<Placed>, Refusal>
    ensures { Answers (result_map (λ placed. placed.items) result) (result_map (placed_from 0) (layout event.now)) }
{
    let default = &event.interval_period;
    let mut placed = Vec::with_capacity(alloc, event.intervals.len())?;
    let mut next = first_start(default);
    let intervals = event.intervals.as_slice();
    for (place, interval) in intervals.iter().enumerate() {
        let span = interval_span(default, next, interval)?;
        next = start_after(&span);
        placed.push(Placed {
            span,
            place: place as u32,
        })?;
    }
    Ok(placed)
}

/// Where the first interval starts, if it has no period of its own.
fn first_start(default: &Option<Period>) -> Result<Moment, Refusal>
    ensures { result ≡ first_start default.now }
{
    match default {
        Some(period) => Ok(period.start),
        None => Err(Refusal::NoStart),
    }
}

/// Where an interval starts after one with that span, if it has no period of its own.
fn start_after(span: &Span) -> Result<Moment, Refusal>
    ensures { result ≡ start_after span.now.end }
{
    match span.end {
        End::At(moment) => Ok(moment),
        End::Endless => Err(Refusal::AfterEndless),
    }
}

/// How long an interval lasts that does not say so.
fn default_length(default: &Option<Period>) -> Option<Length>
    ensures { result ≡ duration_of default.now }
{
    match default {
        Some(period) => period.duration,
        None => None,
    }
}

/// The span of that length from the start on.
fn span_from(length: Option<Length>, start: Moment) -> Result<Span, Refusal>
    ensures { result ≡ span_from length start }
{
    let end = match length {
        Some(length) => end_of(start, &length)?,
        None => End::At(start),
    };
    Ok(Span { start, end })
}

/// The span of the interval.
fn interval_span(
    default: &Option<Period>,
    next: Result<Moment, Refusal>,
    interval: &Interval,
) -> Result<Span, Refusal>
    ensures { result ≡ interval_span default.now next interval.now.period }
{
    match &interval.period {
        Some(own) => {
            let own = own.get();
            span_from(own.duration.or(default_length(default)), own.start)
        }
        None => span_from(default_length(default), next?),
    }
}
