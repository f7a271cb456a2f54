//! What governs, as C reads it.
ghost use Rattle.std.specs.Prelude.{None};
ghost use Rattle.adr_c.specs.Calls.{IsEnd, IsSource};

use adr_embed::{Governor, GovernorSource, seconds_of};
use adr_time::End;

/// What governs a resource for a payload type at a moment, and until when it stays so.
#[repr(C)]
#[derive(Clone, Copy)]
pub struct GovernorState {
    /// 0 where nothing governs, and then `interval`, `event_len` and `values_len` are 0; else 1.
    pub is_governed: u8,
    /// 1 where nothing changes later, and then both parts of `until` are 0; else 0.
    pub is_endless: u8,
    /// The nanoseconds after `until_seconds` of the next moment at which something else governs.
    pub until_nanoseconds: u32,
    /// The whole seconds of that moment since 1970-01-01T00:00:00Z, rounded down.
    pub until_seconds: i64,
    /// The interval's own id.
    pub interval: i64,
    /// How many bytes of the answer are the event's id.
    pub event_len: usize,
    /// How many bytes behind it are the values, a JSON array.
    pub values_len: usize,
}

fn until(end: End) -> GovernorState
    ensures end { IsEnd end result }
    ensures source { IsSource None result }
{
    let nothing = GovernorState {
        is_governed: 0,
        is_endless: 1,
        until_nanoseconds: 0,
        until_seconds: 0,
        interval: 0,
        event_len: 0,
        values_len: 0,
    };
    match end {
        End::At(moment) => {
            let (until_seconds, until_nanoseconds) = seconds_of(moment);
            GovernorState {
                is_endless: 0,
                until_nanoseconds,
                until_seconds,
                ..nothing
            }
        }
        End::Endless => nothing,
    }
}

/// What is told of what governs, in numbers.
pub(crate) fn state_of(governor: Governor) -> GovernorState
    ensures source { IsSource governor.source result }
    ensures end { IsEnd governor.until result }
{
    let state = until(governor.until);
    match governor.source {
        Some(
            GovernorSource {
                interval,
                event_len,
                values_len,
            },
        ) => GovernorState {
            is_governed: 1,
            interval,
            event_len,
            values_len,
            ..state
        },
        None => state,
    }
}
