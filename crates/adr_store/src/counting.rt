//! How many entries an event has.
ghost use Rattle.std.specs.Prelude.{◌≡◌, ◌+◌, ◌*◌, ◌≤◌, length};
ghost use Rattle.std.specs.List.{list_any};
ghost use Rattle.adr_value.specs.Same.{same_type as is_same_type};
ghost use Rattle.adr_model.specs.Edits.{distinct_types, entry_count as number_of_entries};

use adr_object::{Event, Payload};
use adr_value::PayloadType;
use adr_value::limits::MOST_INTERVALS;

fn same_type(a: &PayloadType, b: &PayloadType) -> bool
    ensures { result ≡ is_same_type a.now b.now }
{
    a.name() == b.name()
}

fn has_type(payloads: &[Payload], payload_type: &PayloadType) -> bool
    ensures { result ≡ list_any (λ q. is_same_type q.kind payload_type.now) payloads.now }
{
    payloads
        .iter()
        .any(|payload| same_type(&payload.kind, payload_type))
}

/// How many payload types a list has, each counted once.
fn count_types(payloads: &[Payload]) -> usize
    ensures value { result ≡ distinct_types payloads.now }
    ensures bound { result ≤ length payloads.now }
{
    let mut count = 0;
    let mut rest = payloads;
    'rest: while let Some((first, more)) = rest.split_first() {
        if !has_type(more, &first.kind) {
            count += 1;
        }
        rest = more;
    }
    count
}

/// The entries of an event: its intervals, each with each of its payload types. At most 64 for each interval.
pub fn entry_count(event: &Event) -> usize
    ensures value { result ≡ number_of_entries event.now }
    ensures bound { result ≤ 64 * MOST_INTERVALS }
{
    let mut count = 0;
    let intervals = event.intervals.as_slice();
    for interval in intervals {
        count += count_types(interval.payloads.as_slice());
    }
    count
}
