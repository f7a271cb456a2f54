//! Desks and publications by what they show.
use adr_board::Snapshot;
use adr_book::Book;
use adr_desk::Desk;
use adr_object::{Id, Interval, Kind, Payload, Resource};
use adr_test_values::same::{same_book, same_store, same_timeline};
use adr_timeline::Timeline;
use adr_value::PayloadType;

/// How many payload types have a code of their own.
const CODES: u8 = 34;

/// What has a book and timelines.
pub(crate) trait Shows {
    fn book_of(&self) -> &Book;

    fn timeline_of(&self, id: &Id, payload_type: &PayloadType) -> Option<&Timeline>;
}

impl Shows for Desk {
    fn book_of(&self) -> &Book {
        self.book()
    }

    fn timeline_of(&self, id: &Id, payload_type: &PayloadType) -> Option<&Timeline> {
        self.timeline(id, payload_type)
    }
}

impl Shows for Snapshot {
    fn book_of(&self) -> &Book {
        self.book()
    }

    fn timeline_of(&self, id: &Id, payload_type: &PayloadType) -> Option<&Timeline> {
        self.timeline(id, payload_type)
    }
}

fn same_of_type<A: Shows, B: Shows>(a: &A, b: &B, id: &Id, payload_type: &PayloadType) -> bool {
    same_timeline(
        a.timeline_of(id, payload_type),
        b.timeline_of(id, payload_type),
    )
}

fn same_of_code<A: Shows, B: Shows>(a: &A, b: &B, id: &Id, code: u8) -> bool {
    let Some(payload_type) = PayloadType::of_code(code) else {
        return true;
    };
    let is_same = same_of_type(a, b, id, &payload_type);
    drop(payload_type);
    is_same
}

fn same_of_codes<A: Shows, B: Shows>(a: &A, b: &B, id: &Id) -> bool {
    for code in 0..CODES {
        if !same_of_code(a, b, id, code) {
            return false;
        }
    }
    true
}

fn same_of_payloads<A: Shows, B: Shows>(a: &A, b: &B, id: &Id, payloads: &[Payload]) -> bool {
    for payload in payloads {
        if !same_of_type(a, b, id, &payload.kind) {
            return false;
        }
    }
    true
}

fn same_of_intervals<A: Shows, B: Shows>(a: &A, b: &B, id: &Id, intervals: &[Interval]) -> bool {
    for interval in intervals {
        if !same_of_payloads(a, b, id, interval.payloads.as_slice()) {
            return false;
        }
    }
    true
}

/// Whether they show the same for each payload type of the first one's events, private ones among them.
fn same_of_events<A: Shows, B: Shows>(a: &A, b: &B, id: &Id) -> bool {
    for place in 0..a.book_of().count(Kind::Event) {
        let Some(event) = a.book_of().event_at(place) else {
            return false;
        };
        if !same_of_intervals(a, b, id, event.intervals.as_slice()) {
            return false;
        }
    }
    true
}

/// Whether the timelines of the resource show the same for each payload type that has a code or that an event has.
pub(crate) fn same_of_id<A: Shows, B: Shows>(a: &A, b: &B, id: &Id) -> bool {
    same_of_codes(a, b, id) && same_of_events(a, b, id)
}

fn same_of_resource<A: Shows, B: Shows>(a: &A, b: &B, resource: Option<&Resource>) -> bool {
    match resource {
        Some(resource) => same_of_id(a, b, &resource.id),
        None => false,
    }
}

/// Whether both show the same for each of their resources.
fn same_timelines<A: Shows, B: Shows>(a: &A, b: &B) -> bool {
    for place in 0..a.book_of().count(Kind::Resource) {
        if !same_of_resource(a, b, a.book_of().resource_at(place)) {
            return false;
        }
    }
    true
}

/// Whether both have the same objects and the same timelines.
pub(crate) fn show_same<A: Shows, B: Shows>(a: &A, b: &B) -> bool {
    same_store(a.book_of().objects(), b.book_of().objects()) && same_timelines(a, b)
}

/// Whether both have the same book and the same timelines.
pub(crate) fn are_same<A: Shows, B: Shows>(a: &A, b: &B) -> bool {
    same_book(a.book_of(), b.book_of()) && same_timelines(a, b)
}
