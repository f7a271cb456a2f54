//! Stores, journals and books.
use crate::same::{Same, same_option};
use adr_book::{Book, Journal, SharedList, Store};
use adr_object::{Edit, Id, Kind};

/// Whether the look-ups of both by the id tell the same, whatever kinds of object have it.
pub fn same_by_id(a: &Store, b: &Store, id: &Id) -> bool {
    same_option(a.program(id), b.program(id))
        && same_option(a.ven(id), b.ven(id))
        && same_option(a.resource(id), b.resource(id))
        && same_option(a.event(id), b.event(id))
        && a.resource_place(id.lent()) == b.resource_place(id.lent())
        && a.event_place(id) == b.event_place(id)
        && a.written(id) == b.written(id)
        && a.is_program_named(id) == b.is_program_named(id)
        && a.is_ven_named(id) == b.is_ven_named(id)
        && a.entries_beside(id) == b.entries_beside(id)
}

fn same_programs(a: &Store, b: &Store) -> bool {
    for place in 0..a.count(Kind::Program) {
        let Some(program) = a.program_at(place) else {
            return false;
        };
        if !same_option(Some(program), b.program_at(place)) || !same_by_id(a, b, &program.id) {
            return false;
        }
    }
    a.count(Kind::Program) == b.count(Kind::Program)
}

fn same_vens(a: &Store, b: &Store) -> bool {
    for place in 0..a.count(Kind::Ven) {
        let Some(ven) = a.ven_at(place) else {
            return false;
        };
        if !same_option(Some(ven), b.ven_at(place)) || !same_by_id(a, b, &ven.id) {
            return false;
        }
    }
    a.count(Kind::Ven) == b.count(Kind::Ven)
}

fn same_resources(a: &Store, b: &Store) -> bool {
    for place in 0..a.count(Kind::Resource) {
        let Some(resource) = a.resource_at(place) else {
            return false;
        };
        if !same_option(Some(resource), b.resource_at(place)) || !same_by_id(a, b, &resource.id) {
            return false;
        }
    }
    a.count(Kind::Resource) == b.count(Kind::Resource)
}

/// Whether both find the same event by the number, if there is one.
fn same_by_number(a: &Store, b: &Store, number: Option<u64>) -> bool {
    match number {
        Some(number) => same_option(a.event_by(number), b.event_by(number)),
        None => false,
    }
}

fn same_events(a: &Store, b: &Store) -> bool {
    for place in 0..a.count(Kind::Event) {
        let Some(event) = a.event_at(place) else {
            return false;
        };
        let written = a.written_at(place);
        if !same_option(Some(event), b.event_at(place))
            || written != b.written_at(place)
            || !same_by_id(a, b, &event.id)
            || !same_by_number(a, b, written)
        {
            return false;
        }
    }
    a.count(Kind::Event) == b.count(Kind::Event)
}

/// Whether all look-ups of both tell the same, by place, by the ids of their objects and by number.
pub fn same_store(a: &Store, b: &Store) -> bool {
    a.version() == b.version()
        && same_programs(a, b)
        && same_vens(a, b)
        && same_resources(a, b)
        && same_events(a, b)
}

fn same_edits(a: &SharedList<Edit>, b: &SharedList<Edit>) -> bool {
    for place in 0..a.len() {
        if !same_option(a.at(place), b.at(place)) {
            return false;
        }
    }
    a.len() == b.len()
}

/// Whether both have the same closed batches and the same open one.
pub fn same_journal(a: &Journal, b: &Journal) -> bool {
    for place in 0..a.closed().len() {
        match (a.closed().at(place), b.closed().at(place)) {
            (Some(a), Some(b)) if same_edits(a.edits(), b.edits()) => {}
            _ => return false,
        }
    }
    a.closed().len() == b.closed().len() && same_edits(a.pending(), b.pending())
}

/// Whether both have the same objects, base and journal.
pub fn same_book(a: &Book, b: &Book) -> bool {
    a.version() == b.version()
        && same_store(a.objects(), b.objects())
        && a.base().version() == b.base().version()
        && same_store(a.base().objects(), b.base().objects())
        && same_journal(a.journal(), b.journal())
}
