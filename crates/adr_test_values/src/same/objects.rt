//! Objects and edits.
use adr_object::{
    Edit, Event, Id, Interval, Object, Payload, Period, Program, Resource, Target, Ven,
};
use adr_time::{Length, Moment, end_of};
use adr_value::{Datum, Text};

/// What can be told from another of its kind.
pub trait Same {
    /// Whether the two are equal.
    fn same(&self, other: &Self) -> bool;
}

/// Whether both are there and the same, or neither is there.
pub fn same_option<T: Same>(a: Option<&T>, b: Option<&T>) -> bool {
    match (a, b) {
        (Some(a), Some(b)) => a.same(b),
        (None, None) => true,
        _ => false,
    }
}

/// Whether the lists are as long as one another, and each value is the same as the other's at its place.
fn same_lists<T: Same>(a: &[T], b: &[T]) -> bool {
    for (a, b) in a.iter().zip(b) {
        if !a.same(b) {
            return false;
        }
    }
    a.len() == b.len()
}

impl Same for Text {
    fn same(&self, other: &Text) -> bool {
        self.as_str() == other.as_str()
    }
}

impl Same for Datum {
    fn same(&self, other: &Datum) -> bool {
        Datum::same(self, other)
    }
}

impl Same for Target {
    fn same(&self, other: &Target) -> bool {
        self.kind.as_str() == other.kind.as_str()
            && same_lists(self.values.as_slice(), other.values.as_slice())
    }
}

impl Same for Payload {
    fn same(&self, other: &Payload) -> bool {
        self.kind.name() == other.kind.name()
            && same_lists(self.values.as_slice(), other.values.as_slice())
    }
}

/// Whether what starts then ends at one moment by both.
fn same_lengths(start: Moment, a: Option<Length>, b: Option<Length>) -> bool {
    match (a, b) {
        (Some(a), Some(b)) => end_of(start, &a).ok() == end_of(start, &b).ok(),
        (None, None) => true,
        _ => false,
    }
}

impl Same for Period {
    fn same(&self, other: &Period) -> bool {
        self.start == other.start
            && same_lengths(self.start, self.duration, other.duration)
            && same_lengths(self.start, self.randomize, other.randomize)
    }
}

fn own_period(interval: &Interval) -> Option<&Period> {
    interval.period.as_ref().map(|period| period.get())
}

impl Same for Interval {
    fn same(&self, other: &Interval) -> bool {
        self.id == other.id
            && same_option(own_period(self), own_period(other))
            && same_lists(self.payloads.as_slice(), other.payloads.as_slice())
    }
}

impl Same for Event {
    fn same(&self, other: &Event) -> bool {
        self.id.same(&other.id)
            && self.program_id.same(&other.program_id)
            && same_option(self.event_name.as_ref(), other.event_name.as_ref())
            && self.priority == other.priority
            && same_lists(self.targets.as_slice(), other.targets.as_slice())
            && same_option(
                self.interval_period.as_ref(),
                other.interval_period.as_ref(),
            )
            && same_lists(self.intervals.as_slice(), other.intervals.as_slice())
    }
}

impl Same for Program {
    fn same(&self, other: &Program) -> bool {
        self.id.same(&other.id)
            && self.program_name.as_str() == other.program_name.as_str()
            && same_lists(self.targets.as_slice(), other.targets.as_slice())
    }
}

impl Same for Ven {
    fn same(&self, other: &Ven) -> bool {
        self.id.same(&other.id)
            && self.ven_name.as_str() == other.ven_name.as_str()
            && same_lists(self.targets.as_slice(), other.targets.as_slice())
    }
}

impl Same for Resource {
    fn same(&self, other: &Resource) -> bool {
        self.id.same(&other.id)
            && self.resource_name.as_str() == other.resource_name.as_str()
            && self.ven_id.same(&other.ven_id)
            && same_lists(self.targets.as_slice(), other.targets.as_slice())
    }
}

impl Same for Object {
    fn same(&self, other: &Object) -> bool {
        match (self, other) {
            (Object::Program(a), Object::Program(b)) => a.get().same(b.get()),
            (Object::Event(a), Object::Event(b)) => a.get().same(b.get()),
            (Object::Ven(a), Object::Ven(b)) => a.get().same(b.get()),
            (Object::Resource(a), Object::Resource(b)) => a.get().same(b.get()),
            _ => false,
        }
    }
}

impl Same for Edit {
    fn same(&self, other: &Edit) -> bool {
        match (self, other) {
            (Edit::Create(a), Edit::Create(b)) | (Edit::Change(a), Edit::Change(b)) => a.same(b),
            (Edit::Remove(a, id), Edit::Remove(b, other)) => *a == *b && id.same(other),
            _ => false,
        }
    }
}

/// The id of what the edit creates, changes or removes.
pub fn edited_id(edit: &Edit) -> &Id {
    match edit {
        Edit::Create(object) | Edit::Change(object) => object.id(),
        Edit::Remove(_, id) => id,
    }
}
