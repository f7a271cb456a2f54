//! Events with their intervals, and the targets and payloads that they carry.
ghost use Rattle.adr_refusal.specs.Copy.{IsCopyOf};

use crate::id::Id;
use adr_shared::Shared;
use adr_time::{Length, Moment};
use adr_value::limits::MOST_INTERVALS;
use adr_value::{BoundedVec, Datum, Name, PayloadType, Refusal, Text, TryClone};

/// Values under one type, which a resource or its ven has, or which an event or its program asks for (OpenADR 3.0
/// Definition, valuesMap).
pub struct Target {
    /// What the values are: names of objects, as under `RESOURCE_NAME`, or marks that a resource or its ven has too, as
    /// under `GROUP`.
    pub kind: Name,
    /// The values in the body's order; of all that a list has under one type, one that matches is enough.
    pub values: BoundedVec<Datum, 256>,
}

// A function of its own, so that callers that let a value go need not look into it.
impl Drop for Target {
    fn drop(self) {
        let Target { kind, values } = self;
        drop(kind);
        drop(values);
    }
}

/// What an interval says of one payload type (OpenADR 3.0 Definition, valuesMap).
pub struct Payload {
    /// The signal that the values belong to, under which the interval competes with others.
    pub kind: PayloadType,
    /// The values in the body's order, of the shape that the type asks for.
    pub values: BoundedVec<Datum, 256>,
}

// A function of its own, so that callers that let a value go need not look into it.
impl Drop for Payload {
    fn drop(self) {
        let Payload { kind, values } = self;
        drop(kind);
        drop(values);
    }
}

/// When an interval starts, and how long it lasts (OpenADR 3.0 Definition, intervalPeriod). With no `duration` of its
/// own it lasts as long as the event's period says, and covers nothing where that says nothing. `randomize` is kept for
/// clients; it moves nothing here.
#[derive(Clone, Copy)]
pub struct Period {
    /// When the interval starts; an event's period says it of its first interval.
    pub start: Moment,
    /// From the start on, as an ISO 8601 duration names it.
    pub duration: Option<Length>,
    /// The `randomizeStart` of the body: within which length clients choose by chance how much later they start.
    pub randomize: Option<Length>,
}

/// A part of an event with its payloads (OpenADR 3.0 Definition, interval). Two intervals of one event may have one
/// `id`.
///
/// Its period stands apart, since an event has many intervals and most have none.
pub struct Interval {
    /// What the body calls the interval by; in a body that says nothing its place in the event, from 0.
    pub id: i64,
    /// When it starts, and perhaps how long it lasts, where it says so itself.
    pub period: Option<Shared<Period>>,
    /// What it says while it governs, in the body's order; of one type it may have several.
    pub payloads: BoundedVec<Payload, 64>,
}

// A function of its own, so that callers that let a value go need not look into it.
impl Drop for Interval {
    fn drop(self) {
        let Interval {
            id: _,
            period,
            payloads,
        } = self;
        drop(period);
        drop(payloads);
    }
}

/// Intervals for the resources that the targets match (OpenADR 3.0 Definition, event). A lower `priority` goes first;
/// none goes last. An interval without a period of its own starts where the one before it ends, the first where the
/// event's period does, and lasts as long as the event's period says.
pub struct Event {
    /// What edits and answers know the event by.
    pub id: Id,
    /// Which program the event belongs to, whose targets bind it too.
    pub program_id: Id,
    /// What targets of the type `EVENT_NAME` ask for.
    pub event_name: Option<Text>,
    /// Which event goes before another, 0 before all.
    pub priority: Option<u32>,
    /// Which resources the event is for; an empty list is for all that its program is for.
    pub targets: BoundedVec<Target, 64>,
    /// Where the first interval starts and how long each lasts, where an interval doesn't say so itself.
    pub interval_period: Option<Period>,
    /// The parts of the event in the body's order, which need not be that of time; places in it count from 0.
    pub intervals: BoundedVec<Interval, MOST_INTERVALS>,
}

// A function of its own, so that callers that let a value go need not look into it.
impl Drop for Event {
    fn drop(self) {
        let Event {
            id,
            program_id,
            event_name,
            priority: _,
            targets,
            interval_period: _,
            intervals,
        } = self;
        drop(id);
        drop(program_id);
        drop(event_name);
        drop(targets);
        drop(intervals);
    }
}

impl Target {
    /// A target equal to this one. Cost: a copy of its values.
    ///
    /// # Errors
    ///
    /// `NoMemory` where there is no room for it.
    pub fn copy(&self) -> Result<Target, Refusal>
        ensures { IsCopyOf result self.now }
    {
        Ok(Target {
            kind: self.kind.copy()?,
            values: self.values.copy()?,
        })
    }
}

impl TryClone for Target {
    fn try_clone(&self) -> Result<Target, Refusal> {
        self.copy()
    }
}

impl Payload {
    /// A payload equal to this one. Cost: a copy of its values.
    ///
    /// # Errors
    ///
    /// `NoMemory` where there is no room for it.
    pub fn copy(&self) -> Result<Payload, Refusal>
        ensures { IsCopyOf result self.now }
    {
        Ok(Payload {
            kind: self.kind.copy()?,
            values: self.values.copy()?,
        })
    }
}

impl TryClone for Payload {
    fn try_clone(&self) -> Result<Payload, Refusal> {
        self.copy()
    }
}

impl Interval {
    /// An interval equal to this one. Cost: a copy of its payloads; the period is shared.
    ///
    /// # Errors
    ///
    /// `NoMemory` where there is no room for it.
    pub fn copy(&self) -> Result<Interval, Refusal>
        ensures { IsCopyOf result self.now }
    {
        Ok(Interval {
            id: self.id,
            period: self.period.try_clone()?,
            payloads: self.payloads.copy()?,
        })
    }
}

impl TryClone for Interval {
    fn try_clone(&self) -> Result<Interval, Refusal> {
        self.copy()
    }
}

impl Event {
    /// An event equal to this one. Cost: a copy of all it has, but for the periods of its intervals, which are shared.
    ///
    /// # Errors
    ///
    /// `NoMemory` where there is no room for it.
    pub fn copy(&self) -> Result<Event, Refusal>
        ensures { IsCopyOf result self.now }
    {
        Ok(Event {
            id: self.id.copy()?,
            program_id: self.program_id.copy()?,
            event_name: self.event_name.try_clone()?,
            priority: self.priority,
            targets: self.targets.copy()?,
            interval_period: self.interval_period,
            intervals: self.intervals.copy()?,
        })
    }
}

impl TryClone for Event {
    fn try_clone(&self) -> Result<Event, Refusal> {
        self.copy()
    }
}
