//! The objects that bodies spell.
//!
//! A body is one JSON object (RFC 8259). An unknown member is ignored, a null one is absent, and of two members of one
//! name the last counts. Numbers go by their exact value. Every part is looked at, so what is refused is refused with
//! the least of the body's faults; `NoMemory` may come in place of any answer. A body is read once, token by token, in
//! memory of its length beside the object's; where something is wrong, or the bytes `\u0000` stand in it, once more as
//! a shielded text, in memory of that too.
ghost use Rattle.adr_refusal.specs.Answer.{Answers};
ghost use Rattle.adr_read.specs.Body.{program_named, ven_named, resource_named, event_named};
ghost use Rattle.adr_read.specs.Larger.{LargerLimitsReadTheSame};

use crate::body::read_object;
use crate::event::{event, event_members};
use crate::members::Member;
use crate::name::MemberName;
use crate::object::{common_members, program, resource, ven};
use adr_object::{Event, Id, Program, Resource, Ven};
use adr_time::Moment;
use adr_value::Refusal;
use json::Scratch;
use std::alloc::Global;

/// The program (OpenADR 3.0 Definition, program) of a body, one JSON object (RFC 8259), on a line that names this id. A
/// null member is absent, of two members of one name the last counts, and an unknown one is ignored. The moment is that
/// of the edit; only an event has something that turns on it.
///
/// Cost: a pass over the body, in memory of its length beside the object's; a body with a fault, or with the bytes
/// `\u0000`, is gone through again.
///
/// # Errors
///
/// The least of the body's faults: `BadNumber`, `BadJson` or `NotObject`, which stand alone, else `WrongKind`,
/// `IdMismatch`, `Missing`, `WrongType`, `BadText`, `TooMany`. `NoMemory` may come in place of any answer.
pub fn read_program(alloc: Global, body: &[u8], id: &Id, now: Moment) -> Result<Program, Refusal>
    ensures { Answers result (program_named body.now id.now) }
{
    program_by(alloc, &mut Scratch::new(alloc), body, id, now)
}

/// The event (OpenADR 3.0 Definition, event) of a body on a line that names this id, in an edit at this moment, which a
/// zero start stands for, read as [`read_program`] reads one.
///
/// # Errors
///
/// The least of the body's faults: any that [`read_program`] tells of, or `BadDateTime`, `BadDuration`,
/// `NegativeDuration`, `BadPriority`, `BadShape`. `NoMemory` may come in place of any answer.
pub fn read_event(alloc: Global, body: &[u8], id: &Id, now: Moment) -> Result<Event, Refusal>
    ensures { Answers result (event_named now body.now id.now) }
{
    event_by(alloc, &mut Scratch::new(alloc), body, id, now)
}

/// The ven (OpenADR 3.0 Definition, ven) of a body on a line that names this id, read as [`read_program`] reads one.
///
/// # Errors
///
/// Those of [`read_program`].
pub fn read_ven(alloc: Global, body: &[u8], id: &Id, now: Moment) -> Result<Ven, Refusal>
    ensures { Answers result (ven_named body.now id.now) }
{
    ven_by(alloc, &mut Scratch::new(alloc), body, id, now)
}

/// The resource (OpenADR 3.0 Definition, resource) of a body on a line that names this id, read as [`read_program`]
/// reads one.
///
/// # Errors
///
/// Those of [`read_program`].
pub fn read_resource(alloc: Global, body: &[u8], id: &Id, now: Moment) -> Result<Resource, Refusal>
    ensures { Answers result (resource_named body.now id.now) }
{
    resource_by(alloc, &mut Scratch::new(alloc), body, id, now)
}

/// As `read_program`, in this memory.
pub(crate) fn program_by(
    alloc: Global,
    scratch: &mut Scratch,
    body: &[u8],
    id: &Id,
    now: Moment,
) -> Result<Program, Refusal>
    ensures { Answers result (program_named body.now id.now) }
{
    let members = (common_members(), Member::named(MemberName::ProgramName));
    program(alloc, id, read_object(alloc, scratch, now, body, members)?)
}

/// As `read_event`, in this memory.
pub(crate) fn event_by(
    alloc: Global,
    scratch: &mut Scratch,
    body: &[u8],
    id: &Id,
    now: Moment,
) -> Result<Event, Refusal>
    ensures { Answers result (event_named now body.now id.now) }
{
    event(
        alloc,
        id,
        read_object(alloc, scratch, now, body, event_members())?,
    )
}

/// As `read_ven`, in this memory.
pub(crate) fn ven_by(
    alloc: Global,
    scratch: &mut Scratch,
    body: &[u8],
    id: &Id,
    now: Moment,
) -> Result<Ven, Refusal>
    ensures { Answers result (ven_named body.now id.now) }
{
    let members = (common_members(), Member::named(MemberName::VenName));
    ven(alloc, id, read_object(alloc, scratch, now, body, members)?)
}

/// As `read_resource`, in this memory.
pub(crate) fn resource_by(
    alloc: Global,
    scratch: &mut Scratch,
    body: &[u8],
    id: &Id,
    now: Moment,
) -> Result<Resource, Refusal>
    ensures { Answers result (resource_named body.now id.now) }
{
    let name = Member::named(MemberName::ResourceName);
    let members = (common_members(), (name, Member::named(MemberName::VenId)));
    resource(alloc, id, read_object(alloc, scratch, now, body, members)?)
}

/// What a larger limit of intervals changes: nothing of a body that is not refused for a list above the lesser one.
#[tactic(auto, using(crate::proofs::Larger::larger_limits_read_the_same))]
pub fn limit_laws()
    ensures { LargerLimitsReadTheSame }
{}
