//! What the calls do to what an open handle holds.
ghost use Rattle.std.specs.Prelude.{◌≡◌, option_map, Some};
ghost use Rattle.adr_refusal.specs.Refusal.{number_of};
ghost use Rattle.adr_embed.specs.Governor.{governor_told};
ghost use Rattle.adr_embed.specs.Steps.{changed, created, removed};
ghost use Rattle.adr_c.specs.Calls.{code_of, kind_numbered, number_or, tie_numbered, told_or, version_or, AskCall, CondenseCall, EditCall, GovernorCall, IsGiven, LineCall, PublishCall};

use crate::state::{GovernorState, state_of};
use adr_embed::{Editing, Reading};
use adr_model::Published;
use adr_object::Kind;
use adr_resolver::Tie;
use adr_value::Refusal;
use std::alloc::Global;

/// No such kind.
const BAD_KIND: u32 = 103;

/// The number that a call answers for a refusal.
pub(crate) fn code(refusal: Refusal) -> u32
    ensures { result ≡ number_of refusal }
{
    u32::from(refusal.number())
}

/// Writes the reply to where the caller wants it, if there is room, and how long it is.
pub(crate) fn give(reply: &[u8], out: &mut [u8], len: &mut usize)
    ensures { IsGiven reply.now out.old out.new len.new }
{
    *len = reply.len();
    if reply.len() <= out.len() {
        out[..reply.len()].copy_from_slice(reply);
    }
}

pub(crate) fn tie_numbered(tie: u32) -> Option<Tie>
    ensures { result ≡ tie_numbered tie }
{
    match tie {
        0 => Some(Tie::Newest),
        1 => Some(Tie::LatestStart),
        _ => None,
    }
}

fn kind_numbered(kind: u32) -> Option<Kind>
    ensures { result ≡ kind_numbered kind }
{
    match kind {
        0 => Some(Kind::Program),
        1 => Some(Kind::Event),
        2 => Some(Kind::Ven),
        3 => Some(Kind::Resource),
        _ => None,
    }
}

/// The code of an answer, whose number goes to where the caller wants it.
fn tell(answer: Result<u64, Refusal>, number: &mut u64) -> u32
    ensures code { result ≡ code_of answer }
    ensures number { number.new ≡ told_or answer number.old }
{
    match answer {
        Ok(told) => {
            *number = told;
            0
        }
        Err(refusal) => code(refusal),
    }
}

/// The code of a publication, whose number and version go to where the caller wants them.
fn tell_published(answer: Result<Published, Refusal>, number: &mut u64, version: &mut u64) -> u32
    ensures code { result ≡ code_of answer }
    ensures number { number.new ≡ number_or answer number.old }
    ensures version { version.new ≡ version_or answer version.old }
{
    match answer {
        Ok(published) => {
            *number = published.number;
            *version = published.version;
            0
        }
        Err(refusal) => code(refusal),
    }
}

pub(crate) fn line(editing: &mut Editing, line: &[u8]) -> u32
    ensures { LineCall editing.old editing.new line.now result }
{
    match editing.line(line) {
        Ok(()) => 0,
        Err(refusal) => code(refusal),
    }
}

pub(crate) fn create(
    editing: &mut Editing,
    seconds: i64,
    nanoseconds: u32,
    kind: u32,
    id: &[u8],
    body: &[u8],
    version: &mut u64,
) -> u32
    ensures { EditCall editing.old editing.new (option_map (λ kind. created seconds nanoseconds kind id.now body.now) (kind_numbered kind)) result version.old version.new }
{
    let Some(kind) = kind_numbered(kind) else {
        return BAD_KIND;
    };
    tell(
        editing.create(seconds, nanoseconds, kind, id, body),
        version,
    )
}

pub(crate) fn change(
    editing: &mut Editing,
    seconds: i64,
    nanoseconds: u32,
    kind: u32,
    id: &[u8],
    body: &[u8],
    version: &mut u64,
) -> u32
    ensures { EditCall editing.old editing.new (option_map (λ kind. changed seconds nanoseconds kind id.now body.now) (kind_numbered kind)) result version.old version.new }
{
    let Some(kind) = kind_numbered(kind) else {
        return BAD_KIND;
    };
    tell(
        editing.change(seconds, nanoseconds, kind, id, body),
        version,
    )
}

pub(crate) fn remove(editing: &mut Editing, kind: u32, id: &[u8], version: &mut u64) -> u32
    ensures { EditCall editing.old editing.new (option_map (λ kind. removed kind id.now) (kind_numbered kind)) result version.old version.new }
{
    let Some(kind) = kind_numbered(kind) else {
        return BAD_KIND;
    };
    tell(editing.remove(kind, id), version)
}

pub(crate) fn publish(editing: &mut Editing, number: &mut u64, version: &mut u64) -> u32
    ensures { PublishCall editing.old editing.new result (number.old, version.old) (number.new, version.new) }
{
    tell_published(editing.publish(), number, version)
}

pub(crate) fn condense(editing: &mut Editing, version: &mut u64) -> u32
    ensures { CondenseCall editing.old editing.new result version.old version.new }
{
    tell(editing.condense(), version)
}

pub(crate) fn ask(alloc: Global, reading: &mut Reading, line: &[u8]) -> u32
    ensures { AskCall reading.old reading.new line.now result }
{
    match reading.line(alloc, line) {
        Ok(()) => 0,
        Err(refusal) => code(refusal),
    }
}

pub(crate) fn governor(
    alloc: Global,
    reading: &mut Reading,
    resource: &[u8],
    payload_type: &[u8],
    seconds: i64,
    nanoseconds: u32,
    state: &mut GovernorState,
) -> u32
    ensures { GovernorCall reading.old reading.new (governor_told reading.old.tie reading.old.book resource.now payload_type.now seconds nanoseconds) result state.old state.new }
{
    match reading.governor(alloc, resource, payload_type, seconds, nanoseconds) {
        Ok(governor) => {
            *state = state_of(governor);
            0
        }
        Err(refusal) => code(refusal),
    }
}
