//! A body as a whole, which is one object.
ghost use Rattle.std.specs.Prelude.{◌≡◌, ◌⊎◌, Ok, Err, IfOk, IsTrue, MatchResult, true};
ghost use Rattle.serde_json.specs.Data.{Data, object, no_members};
ghost use Rattle.adr_read.specs.Body.{object_or, object_named};
ghost use Rattle.adr_read.specs.Members.{are_apart};
ghost use Rattle.adr_read.specs.Seen.{value_seen, HasNoNul};

use crate::members::{Members, read_members};
use crate::tokens::Tokens;
use adr_time::Moment;
use adr_value::{Refusal, shield};
use json::{Reader, Scratch};
use memchr::memmem;
use std::alloc::Global;
use std::str;

/// How many arrays and objects may stand within each other, as `serde_json` reads them.
const MOST_LEVELS: usize = 127;

/// The members of the JSON object (RFC 8259) that a text is, a body or a shielded one.
fn members_of<'a, M: Members>(
    alloc: Global,
    scratch: &'a mut Scratch,
    now: Moment,
    text: &'a [u8],
    is_shielded: bool,
    members: M,
) -> Result<M, Refusal>
    requires apart { are_apart (M.names members) ≡ true }
    requires fresh { M.are_of now members (object no_members) }
    ensures told { MatchResult result (λ m. (d : Data) × (object_or (value_seen is_shielded text.now) ≡ Ok d) × M.are_of now m d)
        (λ f. (f ≡ Refusal.NoMemory) ⊎ (object_or (value_seen is_shielded text.now) ≡ Err f)) }
    ensures names { IfOk result (λ m. M.names m ≡ M.names members) }
{
    let Ok(text) = str::from_utf8(text) else {
        return Err(Refusal::BadJson);
    };
    let reader = Reader::new(text, scratch)?;
    let mut tokens = Tokens::new(reader, is_shielded);
    let Some(token) = tokens.next() else {
        return Err(Refusal::BadJson);
    };
    let members = read_members(alloc, now, MOST_LEVELS, &mut tokens, token, members)?;
    if tokens.next().is_some() {
        return Err(Refusal::BadJson);
    }
    members.ok_or(Refusal::NotObject)
}

/// Whether the escape of a NUL stands nowhere in a body, so that no text of it passes for a number.
fn has_no_nul(body: &[u8]) -> bool
    ensures { IsTrue result → HasNoNul body.now }
{
    memmem::find(body, b"\\u0000").is_none()
}

/// The members of a body's object. `BadNumber` where a number doesn't fit, `BadJson` where the body isn't JSON
/// (RFC 8259), `NotObject` where it is another JSON value.
///
/// The body is read as it is, if no escape of a NUL stands in it. Only where that tells of no object is it shielded, to
/// learn what is wrong with it.
#[tactic(auto, unfolding(crate::specs::Body::object_named))]
pub(crate) fn read_object<M: Members>(
    alloc: Global,
    scratch: &mut Scratch,
    now: Moment,
    body: &[u8],
    members: M,
) -> Result<M, Refusal>
    requires apart { are_apart (M.names members) ≡ true }
    requires fresh { M.are_of now members (object no_members) }
    ensures told { MatchResult result (λ m. (d : Data) × (object_named body.now ≡ Ok d) × M.are_of now m d)
        (λ f. (f ≡ Refusal.NoMemory) ⊎ (object_named body.now ≡ Err f)) }
    ensures names { IfOk result (λ m. M.names m ≡ M.names members) }
{
    if has_no_nul(body) {
        match members_of(alloc, scratch, now, body, false, members.anew()) {
            Ok(members) => return Ok(members),
            Err(refusal) if refusal != Refusal::BadJson => return Err(refusal),
            Err(_) => {}
        }
    }
    let shielded = shield(alloc, body)?;
    members_of(alloc, scratch, now, shielded.as_slice(), true, members)
}
