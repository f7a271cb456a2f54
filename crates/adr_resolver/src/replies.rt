//! The replies, made in room that is there.
ghost use Rattle.std.specs.Prelude.{◌≡◌, ◌≢◌, ◌++◌, ◌+◌, ◌^◌, ◌≤◌, ◌<◌, [], Err, length, vec_len, vec_capacity, OnOk, OnErr};
ghost use Rattle.std.specs.Fmt.{decimal};
ghost use Rattle.adr_resolver.specs.Text.{refusal_line, ok_line, published_line, condensed_line};

use adr_script::Unanswered;
use adr_value::Refusal;
use itoa::Buffer;
use std::alloc::AllocError;

/// Puts a short text into the room that is there.
fn put(reply: &mut Vec<u8>, text: &[u8])
    requires { vec_len reply.old + length text.now ≤ vec_capacity reply.old }
    ensures items { reply.new.items ≡ reply.old.items ++ text.now }
    ensures len { vec_len reply.new ≡ vec_len reply.old + length text.now }
    ensures room { vec_capacity reply.old ≤ vec_capacity reply.new }
{
    reply.extend_from_slice(text).unwrap();
}

/// Puts a number of at most thirteen digits, as a version is.
#[tactic(auto, using(crate::proofs::Digits::thirteen_digits))]
fn put_number(reply: &mut Vec<u8>, number: u64)
    requires small { number < 10 ^ 13 }
    requires room { vec_len reply.old + 13 ≤ vec_capacity reply.old }
    ensures items { reply.new.items ≡ reply.old.items ++ decimal number }
    ensures len { vec_len reply.new ≤ vec_len reply.old + 13 }
    ensures room { vec_capacity reply.old ≤ vec_capacity reply.new }
{
    let mut buffer = Buffer::new();
    put(reply, buffer.format(number).as_bytes());
}

/// Puts `refused 22 Exists` into an empty reply with room for 64 bytes.
pub fn put_refusal(reply: &mut Vec<u8>, refusal: Refusal)
    requires empty { vec_len reply.old ≡ 0 }
    requires room { 64 ≤ vec_capacity reply.old }
    ensures items { reply.new.items ≡ reply.old.items ++ refusal_line refusal }
    ensures room { vec_capacity reply.old ≤ vec_capacity reply.new }
{
    put(reply, b"refused ");
    put_number(reply, u64::from(refusal.number()));
    put(reply, b" ");
    put(reply, refusal.name().as_bytes());
    put(reply, b"\n");
}

/// Puts the reply to a refused line into an empty one with room for 64 bytes.
///
/// # Errors
///
/// `NoMemory` where memory was wanting, which is no reply.
pub fn put_refused(reply: &mut Vec<u8>, refusal: Refusal) -> Result<(), Unanswered>
    requires empty { reply.old.items ≡ [] }
    requires room { 64 ≤ vec_capacity reply.old }
    ensures reply { OnOk result (reply.new.items ≡ refusal_line refusal) }
    ensures refusal { OnOk result (refusal ≢ Refusal.NoMemory) }
    ensures memory { OnErr result (refusal ≡ Refusal.NoMemory) }
    ensures err { OnErr result (result ≡ Err Unanswered.NoMemory) }
    ensures room { 64 ≤ vec_capacity reply.new }
{
    if refusal == Refusal::NoMemory {
        return Err(Unanswered::NoMemory);
    }
    put_refusal(reply, refusal);
    Ok(())
}

/// Puts `ok 4` into an empty reply with room for 64 bytes.
pub fn put_ok(reply: &mut Vec<u8>, version: u64)
    requires small { version < 10 ^ 13 }
    requires empty { vec_len reply.old ≡ 0 }
    requires room { 64 ≤ vec_capacity reply.old }
    ensures items { reply.new.items ≡ reply.old.items ++ ok_line version }
    ensures room { vec_capacity reply.old ≤ vec_capacity reply.new }
{
    put(reply, b"ok ");
    put_number(reply, version);
    put(reply, b"\n");
}

/// Puts `published 1 version 4` into an empty reply with room for 64 bytes.
pub fn put_published(reply: &mut Vec<u8>, number: u64, version: u64)
    requires number { number < 10 ^ 13 }
    requires version { version < 10 ^ 13 }
    requires empty { vec_len reply.old ≡ 0 }
    requires room { 64 ≤ vec_capacity reply.old }
    ensures items { reply.new.items ≡ reply.old.items ++ published_line number version }
    ensures room { vec_capacity reply.old ≤ vec_capacity reply.new }
{
    put(reply, b"published ");
    put_number(reply, number);
    put(reply, b" version ");
    put_number(reply, version);
    put(reply, b"\n");
}

/// Puts `condensed version 4` into an empty reply with room for 64 bytes.
pub fn put_condensed(reply: &mut Vec<u8>, version: u64)
    requires small { version < 10 ^ 13 }
    requires empty { vec_len reply.old ≡ 0 }
    requires room { 64 ≤ vec_capacity reply.old }
    ensures items { reply.new.items ≡ reply.old.items ++ condensed_line version }
    ensures room { vec_capacity reply.old ≤ vec_capacity reply.new }
{
    put(reply, b"condensed version ");
    put_number(reply, version);
    put(reply, b"\n");
}

/// Puts an answer, which may take more room.
pub(crate) fn put_answer(reply: &mut Vec<u8>, answer: &[u8]) -> Result<(), AllocError>
    ensures items { OnOk result (reply.new.items ≡ reply.old.items ++ answer.now) }
    ensures room { vec_capacity reply.old ≤ vec_capacity reply.new }
{
    reply.extend_from_slice(answer)
}
