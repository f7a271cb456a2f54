//! One value of a body, passed over token by token.
ghost use Rattle.std.specs.Prelude.{◌≡◌, ◌≢◌, ◌∷◌, true, false, None, Some, IfErr, IsSome, MatchResult, OnOk, ok_or};
ghost use Rattle.json.specs.Print.{IsNumber};
ghost use Rattle.serde_json.specs.Data.{Items, Members};
ghost use Rattle.serde_json.specs.Read.{number_of};
ghost use Rattle.adr_value.specs.Value.{number_of as decimal_named};
ghost use Rattle.adr_read.specs.Coming.{coming, Comes, coming_items, coming_members};
ghost use Rattle.adr_read.specs.Tokens.{fits, token_of, IsSound};

use crate::tokens::{Token, Tokens};
use adr_value::{Decimal, Refusal};
use serde_json::Value;
use std::alloc::Global;

/// Passes over the value that begins with this token. `BadJson` where none does.
#[cycle(skip)]
#[inline(always)]
pub(crate) fn skip(
    alloc: Global,
    depth: usize,
    reader: &mut Tokens<'_>,
    token: Token<'_>,
) -> Result<(), Refusal>
    requires sound { IsSound token }
    ensures ok { OnOk result (Comes depth (token_of token.entry ∷ reader.old) reader.new) }
    ensures bad { IfErr result (λ f. f ≢ Refusal.NoMemory
        → (f ≡ Refusal.BadJson) × (coming depth (token_of token.entry ∷ reader.old) ≡ None)) }
{
    match token {
        Token::String(_) | Token::Truth(_) | Token::Null => Ok(()),
        Token::Number(text) => pass_decimal(text),
        Token::Float(text) => check_number(alloc, text),
        Token::EndObject | Token::EndArray | Token::Key(_) | Token::Bad => Err(Refusal::BadJson),
        Token::BeginArray if depth > 0 => skip_items(alloc, depth - 1, reader),
        Token::BeginObject if depth > 0 => skip_members(alloc, depth - 1, reader),
        Token::BeginArray | Token::BeginObject => Err(Refusal::BadJson),
    }
}

/// Passes over the value that comes next.
#[cycle(skip)]
#[inline(always)]
fn skip_next(alloc: Global, depth: usize, reader: &mut Tokens<'_>) -> Result<(), Refusal>
    ensures ok { OnOk result (Comes depth reader.old reader.new) }
    ensures bad { IfErr result (λ f. f ≢ Refusal.NoMemory
        → (f ≡ Refusal.BadJson) × (coming depth reader.old ≡ None)) }
{
    let token = reader.next().ok_or(Refusal::BadJson)?;
    skip(alloc, depth, reader, token)
}

/// Passes over the rest of an array.
#[cycle(skip)]
#[inline(never)]
fn skip_items(alloc: Global, depth: usize, reader: &mut Tokens<'_>) -> Result<(), Refusal>
    ensures ok { OnOk result ((ds : Items)
        × (coming_items depth reader.old ≡ Some (ds, reader.new))) }
    ensures bad { IfErr result (λ f. f ≢ Refusal.NoMemory
        → (f ≡ Refusal.BadJson) × (coming_items depth reader.old ≡ None)) }
{
    'items: while !reader.take_end_array() {
        skip_next(alloc, depth, reader)?;
    }
    Ok(())
}

/// Passes over the rest of an object.
#[cycle(skip)]
#[inline(never)]
fn skip_members(alloc: Global, depth: usize, reader: &mut Tokens<'_>) -> Result<(), Refusal>
    ensures ok { OnOk result ((ms : Members)
        × (coming_members depth reader.old ≡ Some (ms, reader.new))) }
    ensures bad { IfErr result (λ f. f ≢ Refusal.NoMemory
        → (f ≡ Refusal.BadJson) × (coming_members depth reader.old ≡ None)) }
{
    'members: while let Some(_) = reader.next_key().or(Err(Refusal::BadJson))? {
        skip_next(alloc, depth, reader)?;
    }
    Ok(())
}

/// The decimal of a number of a body. `BadJson` where it has none.
pub(crate) fn decimal(text: &str) -> Result<Decimal, Refusal>
    ensures { result ≡ ok_or (decimal_named text.now) Refusal.BadJson }
{
    Decimal::read(text).or(Err(Refusal::BadJson))
}

/// Passes where a number of a body has a decimal.
fn pass_decimal(text: &str) -> Result<(), Refusal>
    ensures { MatchResult result (λ _. fits text.now ≡ true) (λ f. (f ≡ Refusal.BadJson) × (fits text.now ≡ false)) }
{
    decimal(text)?;
    Ok(())
}

/// Passes where the text of a number is within the range of a float. `BadJson` where it is not.
/// It stands out of line, so that a level of a value takes little of the stack.
#[inline(never)]
fn check_number(alloc: Global, text: &str) -> Result<(), Refusal>
    requires { IsNumber text.now }
    ensures ok { OnOk result (IsSome (number_of text.now)) }
    ensures bad { IfErr result (λ f. f ≢ Refusal.NoMemory
        → (f ≡ Refusal.BadJson) × (number_of text.now ≡ None)) }
{
    match Value::from_str(alloc, text) {
        Ok(_) => Ok(()),
        Err(error) if error.is_memory() => Err(Refusal::NoMemory),
        Err(_) => Err(Refusal::BadJson),
    }
}
