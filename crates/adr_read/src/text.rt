//! Texts and numbers of a body, in which a number is a text behind a NUL.
ghost use Rattle.std.specs.Prelude.{◌≡◌, ◌≢◌, ◌∷◌, ℕ, List, option_map};
ghost use Rattle.serde_json.specs.Find.{as_str};
ghost use Rattle.std.specs.Borrow.{Bor};
ghost use Rattle.adr_read.specs.Coming.{coming, Tells};
ghost use Rattle.adr_read.specs.Looking.{after_nul, text_of, decimal_of};
ghost use Rattle.adr_read.specs.Tokens.{token_of, IsSound};

use crate::skip::{decimal, skip};
use crate::tokens::{Token, Tokens};
use adr_value::{Decimal, Refusal};
use std::alloc::Global;

/// What follows a NUL at the front.
pub(crate) fn after_nul(text: &str) -> Option<&str>
    ensures { option_map (λ t. t.now) result ≡ after_nul text.now }
{
    text.strip_prefix('\0')
}

/// The text of a value that is a text, or a number of a shielded body. Any other value is passed over.
fn string_of<'a>(
    alloc: Global,
    depth: usize,
    reader: &mut Tokens<'_>,
    token: Token<'a>,
) -> Result<Option<&'a str>, Refusal>
    requires sound { IsSound token }
    requires other { (s : Bor (List ℕ)) → token ≢ Token.Number s }
    ensures { Tells (coming depth (token_of token.entry ∷ reader.old)) reader.new
        (λ d text. option_map (λ t. t.now) text ≡ as_str d) result }
{
    if let Token::String(text) = token {
        return Ok(Some(text));
    }
    skip(alloc, depth, reader, token)?;
    Ok(None)
}

/// The text of a value that is a text and no number. Any other value is passed over.
pub(crate) fn text_of<'a>(
    alloc: Global,
    depth: usize,
    reader: &mut Tokens<'_>,
    token: Token<'a>,
) -> Result<Option<&'a str>, Refusal>
    requires sound { IsSound token }
    ensures { Tells (coming depth (token_of token.entry ∷ reader.old)) reader.new
        (λ d text. option_map (λ t. t.now) text ≡ text_of d) result }
{
    if let Token::Number(number) = token {
        decimal(number)?;
        return Ok(None);
    }
    let Some(text) = string_of(alloc, depth, reader, token)? else {
        return Ok(None);
    };
    match after_nul(text) {
        Some(_) => Ok(None),
        None => Ok(Some(text)),
    }
}

/// The decimal of a value that is a number. Any other value is passed over.
pub(crate) fn decimal_of(
    alloc: Global,
    depth: usize,
    reader: &mut Tokens<'_>,
    token: Token<'_>,
) -> Result<Option<Decimal>, Refusal>
    requires sound { IsSound token }
    ensures { Tells (coming depth (token_of token.entry ∷ reader.old)) reader.new
        (λ d number. number ≡ decimal_of d) result }
{
    if let Token::Number(number) = token {
        return Ok(Some(decimal(number)?));
    }
    let Some(text) = string_of(alloc, depth, reader, token)? else {
        return Ok(None);
    };
    match after_nul(text) {
        Some(number) => Ok(Decimal::read(number).ok()),
        None => Ok(None),
    }
}
