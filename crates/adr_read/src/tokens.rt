//! The tokens of a body.
ghost use Rattle.std.specs.Prelude.{◌≡◌, ◌≢◌, ◌∷◌, [], None, Some, MatchOption, MatchResult, IfSome, option_map};
ghost use Rattle.std.specs.Bool.{MatchBool};
ghost use Rattle.json.specs.Json.{after_end_array, read_key};
ghost use Rattle.json.specs.Print.{IsPrintable};
ghost use Rattle.json.specs.Reads.{token_of as json_token_of};
ghost use Rattle.json.specs.declared.token.Token.TheVariants.{Bad as JsonBad};
ghost use Rattle.adr_read.specs.Tokens.{token_of, seen_token, seen, IsSound};

use json::{Invalid, Reader};
use std::marker::Model;

/// A token of a body.
#[derive(Clone, Copy, Drop)]
pub(crate) enum Token<'a> {
    BeginObject,
    EndObject,
    BeginArray,
    EndArray,
    Key(&'a str),
    String(&'a str),
    /// A number of a body. Where it has a decimal it stands for the text that the shield makes of it, and else for no
    /// JSON.
    Number(&'a str),
    /// A number of a shielded body, which has none.
    Float(&'a str),
    Truth(bool),
    Null,
    /// No JSON from here on.
    Bad,
}

/// The token of a body that a token of its text stands for.
#[inline(always)]
fn told<'a>(token: json::Token<'a>, is_shielded: bool) -> Token<'a>
    requires printable { token ≢ JsonBad → IsPrintable (json_token_of token) }
    ensures value { token_of result ≡ seen_token is_shielded (json_token_of token.entry) }
    ensures sound { IsSound result }
{
    match token {
        json::Token::BeginObject => Token::BeginObject,
        json::Token::EndObject => Token::EndObject,
        json::Token::BeginArray => Token::BeginArray,
        json::Token::EndArray => Token::EndArray,
        json::Token::Key(text) => Token::Key(text),
        json::Token::String(text) => Token::String(text),
        json::Token::Number(text) if is_shielded => Token::Float(text),
        json::Token::Number(text) => Token::Number(text),
        json::Token::Bool(truth) => Token::Truth(truth),
        json::Token::Null => Token::Null,
        json::Token::Bad => Token::Bad,
    }
}

/// What is left of a body, which contracts see as the tokens to come, with the shield's texts in place of numbers.
#[derive(Drop)]
pub(crate) struct Tokens<'a> {
    reader: Reader<'a>,
    is_shielded: bool,
}

impl<'a> Model for Tokens<'a> {
    ghost use Rattle.std.specs.Prelude.{List};
    ghost use Rattle.json.specs.Token.{Token as SpecToken, tokens_code};

    ghost Value = { List SpecToken };

    ghost coded = { tokens_code };

    ghost use Rattle.adr_read.specs.Tokens.{seen};

    ghost view = { λ a. seen a.is_shielded a.reader };
}

impl<'a> Tokens<'a> {
    /// The tokens of the reader's text, which is a body, or a shielded one.
    #[inline(always)]
    pub(crate) fn new(reader: Reader<'a>, is_shielded: bool) -> Tokens<'a>
        ensures { result ≡ seen is_shielded reader.entry }
    {
        Tokens {
            reader,
            is_shielded,
        }
    }

    /// The next token.
    #[inline(always)]
    pub(crate) fn next(&mut self) -> Option<Token<'a>>
        ensures value { MatchOption result ((self.old ≡ []) × (self.new ≡ []))
            (λ t. self.old ≡ token_of t ∷ self.new) }
        ensures sound { IfSome result IsSound }
    {
        let token = self.reader.next()?;
        Some(told(token, self.is_shielded))
    }

    /// A key, or nothing at the brace that closes an object.
    #[inline(always)]
    pub(crate) fn next_key(&mut self) -> Result<Option<&'a str>, Invalid>
        ensures { MatchResult result
            (λ k. read_key self.old ≡ Some (option_map (λ s. s.now) k, self.new))
            (λ _. read_key self.old ≡ None) }
    {
        self.reader.next_key()
    }

    /// Takes the bracket that closes an array, if it is next.
    #[inline(always)]
    pub(crate) fn take_end_array(&mut self) -> bool
        ensures { MatchBool result (after_end_array self.old ≡ Some self.new)
            ((after_end_array self.old ≡ None) × (self.new ≡ self.old)) }
    {
        self.reader.take_end_array()
    }
}
