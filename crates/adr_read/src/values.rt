//! The plain values: texts, names, ids, types, numbers and data.
ghost use Rattle.std.specs.Prelude.{◌≡◌, ◌∷◌, ◌++◌, Option, Some, None, pos, unsigned_abs, unwrap_or, if◌then◌else◌};
ghost use Rattle.serde_json.specs.Data.{Data, null, string};
ghost use Rattle.adr_refusal.specs.Faults.{Gives};
ghost use Rattle.adr_value.specs.declared.datum.Datum.TheVariants.{Point};
ghost use Rattle.adr_read.specs.Coming.{coming, Tells};
ghost use Rattle.adr_read.specs.Members.{Holds};
ghost use Rattle.adr_read.specs.Sets.{required};
ghost use Rattle.adr_read.specs.Values.{text_faults, name_faults, id_faults, text_in, type_in, number_faults, number_in, is_priority, priority_faults, priority_in, is_interval_id, interval_id_faults, interval_id_in, datum_faults, datum_in};

use crate::from_value::{Context, Read, ReadResult};
use crate::members::{Member, read_members};
use crate::name::MemberName;
use crate::skip::decimal;
use crate::text::{after_nul, decimal_of, text_of};
use crate::tokens::{Token, Tokens};
use adr_object::Id;
use adr_value::{Datum, Decimal, Name, PayloadType, Refusal, Text, both};
use std::alloc::Global;

impl Read for Text {
    ghost faults = { text_faults };

    ghost stands_for = { λ _. text_in };

    fn read(
        alloc: Global,
        _context: &Context,
        depth: usize,
        reader: &mut Tokens<'_>,
        token: Token<'_>,
    ) -> ReadResult<Text> {
        match text_of(alloc, depth, reader, token)? {
            Some(text) => Ok(Text::new(alloc, text)),
            None => Ok(Err(Refusal::WrongType)),
        }
    }
}

impl Read for Name {
    ghost faults = { name_faults };

    ghost stands_for = { λ _. text_in };

    fn read(
        alloc: Global,
        _context: &Context,
        depth: usize,
        reader: &mut Tokens<'_>,
        token: Token<'_>,
    ) -> ReadResult<Name> {
        match text_of(alloc, depth, reader, token)? {
            Some(text) if Name::fits(text) => Ok(Name::new(alloc, text)),
            Some(_) => Ok(Err(Refusal::BadText)),
            None => Ok(Err(Refusal::WrongType)),
        }
    }
}

impl Read for Id {
    ghost faults = { id_faults };

    ghost stands_for = { λ _. text_in };

    fn read(
        alloc: Global,
        _context: &Context,
        depth: usize,
        reader: &mut Tokens<'_>,
        token: Token<'_>,
    ) -> ReadResult<Id> {
        match text_of(alloc, depth, reader, token)? {
            Some(text) if Id::fits(text) => Ok(Id::new(alloc, text)),
            Some(_) => Ok(Err(Refusal::BadText)),
            None => Ok(Err(Refusal::WrongType)),
        }
    }
}

impl Read for PayloadType {
    ghost faults = { name_faults };

    ghost stands_for = { λ _. type_in };

    fn read(
        alloc: Global,
        _context: &Context,
        depth: usize,
        reader: &mut Tokens<'_>,
        token: Token<'_>,
    ) -> ReadResult<PayloadType> {
        match text_of(alloc, depth, reader, token)? {
            Some(text) => Ok(PayloadType::type_of(alloc, text)),
            None => Ok(Err(Refusal::WrongType)),
        }
    }
}

impl Read for Decimal {
    ghost faults = { number_faults };

    ghost stands_for = { λ _. number_in };

    fn read(
        alloc: Global,
        _context: &Context,
        depth: usize,
        reader: &mut Tokens<'_>,
        token: Token<'_>,
    ) -> ReadResult<Decimal> {
        match decimal_of(alloc, depth, reader, token)? {
            Some(number) => Ok(Ok(number)),
            None => Ok(Err(Refusal::WrongType)),
        }
    }
}

fn priority_of(number: Decimal) -> Option<u32>
    ensures { result ≡ (if is_priority number then Some (unsigned_abs number.coefficient) else None) }
{
    let coefficient = number.coefficient();
    if number.scale() == 0 && 0 <= coefficient && coefficient < 1 << 32 {
        Some(coefficient as u32)
    } else {
        None
    }
}

/// A priority.
impl Read for u32 {
    ghost faults = { priority_faults };

    ghost stands_for = { λ _. priority_in };

    fn read(
        alloc: Global,
        _context: &Context,
        depth: usize,
        reader: &mut Tokens<'_>,
        token: Token<'_>,
    ) -> ReadResult<u32> {
        let Some(number) = decimal_of(alloc, depth, reader, token)? else {
            return Ok(Err(Refusal::WrongType));
        };
        Ok(priority_of(number).ok_or(Refusal::BadPriority))
    }
}

fn interval_id_of(number: Decimal) -> Option<i64>
    ensures { result ≡ (if is_interval_id number then Some number.coefficient else None) }
{
    let coefficient = number.coefficient();
    if number.scale() == 0 && -(1 << 63) <= coefficient && coefficient < 1 << 63 {
        Some(coefficient as i64)
    } else {
        None
    }
}

/// The id of an interval.
impl Read for i64 {
    ghost faults = { interval_id_faults };

    ghost stands_for = { λ _. interval_id_in };

    fn read(
        alloc: Global,
        _context: &Context,
        depth: usize,
        reader: &mut Tokens<'_>,
        token: Token<'_>,
    ) -> ReadResult<i64> {
        let Some(number) = decimal_of(alloc, depth, reader, token)? else {
            return Ok(Err(Refusal::WrongType));
        };
        Ok(interval_id_of(number).ok_or(Refusal::WrongType))
    }
}

/// A text of a list of values, or a number, which is a text behind a NUL.
fn text_datum(alloc: Global, text: &str) -> Result<Datum, Refusal>
    ensures { Gives result (datum_faults (string text.now)) (datum_in (string text.now)) }
{
    let Some(number) = after_nul(text) else {
        return Ok(Datum::Text(Text::new(alloc, text)?));
    };
    match Decimal::read(number) {
        Ok(number) => Ok(Datum::Number(number)),
        Err(_) => Err(Refusal::WrongType),
    }
}

/// The point that two members are.
fn point_of(x: Member<Decimal>, y: Member<Decimal>) -> Result<Datum, Refusal>
    ensures { (o p : Option Data) → Holds number_faults number_in x.value o → Holds number_faults number_in y.value p
        → Gives result (required number_faults o ++ required number_faults p) (Point (number_in (unwrap_or o null)) (number_in (unwrap_or p null))) }
{
    let (x, y) = both(x.required(), y.required())?;
    Ok(Datum::Point(x, y))
}

impl Read for Datum {
    ghost faults = { datum_faults };

    ghost stands_for = { λ _. datum_in };

    fn read(
        alloc: Global,
        context: &Context,
        depth: usize,
        reader: &mut Tokens<'_>,
        token: Token<'_>,
    ) -> ReadResult<Datum> {
        match token {
            Token::Truth(truth) => return Ok(Ok(Datum::Truth(truth))),
            Token::String(text) => return Ok(text_datum(alloc, text)),
            Token::Number(number) => return Ok(Ok(Datum::Number(decimal(number)?))),
            _ => {}
        }
        let members = (Member::named(MemberName::X), Member::named(MemberName::Y));
        match read_members(alloc, context.moment, depth, reader, token, members)? {
            Some((x, y)) => Ok(point_of(x, y)),
            None => Ok(Err(Refusal::WrongType)),
        }
    }
}
