//! Lists of values, and the targets and payloads that hold them.
ghost use Rattle.std.specs.Prelude.{◌≡◌, ◌∷◌, ◌++◌, codes, pos, Option, [], unwrap_or};
ghost use Rattle.serde_json.specs.Data.{Data};
ghost use Rattle.adr_refusal.specs.Faults.{Gives};
ghost use Rattle.adr_read.specs.Coming.{coming, Tells};
ghost use Rattle.adr_read.specs.Looking.{the, member_at};
ghost use Rattle.adr_read.specs.Sets.{of_object, required, list_faults, list_in};
ghost use Rattle.adr_read.specs.Tokens.{token_of, IsSound};
ghost use Rattle.adr_read.specs.Values.{datum_faults, type_in, map_faults, values_in, target_in, payload_faults, payload_in};

use crate::elements::{Elements, next_context, next_element};
use crate::from_value::{Context, Read, ReadResult};
use crate::members::{Member, read_members};
use crate::name::MemberName;
use crate::skip::skip;
use crate::tokens::{Token, Tokens};
use adr_object::{Payload, Target};
use adr_value::{BoundedVec, Datum, Name, PayloadType, Refusal, both};
use std::alloc::Global;

type Values = BoundedVec<Datum, 256>;

impl<T: Read, const LIMIT: usize> Read for BoundedVec<T, LIMIT> {
    ghost faults = { list_faults LIMIT T.faults };

    ghost stands_for = { λ c. list_in (λ n. T.stands_for (record { moment = c.moment; place = pos n })) };

    fn read(
        alloc: Global,
        context: &Context,
        depth: usize,
        reader: &mut Tokens<'_>,
        token: Token<'_>,
    ) -> ReadResult<BoundedVec<T, LIMIT>> {
        let Token::BeginArray = token else {
            skip(alloc, depth, reader, token)?;
            return Ok(Err(Refusal::WrongType));
        };
        if depth == 0 {
            return Err(Refusal::BadJson);
        }
        let mut items = BoundedVec::new(alloc);
        let mut elements = Elements::none::<T>();
        'elements: while let Some(token) = next_element(reader)? {
            let context = next_context(&items, context.moment);
            let element = T::read(alloc, &context, depth - 1, reader, token)?;
            elements.add(alloc, &mut items, element)?;
        }
        Ok(elements.answer(items))
    }
}

/// The type and the values of a values map.
fn typed_values<K: Read>(
    alloc: Global,
    context: &Context,
    depth: usize,
    reader: &mut Tokens<'_>,
    token: Token<'_>,
) -> ReadResult<(K, Values)>
    requires sound { IsSound token }
    ensures { Tells (coming depth (token_of token.entry ∷ reader.old)) reader.new (λ d r. Gives r
        (of_object d (required K.faults (member_at (codes "type") d)
        ++ required (list_faults 256 datum_faults) (member_at (codes "values") d)))
        (K.stands_for (record { moment = context.now.moment; place = pos 0 }) (the (codes "type") d), values_in d)) result }
{
    let kind = Member::<K>::named(MemberName::Kind);
    let values = Member::<Values>::named(MemberName::Values);
    match read_members(alloc, context.moment, depth, reader, token, (kind, values))? {
        Some((kind, values)) => Ok(both(kind.required(), values.required())),
        None => Ok(Err(Refusal::WrongType)),
    }
}

impl Read for Target {
    ghost faults = { map_faults };

    ghost stands_for = { λ _. target_in };

    fn read(
        alloc: Global,
        context: &Context,
        depth: usize,
        reader: &mut Tokens<'_>,
        token: Token<'_>,
    ) -> ReadResult<Target> {
        match typed_values::<Name>(alloc, context, depth, reader, token)? {
            Ok((kind, values)) => Ok(Ok(Target { kind, values })),
            Err(refusal) => Ok(Err(refusal)),
        }
    }
}

/// The payload of a type and values, whose shape is judged where they have no fault.
fn payload_of(parts: Result<(PayloadType, Values), Refusal>) -> Result<Payload, Refusal>
    ensures { (d : Data) → Gives parts (map_faults d) (type_in (the (codes "type") d), values_in d)
        → Gives result (payload_faults d) (payload_in d) }
{
    let (kind, values) = parts?;
    kind.check(values.as_slice())?;
    Ok(Payload { kind, values })
}

impl Read for Payload {
    ghost faults = { payload_faults };

    ghost stands_for = { λ _. payload_in };

    fn read(
        alloc: Global,
        context: &Context,
        depth: usize,
        reader: &mut Tokens<'_>,
        token: Token<'_>,
    ) -> ReadResult<Payload> {
        Ok(payload_of(typed_values::<PayloadType>(alloc, context, depth, reader, token)?))
    }
}
