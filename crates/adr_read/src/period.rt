//! Starts, lengths, periods and intervals.
ghost use Rattle.std.specs.Prelude.{◌≡◌, ◌++◌, ℤ, Option, option_map, unwrap_or};
ghost use Rattle.serde_json.specs.Data.{Data, null};
ghost use Rattle.adr_refusal.specs.Copy.{IsCopyOf};
ghost use Rattle.adr_refusal.specs.Faults.{Gives};
ghost use Rattle.adr_read.specs.Members.{Holds};
ghost use Rattle.adr_read.specs.Sets.{required, optional, list_faults, list_in};
ghost use Rattle.adr_read.specs.Values.{interval_id_faults, interval_id_in, payload_faults, payload_in};
ghost use Rattle.adr_read.specs.Periods.{start_faults, start_in, length_faults, length_in, period_faults, period_in, interval_faults, interval_in};

use crate::from_value::{Context, Read, ReadResult};
use crate::members::{Member, read_members};
use crate::name::MemberName;
use crate::text::text_of;
use crate::tokens::{Token, Tokens};
use adr_object::{Interval, Payload, Period, Shared};
use adr_time::{Length, Moment, read_length, read_start};
use adr_value::{BoundedVec, Refusal, both};
use std::alloc::Global;

type Payloads = BoundedVec<Payload, 64>;

/// A start.
impl Read for Moment {
    ghost faults = { start_faults };

    ghost stands_for = { λ c. start_in c.moment };

    fn read(
        alloc: Global,
        context: &Context,
        depth: usize,
        reader: &mut Tokens<'_>,
        token: Token<'_>,
    ) -> ReadResult<Moment> {
        match text_of(alloc, depth, reader, token)? {
            Some(text) => Ok(read_start(text, context.moment)),
            None => Ok(Err(Refusal::WrongType)),
        }
    }
}

/// A duration.
impl Read for Length {
    ghost faults = { length_faults };

    ghost stands_for = { λ _. length_in };

    fn read(
        alloc: Global,
        _context: &Context,
        depth: usize,
        reader: &mut Tokens<'_>,
        token: Token<'_>,
    ) -> ReadResult<Length> {
        match text_of(alloc, depth, reader, token)? {
            Some(text) => Ok(read_length(text)),
            None => Ok(Err(Refusal::WrongType)),
        }
    }
}

type PeriodMembers = ((Member<Moment>, Member<Length>), Member<Length>);

/// The period that these members are.
fn period_of(members: PeriodMembers) -> Result<Period, Refusal>
    ensures { (moment : ℤ) (s d r : Option Data) → Holds start_faults (start_in moment) members.0.0.value s
        → Holds length_faults length_in members.0.1.value d → Holds length_faults length_in members.1.value r
        → Gives result (required start_faults s ++ optional length_faults d ++ optional length_faults r)
        (record { start = start_in moment (unwrap_or s null); duration = option_map length_in d; randomize = option_map length_in r }) }
{
    let ((start, duration), randomize) = members;
    let ((start, duration), randomize) = both(
        both(start.required(), duration.optional()),
        randomize.optional(),
    )?;
    Ok(Period {
        start,
        duration,
        randomize,
    })
}

impl Read for Period {
    ghost faults = { period_faults };

    ghost stands_for = { λ c. period_in c.moment };

    #[tactic(auto, unfolding(crate::specs::Periods::period_faults, crate::specs::Periods::period_in))]
    fn read(
        alloc: Global,
        context: &Context,
        depth: usize,
        reader: &mut Tokens<'_>,
        token: Token<'_>,
    ) -> ReadResult<Period> {
        let start = Member::named(MemberName::Start);
        let duration = Member::named(MemberName::Duration);
        let randomize = Member::named(MemberName::RandomizeStart);
        let members = ((start, duration), randomize);
        match read_members(alloc, context.moment, depth, reader, token, members)? {
            Some(members) => Ok(period_of(members)),
            None => Ok(Err(Refusal::WrongType)),
        }
    }
}

type IntervalMembers = ((Member<i64>, Member<Period>), Member<Payloads>);

/// The period on the heap, where there is one.
fn share<T: Drop>(alloc: Global, value: Option<T>) -> Result<Option<Shared<T>>, Refusal>
    ensures { IsCopyOf result value }
{
    match value {
        Some(value) => Ok(Some(Shared::new(alloc, value)?)),
        None => Ok(None),
    }
}

/// The interval that these members are.
fn interval_of(
    alloc: Global,
    context: &Context,
    members: IntervalMembers,
) -> Result<Interval, Refusal>
    ensures { (i p s : Option Data) → Holds interval_id_faults interval_id_in members.0.0.value i
        → Holds period_faults (period_in context.now.moment) members.0.1.value p
        → Holds (list_faults 64 payload_faults) (list_in (λ _. payload_in)) members.1.value s
        → Gives result (optional interval_id_faults i ++ optional period_faults p ++ required (list_faults 64 payload_faults) s)
        (record {
          id = unwrap_or (option_map interval_id_in i) context.now.place;
          period = option_map (period_in context.now.moment) p;
          payloads = list_in (λ _. payload_in) (unwrap_or s null);
        }) }
{
    let ((id, period), payloads) = members;
    let ((id, period), payloads) = both(
        both(id.optional(), period.optional()),
        payloads.required(),
    )?;
    let period = share(alloc, period)?;
    Ok(Interval {
        id: id.unwrap_or(context.place),
        period,
        payloads,
    })
}

impl Read for Interval {
    ghost faults = { interval_faults };

    ghost stands_for = { λ c d. interval_in c.moment c.place d };

    #[tactic(auto, unfolding(crate::specs::Periods::interval_faults, crate::specs::Periods::interval_in))]
    fn read(
        alloc: Global,
        context: &Context,
        depth: usize,
        reader: &mut Tokens<'_>,
        token: Token<'_>,
    ) -> ReadResult<Interval> {
        let id = Member::named(MemberName::Id);
        let period = Member::named(MemberName::IntervalPeriod);
        let payloads = Member::named(MemberName::Payloads);
        let members = ((id, period), payloads);
        match read_members(alloc, context.moment, depth, reader, token, members)? {
            Some(members) => Ok(interval_of(alloc, context, members)),
            None => Ok(Err(Refusal::WrongType)),
        }
    }
}
