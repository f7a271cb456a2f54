//! Queries on their way to the readers.
ghost use Rattle.std.specs.Prelude.{◌≡◌, IsTrue};
ghost use Rattle.adr_refusal.specs.Copy.{IsCopyOf};
ghost use Rattle.adr_fan.specs.Queries.{query_in};

use adr_object::Id;
use adr_time::Moment;
use adr_value::{PayloadType, Refusal, payload_laws};
use std::marker::Model;

/// What a line asks of each reader.
#[derive(Drop)]
pub(crate) enum Query {
    At(Id, PayloadType, Moment),
    List(Id, PayloadType, Moment, Moment),
    Roll(PayloadType, Moment),
    Types(Id),
}

/// A query that was sent, and the number of the publication that was the last one then.
#[derive(Drop)]
pub(crate) struct Sent {
    query: Query,
    number: u64,
}

impl Model for Sent {
    ghost use Rattle.adr_resolver.specs.Fan.{Sent as Asked};
    ghost use Rattle.adr_fan.specs.Queries.{query_in};

    ghost Value = { Asked };

    ghost view = { λ s. record { query = query_in s.query; number = s.number } };
}

/// Whether two payload types are one.
#[tactic(auto, using(crate::proofs::Types::same_types))]
fn same_type(a: &PayloadType, b: &PayloadType) -> bool
    ensures { IsTrue result → a.now ≡ b.now }
{
    payload_laws();
    a.code() == b.code() && a.name() == b.name()
}

fn same_moment(a: Moment, b: Moment) -> bool
    ensures { IsTrue result → a ≡ b }
{
    a.nanoseconds() == b.nanoseconds()
}

impl Query {
    fn copy(&self) -> Result<Query, Refusal>
        ensures { IsCopyOf result self.now }
    {
        match self {
            Query::At(id, payload_type, moment) => {
                Ok(Query::At(id.copy()?, payload_type.copy()?, *moment))
            }
            Query::List(id, payload_type, from, to) => {
                Ok(Query::List(id.copy()?, payload_type.copy()?, *from, *to))
            }
            Query::Roll(payload_type, moment) => Ok(Query::Roll(payload_type.copy()?, *moment)),
            Query::Types(id) => Ok(Query::Types(id.copy()?)),
        }
    }

    /// Whether two queries ask the same.
    fn same(&self, other: &Query) -> bool
        ensures { IsTrue result → self.now ≡ other.now }
    {
        match (self, other) {
            (Query::At(id, payload_type, moment), Query::At(id2, payload_type2, moment2)) => {
                id.same(id2)
                    && same_type(payload_type, payload_type2)
                    && same_moment(*moment, *moment2)
            }
            (
                Query::List(id, payload_type, from, to),
                Query::List(id2, payload_type2, from2, to2),
            ) => {
                id.same(id2)
                    && same_type(payload_type, payload_type2)
                    && same_moment(*from, *from2)
                    && same_moment(*to, *to2)
            }
            (Query::Roll(payload_type, moment), Query::Roll(payload_type2, moment2)) => {
                same_type(payload_type, payload_type2) && same_moment(*moment, *moment2)
            }
            (Query::Types(id), Query::Types(id2)) => id.same(id2),
            _ => false,
        }
    }
}

impl Sent {
    pub(crate) fn new(query: Query, number: u64) -> Sent
        ensures { result ≡ record { query = query_in query; number = number } }
    {
        Sent { query, number }
    }

    pub(crate) fn query(&self) -> &Query
        ensures { query_in result.now ≡ self.now.query }
    {
        &self.query
    }

    pub(crate) fn number(&self) -> u64
        ensures { result ≡ self.now.number }
    {
        self.number
    }

    /// A copy for one more reader, which takes no growth.
    pub(crate) fn copy(&self) -> Result<Sent, Refusal>
        ensures { IsCopyOf result self.now }
    {
        Ok(Sent {
            query: self.query.copy()?,
            number: self.number,
        })
    }

    /// Whether both ask the same, and were sent under the same number.
    pub(crate) fn same(&self, other: &Sent) -> bool
        ensures { IsTrue result → self.now ≡ other.now }
    {
        self.number == other.number && self.query.same(&other.query)
    }
}
