//! What an entry is asked for.
ghost use Rattle.std.specs.Prelude.{◌≡◌};
ghost use Rattle.adr_index.specs.Query.{begins, is_hit as is_a_hit, is_late as is_too_late, lasts_past as is_past_end};

use adr_model::Entry;
use adr_time::{End, Moment};

/// How late an entry may start.
#[derive(Clone, Copy)]
pub(crate) enum Latest {
    /// Before this end.
    Before(End),
    /// At this moment, or earlier.
    By(Moment),
}

/// Entries that cover some moment, end after `from`, and start in time.
#[derive(Clone, Copy)]
pub(crate) struct IndexQuery {
    pub(crate) from: Moment,
    pub(crate) latest: Latest,
}

/// Whether the entry starts in time.
fn starts_in_time(entry: &Entry, query: &IndexQuery) -> bool
    ensures { result ≡ begins query.now.latest entry.now.span.start }
{
    match &query.latest {
        Latest::Before(end) => entry.span.start.is_before(*end),
        Latest::By(at) => entry.span.start <= *at,
    }
}

/// Whether the entry covers some moment, and ends after what is asked for begins.
fn lasts_past(entry: &Entry, query: &IndexQuery) -> bool
    ensures { result ≡ is_past_end entry.now query.now.from }
{
    entry.span.lasts() && query.from.is_before(entry.span.end)
}

/// Whether the entry is asked for.
pub(crate) fn is_hit(entry: &Entry, query: &IndexQuery) -> bool
    ensures { result ≡ is_a_hit query.now entry.now }
{
    lasts_past(entry, query) && starts_in_time(entry, query)
}

/// Whether the entry lasts and starts too late.
pub(crate) fn is_late(entry: &Entry, query: &IndexQuery) -> bool
    ensures { result ≡ is_too_late query.now entry.now }
{
    lasts_past(entry, query) && !starts_in_time(entry, query)
}
