//! Entries that several windows share, found by one look-up.
ghost use Rattle.std.specs.Prelude.{◌≡◌, IfOk, IsTrue, List, OnOk};
ghost use Rattle.adr_refusal.specs.Answer.{OnlyNoMemory};
ghost use Rattle.adr_model.specs.declared.entry.Entry.{Entry as AnyEntry};
ghost use Rattle.adr_model.specs.Entries.{meeting};
ghost use Rattle.adr_timeline.specs.Near.{IsNoLater, Serves};

use crate::build::Source;
use adr_model::Entry;
use adr_time::{End, Moment, Span, covers, meets};
use adr_value::Refusal;
use std::alloc::{AllocError, Global};

/// How many windows share a look-up at most: each of them goes through all that it found.
const MOST_TOGETHER: usize = 8;

/// The entries that meet the window.
pub(crate) fn meeting(
    alloc: Global,
    entries: &[Entry],
    window: &Span,
) -> Result<Vec<Entry>, AllocError>
    ensures { IfOk result (λ found. found.items ≡ meeting entries.now window.now) }
{
    let mut found = Vec::new(alloc);
    find_meeting(&mut found, entries, window)?;
    Ok(found)
}

/// Puts the entries that meet the window in the place of those that were found before.
pub(crate) fn find_meeting(
    found: &mut Vec<Entry>,
    entries: &[Entry],
    window: &Span,
) -> Result<(), AllocError>
    ensures { OnOk result (found.new.items ≡ meeting entries.now window.now) }
{
    found.clear();
    found.reserve(entries.len())?;
    for entry in entries {
        if meets(&entry.span, window) {
            found.push(*entry)?;
        }
    }
    Ok(())
}

/// Whether the end is no later than the other.
fn is_no_later(end: End, other: End) -> bool
    ensures { IsTrue result → IsNoLater end other }
{
    match other {
        End::At(last) => !last.is_before(end),
        End::Endless => true,
    }
}

/// The span of the window and of the next few, as far as each begins where the one before it ends.
fn reach(window: &Span, later: &[Span]) -> Span
    ensures { Serves result window.now }
{
    let (few, _) = later.split_at(later.len().min(MOST_TOGETHER - 1));
    let mut span = *window;
    for next in few {
        if span.end.is_at(next.start) {
            span = span.hull(next);
        }
    }
    span
}

/// The entries of a source that meet a span.
#[derive(Drop)]
pub(crate) struct Near {
    span: Span,
    pub(crate) entries: Vec<Entry>,
}

impl Near {
    /// Those that meet a span that covers nothing.
    pub(crate) fn nothing(alloc: Global) -> Near
        ensures { (entries : List AnyEntry) → result.entries.items ≡ meeting entries result.span }
    {
        Near {
            span: Span {
                start: Moment::MIN,
                end: End::At(Moment::MIN),
            },
            entries: Vec::new(alloc),
        }
    }

    /// Those that meet the span.
    fn of<S: Source>(alloc: Global, source: &S, span: &Span) -> Result<Near, Refusal>
        ensures near { IfOk result (λ near. near.entries.items ≡ meeting (S.entries source.now) near.span) }
        ensures span { IfOk result (λ near. near.span ≡ span.now) }
        ensures refused { OnlyNoMemory result }
    {
        let entries = source.meeting(alloc, *span)?;
        Ok(Near {
            span: *span,
            entries,
        })
    }

    /// Whether the window lies inside the span.
    fn serves(&self, window: &Span) -> bool
        ensures { IsTrue result → Serves self.now.span window.now }
    {
        covers(&self.span, window.start) && is_no_later(window.end, self.span.end)
    }

    /// Looks near the window and the next ones, unless this serves the window already.
    pub(crate) fn go_to<S: Source>(
        &mut self,
        alloc: Global,
        source: &S,
        window: &Span,
        later: &[Span],
    ) -> Result<(), Refusal>
        requires near { self.old.entries.items ≡ meeting (S.entries source.now) self.old.span }
        ensures near { OnOk result (self.new.entries.items ≡ meeting (S.entries source.now) self.new.span) }
        ensures found { OnOk result (meeting self.new.entries.items window.now ≡ meeting (S.entries source.now) window.now) }
        ensures refused { OnlyNoMemory result }
    {
        if self.serves(window) {
            return Ok(());
        }
        let span = reach(window, later);
        *self = Near::of(alloc, source, &span)?;
        Ok(())
    }
}
