//! Entries to fill an index with: their written numbers rise, and they start here and there.
ghost use Rattle.std.specs.Prelude.{◌≡◌, ◌+◌, ◌*◌, ◌<◌, ◌^◌, ◌++◌, ◌∷◌, [], IfOk, OnOk, length};
ghost use Rattle.adr_trials.specs.Numbers.{AreRising};

use crate::timelines::at;
use adr_index::Entry;
use adr_rule::Rank;
use adr_time::{End, Span};
use std::alloc::{AllocError, Global};

/// How many entries an event has here.
pub(crate) const WINDOWS: u32 = 16;

/// How many steps lie between the starts of two entries, of as many as there are.
const STRIDE: u64 = 2_654_435_761;

/// Where the entry of that written number lies, among so many.
fn span_of(written: u64, among: u32) -> Span {
    let place = i128::from(written.wrapping_mul(STRIDE) % u64::from(among.max(1)));
    Span {
        start: at(10 * place),
        end: End::At(at(10 * place + 15)),
    }
}

fn entry_of(written: u64, among: u32) -> Entry
    ensures { result.rank.written ≡ written }
{
    let rank = Rank {
        priority: 0,
        late: 0,
        written,
        place: 0,
    };
    Entry {
        rank,
        span: span_of(written, among),
    }
}

/// Adds the entry.
fn add(entries: &mut Vec<Entry>, entry: &Entry) -> Result<(), AllocError>
    ensures { OnOk result (entries.new.items ≡ entries.old.items ++ entry.now ∷ []) }
{
    let end: End = entry.span.end;
    let span = Span {
        start: entry.span.start,
        end,
    };
    let added = Entry {
        rank: entry.rank,
        span,
    };
    entries.push(added)?;
    Ok(())
}

/// So many entries from that written number on.
pub(crate) fn entries(
    alloc: Global,
    first: u64,
    count: u32,
    among: u32,
) -> Result<Vec<Entry>, AllocError>
    requires { first + count < 2 ^ 64 }
    ensures rising { IfOk result (λ entries. AreRising first entries.items) }
    ensures length { IfOk result (λ entries. length entries.items ≡ count) }
{
    let mut entries = Vec::new(alloc);
    for place in 0..count {
        let entry = entry_of(first + u64::from(place), among);
        add(&mut entries, &entry)?;
    }
    Ok(entries)
}

/// The entries of the event when it is written for that time, where others have the written numbers below `count`.
pub(crate) fn event(alloc: Global, count: u32, time: u32) -> Result<Vec<Entry>, AllocError>
    ensures rising { IfOk result (λ entries. AreRising (count + 16 * time) entries.items) }
    ensures length { IfOk result (λ entries. length entries.items ≡ 16) }
{
    let first = u64::from(count) + 16 * u64::from(time);
    entries(alloc, first, WINDOWS, count)
}
