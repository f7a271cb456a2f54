//! What is shown, as entries, and those of a new event, as steps that are merged.
ghost use Rattle.std.specs.Prelude.{◌≡◌, ◌+◌, ◌<◌, ◌≤◌, ◌++◌, ℤ, IfOk, IsTrue, OnOk, None, map, length};
ghost use Rattle.std.specs.Option.{option_map};
ghost use Rattle.adr_model.specs.Timeline.{shows, IsCanonical};
ghost use Rattle.adr_timeline.specs.Chunks.{listed};
ghost use Rattle.adr_timeline.specs.Overlay.{hull, shown_entry, spans_of as where_they_lie};
ghost use Rattle.adr_timeline.specs.Steps.{IsInOrder, IsMergeOf, is_run, lesser, rank_at, rank_from, rises};
ghost use Rattle.adr_timeline.specs.Windows.{any_covers, are_apart};

use crate::chunk::Chunk;
use crate::list::{StepList, StepsInTurn};
use crate::packed::PackedSegment;
use crate::step::{RankStep, add_run, merge};
use crate::windows::put_together;
use adr_model::{Entry, Rank, Winner};
use adr_rule::Meter;
use adr_time::Span;
use std::alloc::{AllocError, Global};

/// The ranks of winners, by which what a timeline shows competes with new entries.
pub trait Ranks {
    ghost use Rattle.std.specs.Prelude.{◌≡◌};
    ghost use Rattle.adr_model.specs.declared.timeline.Winner.{Winner};
    ghost use Rattle.adr_model.specs.declared.entry.Rank.{Rank};
    ghost use Rattle.adr_timeline.specs.Steps.{winner_of_rank};

    ghost rank: { Self → Winner → Rank };

    /// The rank of the winner's entry.
    fn rank(&self, winner: Winner) -> Rank
        ensures { result ≡ rank self.now winner };

    /// A winner's rank is that of its own interval.
    ghost names: { (ranks : Self) → (winner : Winner) → winner_of_rank (rank ranks winner) ≡ winner };
}

/// From the earliest start of the entries to their latest end.
pub(crate) fn hull_of(entries: &[Entry]) -> Option<Span>
    ensures { result ≡ hull entries.now }
{
    let (first, rest) = entries.split_first()?;
    let mut window = first.span;
    for entry in rest {
        window = window.hull(&entry.span);
    }
    Some(window)
}

/// Where the entries lie.
fn spans_of(alloc: Global, entries: &[Entry]) -> Result<Vec<Span>, AllocError>
    ensures { IfOk result (λ spans. spans.items ≡ where_they_lie entries.now) }
{
    let mut spans = Vec::with_capacity(alloc, entries.len())?;
    for entry in entries {
        spans.push(entry.span)?;
    }
    Ok(spans)
}

/// Windows that cover what entries that come in turn cover, one for those that touch.
pub(crate) fn windows_of(alloc: Global, entries: &[Entry]) -> Result<Vec<Span>, AllocError>
    requires { IsTrue (is_run entries.now) }
    ensures apart { IfOk result (λ windows. IsTrue (are_apart windows.items)) }
    ensures covers { IfOk result (λ windows. (t : ℤ) → any_covers windows.items t ≡ any_covers (where_they_lie entries.now) t) }
{
    let spans = spans_of(alloc, entries)?;
    put_together(alloc, &spans)
}

/// Puts the segments, as entries by the ranks of their winners, at the end of others.
fn add_shown<R: Ranks>(
    entries: &mut Vec<Entry>,
    segments: &[PackedSegment],
    ranks: &R,
) -> Result<(), AllocError>
    ensures { OnOk result (entries.new.items ≡ entries.old.items ++ map (shown_entry (R.rank ranks.now)) segments.now) }
{
    for segment in segments {
        entries.push(Entry {
            rank: ranks.rank(segment.winner()),
            span: Span {
                start: segment.start(),
                end: segment.end(),
            },
        })?;
    }
    Ok(())
}

/// Puts the segments of chunks, as such entries, at the end of others.
fn add_chunks<R: Ranks>(
    entries: &mut Vec<Entry>,
    chunks: &[Chunk],
    ranks: &R,
) -> Result<(), AllocError>
    ensures { OnOk result (entries.new.items ≡ entries.old.items ++ map (shown_entry (R.rank ranks.now)) (listed chunks.now)) }
{
    for chunk in chunks {
        let segments = chunk.segments();
        entries.reserve(segments.len())?;
        add_shown(entries, segments, ranks)?;
    }
    Ok(())
}

/// What the chunks show, as entries by the ranks of winners.
pub(crate) fn shown_entries<R: Ranks>(
    alloc: Global,
    chunks: &[Chunk],
    ranks: &R,
) -> Result<Vec<Entry>, AllocError>
    requires { IsCanonical (listed chunks.now) }
    ensures in_turn { IfOk result (λ entries. IsTrue (is_run entries.items)) }
    ensures count { IfOk result (λ entries. length entries.items ≡ length (listed chunks.now)) }
    ensures ranks { IfOk result (λ entries. (t : ℤ) → rank_at entries.items t ≡ option_map (R.rank ranks.now) (shows (listed chunks.now) t)) }
{
    let mut entries = Vec::new(alloc);
    add_chunks(&mut entries, chunks, ranks)?;
    Ok(entries)
}

/// Two lists of steps merged into one.
fn merged<R: StepList>(
    alloc: Global,
    left: &[RankStep],
    right: R,
    meter: &mut Meter,
) -> Result<Vec<RankStep>, AllocError>
    requires left { IsInOrder left.now }
    requires right { IsInOrder (R.listed right) }
    ensures merged { IfOk result (λ steps. IsMergeOf left.now (R.listed right) steps.items) }
    ensures compared { meter.new ≤ meter.old + (rises left.now + rises (R.listed right)) }
{
    let room = left.len().saturating_add(right.count());
    let mut steps = Vec::with_capacity(alloc, room)?;
    merge(&mut steps, left, right, meter)?;
    Ok(steps)
}

/// The steps of the lesser rank of what is shown and of other entries, where both come in turn and compete with nothing
/// else.
pub(crate) fn steps_over(
    alloc: Global,
    shown: &[Entry],
    run: &[Entry],
    meter: &mut Meter,
) -> Result<Vec<RankStep>, AllocError>
    requires shown { IsTrue (is_run shown.now) }
    requires in_turn { IsTrue (is_run run.now) }
    ensures order { IfOk result (λ steps. IsInOrder steps.items) }
    ensures ranks { IfOk result (λ steps. (t : ℤ) → rank_from None steps.items t ≡ lesser (rank_at shown.now t) (rank_at run.now t)) }
    ensures compared { meter.new ≤ meter.old + (length shown.now + length run.now) }
{
    let mut held = Vec::with_capacity(alloc, shown.len().saturating_mul(2))?;
    add_run(&mut held, shown)?;
    merged(alloc, &held, StepsInTurn::of(run), meter)
}
