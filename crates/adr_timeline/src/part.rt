//! Parts of lists of segments, put together.
ghost use Rattle.std.specs.Prelude.{◌≡◌, ◌≤◌, OnOk, IsTrue, ℤ, if◌then◌else◌, None, [], length};
ghost use Rattle.adr_time.specs.Spans.{covers};
ghost use Rattle.adr_model.specs.Timeline.{shows, IsCanonical};
ghost use Rattle.adr_timeline.specs.Chunks.{listed, AreFilled, chunks_from as from_chunk, is_from as is_start_from, is_over_by as is_ended_by, is_past as is_passed, is_within as lies_within, last_of, starts_late as is_late};
ghost use Rattle.adr_timeline.specs.Parts.{after, start_from as bounded_start, trimmed as part_of, part, part_after, joined_all, spliced_all as repaired};
ghost use Rattle.adr_timeline.specs.Windows.{any_covers, are_apart};

use crate::chunk::Chunk;
use crate::line::Line;
use crate::packed::PackedSegment;
use crate::search::open_chunks;
use adr_model::Segment;
use adr_time::{End, Moment, Span};
use std::alloc::{AllocError, Global};

/// So few segments are put at the end of a line one by one.
const FEW: usize = 4;

/// The start, or the bound where that is later.
fn start_from(bound: &Option<Moment>, start: Moment) -> Moment
    ensures { result ≡ bounded_start bound.now start }
{
    match bound {
        Some(bound) => bound.later(start),
        None => start,
    }
}

/// The part of a segment from a moment on and before an end, which may be empty.
pub(crate) fn trimmed(from: &Option<Moment>, until: &End, segment: &Segment) -> Segment
    ensures { result ≡ part_of from.now until.now segment.now }
{
    Segment {
        start: start_from(from, segment.start),
        end: until.earlier(segment.end),
        winner: segment.winner,
    }
}

/// Puts the parts of segments from a moment on and before an end at the end of a line.
fn join_each(
    line: &mut Line,
    segments: &[PackedSegment],
    from: &Option<Moment>,
    until: &End,
) -> Result<(), AllocError>
    ensures { OnOk result (line.new ≡ joined_all line.old (part from.now until.now segments.now)) }
{
    for segment in segments {
        let piece = trimmed(from, until, &segment.segment());
        line.join_some(&piece)?;
    }
    Ok(())
}

fn is_from(from: &Option<Moment>, start: Moment) -> bool
    ensures { result ≡ is_start_from from.now start }
{
    match from {
        Some(from) => *from <= start,
        None => true,
    }
}

#[tactic(auto, using(crate::proofs::Chunks::last_is))]
fn last(segments: &[PackedSegment]) -> Option<PackedSegment>
    ensures { result ≡ last_of segments.now }
{
    segments.last().copied()
}

/// Whether the segments end by the end.
fn is_over_by(segments: &[PackedSegment], until: End) -> bool
    ensures { result ≡ is_ended_by segments.now until }
{
    let End::At(end) = until else {
        return true;
    };
    match last(segments) {
        Some(last) => !end.is_before(last.end()),
        None => true,
    }
}

/// Whether the segments lie from the moment on and before the end.
fn is_within(segments: &[PackedSegment], from: &Option<Moment>, until: &End) -> bool
    ensures { result ≡ lies_within from.now until.now segments.now }
{
    let is_from = match segments.split_first() {
        Some((first, _)) => is_from(from, first.start()),
        None => true,
    };
    is_from && is_over_by(segments, *until)
}

/// Whether the segments end by the moment.
fn is_past(segments: &[PackedSegment], from: &Option<Moment>) -> bool
    ensures { result ≡ is_passed from.now segments.now }
{
    match from {
        Some(from) => is_over_by(segments, End::At(*from)),
        None => false,
    }
}

/// Whether the segments start at the end or later.
fn starts_late(segments: &[PackedSegment], until: &End) -> bool
    ensures { result ≡ is_late until.now segments.now }
{
    match segments.split_first() {
        Some((first, _)) => !first.start().is_before(*until),
        None => true,
    }
}

/// Puts the parts of segments at the end of a line, by halves: those that lie inside are copied together.
fn join_slice(
    line: &mut Line,
    segments: &[PackedSegment],
    from: &Option<Moment>,
    until: &End,
) -> Result<(), AllocError>
    requires { IsCanonical segments.now }
    ensures { OnOk result (line.new ≡ joined_all line.old (part from.now until.now segments.now)) }
{
    if is_past(segments, from) {
        return Ok(());
    }
    if starts_late(segments, until) {
        return Ok(());
    }
    if is_within(segments, from, until) {
        return line.join_run(segments);
    }
    if segments.len() <= FEW {
        return join_each(line, segments, from, until);
    }
    let (front, back) = segments.split_at(segments.len() / 2);
    join_slice(line, front, from, until)?;
    join_slice(line, back, from, until)
}

/// Puts the part of a chunk at the end of a line, which shares the chunk where it lies inside as a whole.
#[tactic(auto, using(crate::proofs::Chunks::part_within))]
fn join_chunk(
    line: &mut Line,
    chunk: &Chunk,
    from: &Option<Moment>,
    until: &End,
) -> Result<(), AllocError>
    requires { IsCanonical chunk.now }
    ensures { OnOk result (line.new ≡ joined_all line.old (part from.now until.now chunk.now)) }
{
    if is_within(chunk.segments(), from, until) {
        line.join_chunk(chunk)
    } else {
        join_slice(line, chunk.segments(), from, until)
    }
}

/// Puts the parts of chunks at the end of a line, one after the other, up to the first that starts too late.
fn join_each_chunk(
    line: &mut Line,
    chunks: &[Chunk],
    from: &Option<Moment>,
    until: &End,
) -> Result<(), AllocError>
    requires { IsCanonical (listed chunks.now) }
    ensures { OnOk result (line.new ≡ joined_all line.old (part from.now until.now (listed chunks.now))) }
{
    let mut chunks = chunks;
    while let Some((chunk, rest)) = chunks.split_first() {
        if starts_late(chunk.segments(), until) {
            return Ok(());
        }
        join_chunk(line, chunk, from, until)?;
        chunks = rest;
    }
    Ok(())
}

/// Whether the chunks lie from the moment on and before the end.
fn are_within(chunks: &[Chunk], from: &Option<Moment>, until: &End) -> bool
    ensures { result ≡ lies_within from.now until.now (listed chunks.now) }
{
    let (Some(first), Some(last)) = (chunks.first(), chunks.last()) else {
        return true;
    };
    is_from(from, first.first().start()) && is_over_by(last.segments(), *until)
}

/// Puts the parts of chunks at the end of a line, which shares those that are worth it where they lie inside as a
/// whole.
#[tactic(auto, using(crate::proofs::Chunks::part_within))]
fn join_whole(
    line: &mut Line,
    chunks: &[Chunk],
    from: &Option<Moment>,
    until: &End,
) -> Result<(), AllocError>
    requires { IsCanonical (listed chunks.now) }
    ensures { OnOk result (line.new ≡ joined_all line.old (part from.now until.now (listed chunks.now))) }
{
    if are_within(chunks, from, until) {
        line.join_chunks(chunks)
    } else {
        join_each_chunk(line, chunks, from, until)
    }
}

/// How many of the chunks end by the end.
fn count_over(chunks: &[Chunk], until: &End) -> usize
    requires canonical { IsCanonical (listed chunks.now) }
    requires filled { AreFilled chunks.now }
    ensures { result ≤ length chunks.now }
{
    match until {
        End::At(end) => chunks.len().saturating_sub(open_chunks(chunks, *end).len()),
        End::Endless => chunks.len(),
    }
}

/// Puts the parts of chunks at the end of a line: those between the first and the last that there is a part of lie
/// inside as a whole, and are not looked into.
fn join_chunks(
    line: &mut Line,
    chunks: &[Chunk],
    from: &Option<Moment>,
    until: &End,
) -> Result<(), AllocError>
    requires canonical { IsCanonical (listed chunks.now) }
    requires filled { AreFilled chunks.now }
    ensures { OnOk result (line.new ≡ joined_all line.old (part from.now until.now (listed chunks.now))) }
{
    let Some((first, others)) = chunks.split_first() else {
        return Ok(());
    };
    if starts_late(first.segments(), until) {
        return Ok(());
    }
    join_chunk(line, first, from, until)?;
    let (whole, rest) = others.split_at(count_over(others, until));
    join_whole(line, whole, from, until)?;
    join_each_chunk(line, rest, from, until)
}

/// The chunks from the first on that does not end by the bound.
fn chunks_from<'a>(chunks: &'a [Chunk], from: &Option<Moment>) -> &'a [Chunk]
    requires canonical { IsCanonical (listed chunks.now) }
    requires filled { AreFilled chunks.now }
    ensures { result.now ≡ from_chunk from.now chunks.now }
{
    match from {
        Some(from) => open_chunks(chunks, *from),
        None => chunks,
    }
}

/// Puts the parts of the segments from a moment on and before an end at the end of a line. Chunks that lie outside
/// are passed over, and those that lie inside are shared.
fn join_part(
    line: &mut Line,
    chunks: &[Chunk],
    from: &Option<Moment>,
    until: &End,
) -> Result<(), AllocError>
    requires canonical { IsCanonical (listed chunks.now) }
    requires filled { AreFilled chunks.now }
    ensures { OnOk result (line.new ≡ joined_all line.old (part from.now until.now (listed chunks.now))) }
{
    join_chunks(line, chunks_from(chunks, from), from, until)
}

/// Puts the parts of segments after a window at the end of a line.
fn join_after(line: &mut Line, chunks: &[Chunk], window: &Span) -> Result<(), AllocError>
    requires canonical { IsCanonical (listed chunks.now) }
    requires filled { AreFilled chunks.now }
    ensures { OnOk result (line.new ≡ joined_all line.old (after window.now (listed chunks.now))) }
{
    let End::At(end) = window.end else {
        return Ok(());
    };
    let from = Some(end.later(window.start));
    join_part(line, chunks, &from, &End::Endless)
}

/// Puts what the segments show inside the window at the end of an empty line.
pub(crate) fn clip(line: &mut Line, shown: &[Chunk], window: Span) -> Result<(), AllocError>
    requires empty { line.old ≡ [] }
    requires canonical { IsCanonical (listed shown.now) }
    requires filled { AreFilled shown.now }
    ensures canonical { OnOk result (IsCanonical line.new) }
    ensures shows { OnOk result ((t : ℤ) → shows line.new t ≡ (if covers window t then shows (listed shown.now) t else None)) }
{
    join_part(line, shown, &Some(window.start), &window.end)
}

/// Puts what the inner segments show inside the window, and the outer ones outside, at the end of an empty line.
pub(crate) fn splice(
    line: &mut Line,
    outer: &[Chunk],
    window: Span,
    inner: &[Chunk],
) -> Result<(), AllocError>
    requires empty { line.old ≡ [] }
    requires outer { IsCanonical (listed outer.now) }
    requires outer_filled { AreFilled outer.now }
    requires inner { IsCanonical (listed inner.now) }
    requires inner_filled { AreFilled inner.now }
    ensures canonical { OnOk result (IsCanonical line.new) }
    ensures shows { OnOk result ((t : ℤ) → shows line.new t ≡ (if covers window t then shows (listed inner.now) t else shows (listed outer.now) t)) }
{
    join_part(line, outer, &None, &End::At(window.start))?;
    join_part(line, inner, &Some(window.start), &window.end)?;
    join_after(line, outer, &window)
}

/// Puts the parts of segments after an end, where one is given, and before another end at the end of a line.
fn join_from(
    line: &mut Line,
    chunks: &[Chunk],
    passed: &Option<End>,
    until: &End,
) -> Result<(), AllocError>
    requires canonical { IsCanonical (listed chunks.now) }
    requires filled { AreFilled chunks.now }
    ensures { OnOk result (line.new ≡ joined_all line.old (part_after passed.now until.now (listed chunks.now))) }
{
    match passed {
        None => join_part(line, chunks, &None, until),
        Some(End::At(end)) => join_part(line, chunks, &Some(*end), until),
        Some(End::Endless) => Ok(()),
    }
}

/// Puts the outer segments at the end of a line, with the parts of the inner ones in the windows.
fn join_all(
    line: &mut Line,
    outer: &[Chunk],
    windows: &[Span],
    inner: &[Chunk],
) -> Result<(), AllocError>
    requires outer { IsCanonical (listed outer.now) }
    requires outer_filled { AreFilled outer.now }
    requires inner { IsCanonical (listed inner.now) }
    requires inner_filled { AreFilled inner.now }
    ensures { OnOk result (line.new ≡ repaired None line.old (listed outer.now) (listed inner.now) windows.now) }
{
    let mut passed = None;
    for window in windows {
        join_from(line, outer, &passed, &End::At(window.start))?;
        join_part(line, inner, &Some(window.start), &window.end)?;
        passed = Some(window.end);
    }
    join_from(line, outer, &passed, &End::Endless)
}

/// Puts what the inner segments show inside the windows, and the outer ones outside, at the end of an empty line.
pub(crate) fn splice_all(
    line: &mut Line,
    outer: &[Chunk],
    windows: &[Span],
    inner: &[Chunk],
) -> Result<(), AllocError>
    requires empty { line.old ≡ [] }
    requires outer { IsCanonical (listed outer.now) }
    requires outer_filled { AreFilled outer.now }
    requires inner { IsCanonical (listed inner.now) }
    requires inner_filled { AreFilled inner.now }
    requires apart { IsTrue (are_apart windows.now) }
    ensures canonical { OnOk result (IsCanonical line.new) }
    ensures shows { OnOk result ((t : ℤ) → shows line.new t ≡ (if any_covers windows.now t then shows (listed inner.now) t else shows (listed outer.now) t)) }
{
    join_all(line, outer, windows, inner)
}
