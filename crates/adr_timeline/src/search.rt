//! Binary searches in canonical lists.
ghost use Rattle.std.specs.Prelude.{◌≡◌, not};
ghost use Rattle.adr_time.specs.Spans.{is_before};
ghost use Rattle.adr_model.specs.Timeline.{shows, IsCanonical};
ghost use Rattle.adr_model.specs.Answer.{IsUntil};
ghost use Rattle.adr_timeline.specs.Chunks.{listed, lasts_past, open_chunks as chunks_after, AreFilled};
ghost use Rattle.adr_timeline.specs.Open.{change_at, open_in, open_in_first, winner_at_open};

use crate::chunk::Chunk;
use crate::packed::PackedSegment;
use adr_model::Winner;
use adr_time::{End, Moment};

/// The chunks from the first on that has not ended by the moment.
pub(crate) fn open_chunks<'a>(chunks: &'a [Chunk], at: Moment) -> &'a [Chunk]
    requires canonical { IsCanonical (listed chunks.now) }
    requires filled { AreFilled chunks.now }
    ensures { result.now ≡ chunks_after at chunks.now }
{
    let ended = chunks.partition_point(
        |chunk: &Chunk| -> bool
            ensures { result ≡ not (lasts_past chunk.now at) }
        { !chunk.last().is_open(at) },
    );
    chunks.split_at(ended).1
}

/// The first of a chunk's segments that has not ended by the moment.
fn first_open_in(segments: &[PackedSegment], at: Moment) -> Option<PackedSegment>
    requires { IsCanonical segments.now }
    ensures { result ≡ open_in segments.now at }
{
    let ended = segments.partition_point(
        |segment: &PackedSegment| -> bool
            ensures { result ≡ not (is_before at segment.now.end) }
        { !segment.is_open(at) },
    );
    segments.get(ended).copied()
}

/// The first segment, of those of the first of some chunks, that has not ended by the moment.
#[tactic(auto, using(crate::proofs::Chunks::canonical_first))]
fn first_open_chunk(chunks: &[Chunk], at: Moment) -> Option<PackedSegment>
    requires { IsCanonical (listed chunks.now) }
    ensures { result ≡ open_in_first chunks.now at }
{
    match chunks.split_first() {
        Some((chunk, _)) => first_open_in(chunk.segments(), at),
        None => None,
    }
}

/// The first segment that has not ended by the moment.
fn first_open(chunks: &[Chunk], at: Moment) -> Option<PackedSegment>
    requires canonical { IsCanonical (listed chunks.now) }
    requires filled { AreFilled chunks.now }
    ensures winner { shows (listed chunks.now) at ≡ winner_at_open result at }
    ensures change { IsUntil (shows (listed chunks.now)) at (change_at result at) }
{
    first_open_chunk(open_chunks(chunks, at), at)
}

/// The winner of the segment that covers the moment.
pub(crate) fn governor(chunks: &[Chunk], at: Moment) -> Option<Winner>
    requires canonical { IsCanonical (listed chunks.now) }
    requires filled { AreFilled chunks.now }
    ensures { result ≡ shows (listed chunks.now) at }
{
    state(chunks, at).0
}

/// The first moment after this one where a segment starts or ends.
pub(crate) fn next_change(chunks: &[Chunk], at: Moment) -> End
    requires canonical { IsCanonical (listed chunks.now) }
    requires filled { AreFilled chunks.now }
    ensures { IsUntil (shows (listed chunks.now)) at result }
{
    state(chunks, at).1
}

/// The winner of the segment that covers the moment, and the first moment after it where a segment starts or ends.
pub(crate) fn state(chunks: &[Chunk], at: Moment) -> (Option<Winner>, End)
    requires canonical { IsCanonical (listed chunks.now) }
    requires filled { AreFilled chunks.now }
    ensures winner { result.0 ≡ shows (listed chunks.now) at }
    ensures change { IsUntil (shows (listed chunks.now)) at result.1 }
{
    match first_open(chunks, at) {
        Some(segment) if segment.start() <= at => (Some(segment.winner()), segment.end()),
        Some(segment) => (None, End::At(segment.start())),
        None => (None, End::Endless),
    }
}
