//! Lists of segments that grow at their end.
ghost use Rattle.std.specs.Prelude.{◌≡◌, ◌++◌, ◌∷◌, [], OnOk};
ghost use Rattle.adr_timeline.specs.Parts.{joined, leads_to as goes_on};

use crate::packed::PackedSegment;
use std::alloc::AllocError;

/// Whether the piece begins where the segment ends, with the same winner.
pub(crate) fn leads_to(segment: &PackedSegment, piece: &PackedSegment) -> bool
    ensures { result ≡ goes_on segment.now piece.now }
{
    let winner = segment.winner();
    let other = piece.winner();
    segment.end().is_at(piece.start())
        && winner.written == other.written
        && winner.place == other.place
}

/// Puts a piece at the end, as a segment of its own.
pub(crate) fn push(
    segments: &mut Vec<PackedSegment>,
    piece: &PackedSegment,
) -> Result<(), AllocError>
    ensures { OnOk result (segments.new.items ≡ segments.old.items ++ piece.now ∷ []) }
{
    segments.push(*piece)?;
    Ok(())
}

/// Puts a piece at the end, as a part of the last segment where that one goes on with the same winner.
pub(crate) fn join(
    segments: &mut Vec<PackedSegment>,
    piece: PackedSegment,
) -> Result<(), AllocError>
    ensures { OnOk result (segments.new.items ≡ joined segments.old.items piece) }
{
    let count = segments.len();
    if count > 0 && leads_to(&segments[count - 1], &piece) {
        segments[count - 1].end_with(&piece);
    } else {
        segments.push(piece)?;
    }
    Ok(())
}
