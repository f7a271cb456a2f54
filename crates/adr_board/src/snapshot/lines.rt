//! What a timeline says of a moment, and of a window.
ghost use Rattle.std.specs.Prelude.{◌≡◌, ◌++◌, ℤ, None, IfOk, OnOk, if◌then◌else◌};
ghost use Rattle.std.specs.Option.{option_copied, option_map_or};
ghost use Rattle.adr_refusal.specs.Answer.{OnlyNoMemory};
ghost use Rattle.adr_model.specs.Answer.{IsUntil};
ghost use Rattle.adr_model.specs.Timeline.{shows, IsCanonical};
ghost use Rattle.adr_time.specs.Spans.{covers};
ghost use Rattle.adr_time.specs.declared.span.End.TheVariants.{At};
ghost use Rattle.adr_timeline.specs.Chunks.{listed};

use adr_calendar::State;
use adr_model::Segment;
use adr_time::{End, Moment, Span};
use adr_timeline::{Chunk, PackedSegment, Timeline};
use adr_value::Refusal;
use std::alloc::{AllocError, Global};

/// What the line shows at the moment, and until when; no line shows nothing.
pub(crate) fn state_of(line: Option<&Timeline>, moment: Moment) -> State
    ensures governed { result.governor ≡ option_map_or (λ l. shows l moment) (option_copied line.entry) None }
    ensures changed { IsUntil (λ t. option_map_or (λ l. shows l t) (option_copied line.entry) None) moment result.until }
{
    match line {
        Some(line) => {
            let (governor, until) = line.state(moment);
            State { governor, until }
        }
        None => State {
            governor: None,
            until: End::Endless,
        },
    }
}

/// Puts the segments, unpacked, at the end of others.
fn add_unpacked(segments: &mut Vec<Segment>, stored: &[PackedSegment]) -> Result<(), AllocError>
    ensures { OnOk result (segments.new.items ≡ segments.old.items ++ stored.now) }
{
    segments.reserve(stored.len())?;
    for segment in stored {
        let end: End = segment.end();
        segments.push(Segment {
            start: segment.start(),
            end,
            winner: segment.winner(),
        })?;
    }
    Ok(())
}

/// The segments of the chunks, one behind the other.
fn joined(alloc: Global, chunks: &[Chunk]) -> Result<Vec<Segment>, Refusal>
    ensures ok { IfOk result (λ segments. segments.items ≡ listed chunks.now) }
    ensures memory { OnlyNoMemory result }
{
    let mut segments = Vec::new(alloc);
    let mut rest = chunks;
    'rest: while let Some((chunk, more)) = rest.split_first() {
        add_unpacked(&mut segments, chunk.segments())?;
        rest = more;
    }
    Ok(segments)
}

/// The segments of the line in the window from a moment to before another. Cost: a search, and what the window has.
pub(crate) fn segments_of(
    alloc: Global,
    line: Option<&Timeline>,
    from: Moment,
    to: Moment,
) -> Result<Vec<Segment>, Refusal>
    ensures canonical { IfOk result (λ v. IsCanonical v.items) }
    ensures shows { IfOk result (λ v. (t : ℤ) → shows v.items t ≡ (if covers (record { start = from; end = At to }) t then option_map_or (λ l. shows l t) (option_copied line.entry) None else None)) }
    ensures memory { OnlyNoMemory result }
{
    let Some(line) = line else {
        return Ok(Vec::new(alloc));
    };
    let inside = line.clip(Span {
        start: from,
        end: End::At(to),
    })?;
    joined(alloc, inside.segments())
}
