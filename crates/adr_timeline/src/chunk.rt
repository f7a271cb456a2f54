//! Chunks: segments that several timelines share.
ghost use Rattle.std.specs.Prelude.{◌≡◌, ◌<◌, Some, IfOk, length};
ghost use Rattle.adr_timeline.specs.Chunks.{first_of, last_of};

use crate::packed::PackedSegment;
use std::alloc::{AllocError, Global};
use std::marker::Model;
use std::sync::Arc;

/// Segments in order, at least one, in memory that several timelines may share. Contracts see their list.
pub struct Chunk {
    segments: Arc<Vec<PackedSegment>>,
}

// A function of its own, so that callers that let a value go need not look into it.
impl Drop for Chunk {
    fn drop(self) {
        let Chunk { segments } = self;
        drop(segments);
    }
}

impl Model for Chunk {
    ghost use Rattle.std.specs.Prelude.{List, ◌<◌, length};
    ghost use Rattle.std.specs.Arc.{arc_value};
    ghost use Rattle.adr_model.specs.declared.timeline.Segment.{Segment};

    ghost Value = { List Segment };

    ghost view = { λ chunk. (arc_value chunk.segments).items };

    ghost invariant = { λ chunk. 0 < length (arc_value chunk.segments).items };
}

impl Chunk {
    pub(crate) fn new(alloc: Global, segments: Vec<PackedSegment>) -> Result<Chunk, AllocError>
        requires { 0 < length segments.items }
        ensures { IfOk result (λ chunk. chunk ≡ segments.items) }
    {
        Ok(Chunk {
            segments: Arc::new(alloc, segments)?,
        })
    }

    /// The segments, in order, as they are stored.
    pub fn segments(&self) -> &[PackedSegment]
        ensures segments { result.now ≡ self.now }
        ensures filled { 0 < length self.now }
    {
        &self.segments
    }

    pub(crate) fn first(&self) -> PackedSegment
        ensures first { first_of self.now ≡ Some result }
        ensures filled { 0 < length self.now }
    {
        self.segments[0]
    }

    #[tactic(auto, using(crate::proofs::Chunks::last_read))]
    pub(crate) fn last(&self) -> PackedSegment
        ensures last { last_of self.now ≡ Some result }
        ensures filled { 0 < length self.now }
    {
        self.segments[self.segments.len() - 1]
    }

    /// One more owner of the same segments.
    pub(crate) fn share(&self) -> Result<Chunk, AllocError>
        ensures { IfOk result (λ chunk. chunk ≡ self.now) }
    {
        Ok(Chunk {
            segments: self.segments.clone()?,
        })
    }
}
