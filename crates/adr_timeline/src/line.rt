//! Lists of segments that grow at their end, in chunks.
ghost use Rattle.std.specs.Prelude.{◌≡◌, ◌++◌, ◌∷◌, [], ◌<◌, length, true, IfOk, OnOk};
ghost use Rattle.adr_model.specs.Timeline.{IsCanonical};
ghost use Rattle.adr_timeline.specs.Chunks.{listed, last_of, AreFilled, goes_on as leads_on};
ghost use Rattle.adr_timeline.specs.Parts.{joined, joined_part, joined_all};

use crate::chunk::Chunk;
use crate::packed::PackedSegment;
use crate::segment::{join, leads_to, push};
use adr_model::Segment;
use std::alloc::{AllocError, Global};
use std::marker::Model;
use std::mem;

/// A list of segments that grows at its end: chunks that are done, and the segments after them. Contracts see the list.
#[derive(Drop)]
pub(crate) struct Line {
    most: usize,
    chunks: Vec<Chunk>,
    unsealed: Vec<PackedSegment>,
}

impl Model for Line {
    ghost use Rattle.std.specs.Prelude.{List, ◌++◌};
    ghost use Rattle.adr_model.specs.declared.timeline.Segment.{Segment};
    ghost use Rattle.adr_timeline.specs.Chunks.{listed, AreFilled};

    ghost Value = { List Segment };

    ghost view = { λ line. listed line.chunks.items ++ line.unsealed.items };

    ghost invariant = { λ line. AreFilled line.chunks.items };
}

/// Takes the last chunk back, where no segment is after it.
#[tactic(auto, using(crate::proofs::Chunks::popped_same, crate::proofs::Chunks::popped_filled))]
fn reopen(chunks: &mut Vec<Chunk>, unsealed: &mut Vec<PackedSegment>) -> Result<(), AllocError>
    requires { AreFilled chunks.old.items }
    ensures same { OnOk result (listed chunks.new.items ++ unsealed.new.items ≡ listed chunks.old.items ++ unsealed.old.items) }
    ensures filled { AreFilled chunks.new.items }
    ensures opened { OnOk result (0 < length (listed chunks.old.items ++ unsealed.old.items) → 0 < length unsealed.new.items) }
{
    if !unsealed.is_empty() {
        return Ok(());
    }
    let Some(chunk) = chunks.pop() else {
        return Ok(());
    };
    unsealed.extend_from_slice(chunk.segments())
}

/// The last segment of the chunks and of those after them.
#[tactic(auto, using(crate::proofs::Chunks::last_after, crate::proofs::Chunks::last_chunk))]
fn last(chunks: &[Chunk], unsealed: &[PackedSegment]) -> Option<PackedSegment>
    ensures { result ≡ last_of (listed chunks.now ++ unsealed.now) }
{
    if !unsealed.is_empty() {
        return unsealed.last().copied();
    }
    match chunks.last() {
        Some(chunk) => Some(chunk.last()),
        None => None,
    }
}

/// Makes a chunk of the segments after the chunks.
#[tactic(auto, using(crate::proofs::Chunks::listed_push, crate::proofs::Chunks::filled_push))]
fn seal(chunks: &mut Vec<Chunk>, unsealed: &mut Vec<PackedSegment>) -> Result<(), AllocError>
    requires { AreFilled chunks.old.items }
    ensures same { OnOk result (listed chunks.new.items ≡ listed chunks.old.items ++ unsealed.old.items) }
    ensures filled { AreFilled chunks.new.items }
    ensures none { unsealed.new.items ≡ [] }
{
    let alloc = *unsealed.allocator();
    let segments = mem::replace(unsealed, Vec::new(alloc));
    if !segments.is_empty() {
        let chunk = Chunk::new(alloc, segments)?;
        chunks.push(chunk)?;
    }
    Ok(())
}

/// Puts a chunk at the end of others, whose memory it shares with its other owners.
#[tactic(auto, using(crate::proofs::Chunks::listed_push, crate::proofs::Chunks::filled_push))]
fn push_chunk(chunks: &mut Vec<Chunk>, chunk: &Chunk) -> Result<(), AllocError>
    requires { AreFilled chunks.old.items }
    ensures same { OnOk result (listed chunks.new.items ≡ listed chunks.old.items ++ chunk.now) }
    ensures filled { AreFilled chunks.new.items }
{
    let _segments = chunk.segments();
    chunks.push(chunk.share()?)?;
    Ok(())
}

impl Line {
    /// The empty line, whose chunks have at most so many segments.
    pub(crate) fn new(alloc: Global, most: usize) -> Line
        ensures { result ≡ [] }
    {
        Line {
            most,
            chunks: Vec::new(alloc),
            unsealed: Vec::new(alloc),
        }
    }

    /// Whether the last segment leads to the piece.
    fn leads_to(&self, piece: &PackedSegment) -> bool
        ensures { result ≡ leads_on self.now piece.now }
    {
        match last(&self.chunks, &self.unsealed) {
            Some(last) => leads_to(&last, piece),
            None => false,
        }
    }

    /// Makes a chunk of the segments after the chunks, where they are as many as a chunk may have.
    #[tactic(auto, using(crate::proofs::Chunks::sealed_view))]
    fn seal_full(&mut self) -> Result<(), AllocError>
        ensures { OnOk result (self.new ≡ self.old) }
    {
        if self.most <= self.unsealed.len() {
            seal(&mut self.chunks, &mut self.unsealed)?;
        }
        Ok(())
    }

    /// Puts a piece at the end, as a segment of its own.
    fn add(&mut self, piece: &PackedSegment) -> Result<(), AllocError>
        ensures { OnOk result (self.new ≡ self.old ++ piece.now ∷ []) }
    {
        self.seal_full()?;
        push(&mut self.unsealed, piece)
    }

    /// Puts a piece at the end, as a part of the last segment, which leads to it.
    fn lengthen(&mut self, piece: &PackedSegment) -> Result<(), AllocError>
        requires { leads_on self.old piece.now ≡ true }
        ensures { OnOk result (self.new ≡ joined self.old piece.now) }
    {
        reopen(&mut self.chunks, &mut self.unsealed)?;
        join(&mut self.unsealed, *piece)
    }

    /// Puts a piece at the end, as a part of the last segment where that one goes on with the same winner.
    #[tactic(auto, using(crate::proofs::Chunks::joined_apart))]
    fn join(&mut self, piece: &PackedSegment) -> Result<(), AllocError>
        ensures { OnOk result (self.new ≡ joined self.old piece.now) }
    {
        if self.leads_to(piece) {
            self.lengthen(piece)
        } else {
            self.add(piece)
        }
    }

    /// Puts a piece at the end, where it is not empty.
    pub(crate) fn join_some(&mut self, piece: &Segment) -> Result<(), AllocError>
        ensures { OnOk result (self.new ≡ joined_part self.old piece.now) }
    {
        if piece.start.is_before(piece.end) {
            self.join(&PackedSegment::of(piece))?;
        }
        Ok(())
    }

    /// Puts pieces at the end.
    fn join_all(&mut self, pieces: &[PackedSegment]) -> Result<(), AllocError>
        ensures { OnOk result (self.new ≡ joined_all self.old pieces.now) }
    {
        for piece in pieces {
            self.join(piece)?;
        }
        Ok(())
    }

    /// Puts pieces at the end, each as a segment of its own.
    fn add_each(&mut self, pieces: &[PackedSegment]) -> Result<(), AllocError>
        ensures { OnOk result (self.new ≡ self.old ++ pieces.now) }
    {
        for piece in pieces {
            self.add(piece)?;
        }
        Ok(())
    }

    /// Puts pieces at the end, each as a segment of its own, and all together where they fit into one chunk.
    #[tactic(auto, using(crate::proofs::Chunks::extended_view))]
    fn add_all(&mut self, pieces: &[PackedSegment]) -> Result<(), AllocError>
        ensures { OnOk result (self.new ≡ self.old ++ pieces.now) }
    {
        if pieces.len() <= self.most.saturating_sub(self.unsealed.len()) {
            return self.unsealed.extend_from_slice(pieces);
        }
        self.add_each(pieces)
    }

    /// Puts the segments of a canonical list at the end, together but for the first.
    #[tactic(auto, using(crate::proofs::Chunks::canonical_tail))]
    pub(crate) fn join_run(&mut self, segments: &[PackedSegment]) -> Result<(), AllocError>
        requires { IsCanonical segments.now }
        ensures { OnOk result (self.new ≡ joined_all self.old segments.now) }
    {
        let Some((first, rest)) = segments.split_first() else {
            return Ok(());
        };
        self.join(first)?;
        self.join_rest(rest)
    }

    /// Puts the segments of a canonical list at the end, together where the first goes on from nothing that is there.
    #[tactic(auto, using(crate::proofs::Chunks::joined_whole))]
    fn join_rest(&mut self, segments: &[PackedSegment]) -> Result<(), AllocError>
        requires { IsCanonical segments.now }
        ensures { OnOk result (self.new ≡ joined_all self.old segments.now) }
    {
        let Some((first, _)) = segments.split_first() else {
            return Ok(());
        };
        if self.leads_to(first) {
            self.join_all(segments)
        } else {
            self.add_all(segments)
        }
    }

    /// Whether a chunk of so many segments is large enough to be shared, and not larger than a chunk may be. A chunk
    /// that is a quarter full at most is copied, so that small ones are put together.
    fn is_shared(&self, count: usize) -> bool {
        let room = self.most.saturating_sub(self.unsealed.len());
        self.most / 4 < count && count <= self.most && (self.unsealed.is_empty() || room < count)
    }

    /// Puts a chunk at the end, which stays shared where that is worth it.
    #[tactic(auto, using(crate::proofs::Chunks::shared_view))]
    fn add_chunk(&mut self, chunk: &Chunk) -> Result<(), AllocError>
        ensures { OnOk result (self.new ≡ self.old ++ chunk.now) }
    {
        if !self.is_shared(chunk.segments().len()) {
            return self.add_all(chunk.segments());
        }
        seal(&mut self.chunks, &mut self.unsealed)?;
        push_chunk(&mut self.chunks, chunk)
    }

    /// Puts the segments of a chunk at the end, which stays shared where nothing of it goes on from what is there.
    #[tactic(auto, using(crate::proofs::Chunks::joined_whole))]
    pub(crate) fn join_chunk(&mut self, chunk: &Chunk) -> Result<(), AllocError>
        requires { IsCanonical chunk.now }
        ensures { OnOk result (self.new ≡ joined_all self.old chunk.now) }
    {
        if self.leads_to(&chunk.first()) {
            self.join_all(chunk.segments())
        } else {
            self.add_chunk(chunk)
        }
    }

    /// Puts chunks at the end, one after the other, which stay shared as `join_chunk` has it.
    fn join_each_chunk(&mut self, chunks: &[Chunk]) -> Result<(), AllocError>
        requires { IsCanonical (listed chunks.now) }
        ensures { OnOk result (self.new ≡ joined_all self.old (listed chunks.now)) }
    {
        let mut chunks = chunks;
        while let Some((chunk, rest)) = chunks.split_first() {
            self.join_chunk(chunk)?;
            chunks = rest;
        }
        Ok(())
    }

    /// Puts chunks at the end, which stay shared where that is worth it.
    fn add_chunks(&mut self, chunks: &[Chunk]) -> Result<(), AllocError>
        ensures { OnOk result (self.new ≡ self.old ++ listed chunks.now) }
    {
        let mut chunks = chunks;
        while let Some((chunk, rest)) = chunks.split_first() {
            self.add_chunk(chunk)?;
            chunks = rest;
        }
        Ok(())
    }

    /// Puts the segments of chunks at the end, which stay shared where nothing of the first goes on from what is there.
    #[tactic(auto, using(crate::proofs::Chunks::joined_chunks))]
    pub(crate) fn join_chunks(&mut self, chunks: &[Chunk]) -> Result<(), AllocError>
        requires { IsCanonical (listed chunks.now) }
        ensures { OnOk result (self.new ≡ joined_all self.old (listed chunks.now)) }
    {
        let Some(first) = chunks.first() else {
            return Ok(());
        };
        if self.leads_to(&first.first()) {
            self.join_each_chunk(chunks)
        } else {
            self.add_chunks(chunks)
        }
    }

    /// The chunks of the line.
    pub(crate) fn into_chunks(self) -> Result<Vec<Chunk>, AllocError>
        ensures listed { IfOk result (λ chunks. listed chunks.items ≡ self) }
        ensures filled { IfOk result (λ chunks. AreFilled chunks.items) }
    {
        let Line {
            mut chunks,
            mut unsealed,
            ..
        } = self;
        seal(&mut chunks, &mut unsealed)?;
        drop(unsealed);
        Ok(chunks)
    }
}
