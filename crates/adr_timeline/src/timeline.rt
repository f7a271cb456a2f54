//! Timelines.
ghost use Rattle.std.specs.Prelude.{◌≡◌, List, length, IsTrue, true, drop, ◌+◌, ◌*◌, ◌<◌, ◌≤◌, nat_le, ℤ, [], if◌then◌else◌, None, IfOk};
ghost use Rattle.std.specs.Option.{option_map};
ghost use Rattle.adr_refusal.specs.Answer.{OnlyNoMemory};
ghost use Rattle.adr_refusal.specs.Copy.{IsCopyOf};
ghost use Rattle.adr_time.specs.Spans.{covers};
ghost use Rattle.adr_model.specs.Answer.{IsUntil};
ghost use Rattle.adr_model.specs.declared.entry.Entry.{Entry};
ghost use Rattle.adr_model.specs.Entries.{meeting};
ghost use Rattle.adr_model.specs.Governor.{winner_at};
ghost use Rattle.adr_model.specs.Timeline.{shows, CanonicalIsUnique, IsCanonical};
ghost use Rattle.adr_timeline.specs.Build.{most_compared, most_compared_all};
ghost use Rattle.adr_timeline.specs.Chunks.{listed};
ghost use Rattle.adr_timeline.specs.Overlay.{IsMetBy, spans_of as where_they_lie};
ghost use Rattle.adr_timeline.specs.Steps.{is_run, lesser, rank_at, winner_of_rank};
ghost use Rattle.adr_timeline.specs.Windows.{any_covers, are_apart};

use crate::build::{Source, join_windows};
use crate::chunk::Chunk;
use crate::line::Line;
use crate::near::meeting;
use crate::overlay::{Ranks, hull_of, shown_entries, steps_over, windows_of};
use crate::step::{join_steps, ranked};
use crate::{part, search};
use adr_model::{Entry, Segment, Winner};
use adr_rule::Meter;
use adr_time::{End, Moment, Span, meets};
use adr_value::Refusal;
use std::alloc::{AllocError, Global};
use std::marker::Model;

/// How many segments a chunk has at most.
const MOST_IN_CHUNK: usize = 128;

/// Which interval governs at each instant. Contracts see its segments, which are canonical: nonempty, in order and
/// apart, and two that touch have different winners.
///
/// The segments lie in chunks, which timelines share: a repair copies the table of the chunks, and the segments of
/// those that its windows reach into, and of those beside them that are a quarter full at most or fit into the chunk
/// before.
pub struct Timeline {
    most: usize,
    chunks: Vec<Chunk>,
}

// A function of its own, so that callers that let a value go need not look into it.
impl Drop for Timeline {
    fn drop(self) {
        let Timeline { most: _, chunks } = self;
        drop(chunks);
    }
}

impl Model for Timeline {
    ghost use Rattle.std.specs.Prelude.{List};
    ghost use Rattle.adr_model.specs.declared.timeline.Segment.{Segment};
    ghost use Rattle.adr_model.specs.Timeline.{IsCanonical};
    ghost use Rattle.adr_timeline.specs.Chunks.{listed, AreFilled};

    ghost Value = { List Segment };

    ghost view = { λ timeline. listed timeline.chunks.items };

    ghost invariant = { λ timeline. IsCanonical (listed timeline.chunks.items) × AreFilled timeline.chunks.items };
}

/// Whether every entry meets the window.
fn all_meet(entries: &[Entry], window: &Span) -> bool
    ensures { result ≡ true → meeting entries.now window.now ≡ entries.now }
{
    for entry in entries {
        if !meets(&entry.span, window) {
            return false;
        }
    }
    true
}

/// The timeline of a canonical line.
fn timeline_of(most: usize, line: Line) -> Result<Timeline, Refusal>
    requires { IsCanonical line }
    ensures same { IfOk result (λ timeline. timeline ≡ line) }
    ensures refused { OnlyNoMemory result }
{
    let chunks = line.into_chunks()?;
    Ok(Timeline { most, chunks })
}

/// A list of these chunks, which shares their segments.
fn shared(alloc: Global, chunks: &[Chunk]) -> Result<Vec<Chunk>, AllocError>
    ensures { IfOk result (λ copies. copies.items ≡ chunks.now) }
{
    let mut copies = Vec::with_capacity(alloc, chunks.len())?;
    for chunk in chunks {
        copies.push(chunk.share()?)?;
    }
    Ok(copies)
}

/// Whether the chunks have no more segments than so many.
fn fits(chunks: &[Chunk], most: usize) -> bool
    ensures { result ≡ nat_le (length (listed chunks.now)) most }
{
    let mut left = most;
    for chunk in chunks {
        let count = chunk.segments().len();
        if left < count {
            return false;
        }
        left -= count;
    }
    true
}

/// The least, at each instant of the window, of what is shown and other entries, where both come in turn, and nothing
/// outside.
fn laid_in(
    alloc: Global,
    shown: &[Entry],
    entries: &[Entry],
    window: Span,
    meter: &mut Meter,
) -> Result<Timeline, Refusal>
    requires shown { IsTrue (is_run shown.now) }
    requires in_turn { IsTrue (is_run entries.now) }
    ensures shows { IfOk result (λ timeline. (t : ℤ) → shows timeline t ≡ (if covers window t then option_map winner_of_rank (lesser (rank_at shown.now t) (rank_at entries.now t)) else None)) }
    ensures compared { meter.new ≤ meter.old + (length shown.now + length entries.now) }
    ensures refused { OnlyNoMemory result }
{
    let steps = steps_over(alloc, shown, entries, meter)?;
    let mut line = Line::new(alloc, MOST_IN_CHUNK);
    join_steps(&mut line, &steps, window)?;
    timeline_of(MOST_IN_CHUNK, line)
}

impl Timeline {
    /// A timeline that shows nothing. It takes no memory before it is built on.
    pub fn new(alloc: Global) -> Timeline
        ensures { result ≡ [] }
    {
        Timeline {
            most: MOST_IN_CHUNK,
            chunks: Vec::new(alloc),
        }
    }

    /// The timeline of the least of the entries at each instant inside the window, and of nothing outside.
    ///
    /// Ranks are compared by `before` alone, which counts each comparison. Cost: for k entries that meet the window at
    /// most about k log k steps, in two lists that are taken once, and about k where each entry ends before the next
    /// one starts. They are copied where some entry does not meet it.
    ///
    /// # Errors
    ///
    /// `NoMemory` where there is no room.
    pub fn build(
        alloc: Global,
        entries: &[Entry],
        window: Span,
        meter: &mut Meter,
    ) -> Result<Timeline, Refusal>
        ensures canonical { IfOk result (λ timeline. IsCanonical timeline) }
        ensures shows { IfOk result (λ timeline. (t : ℤ) → shows timeline t ≡ (if covers window t then winner_at entries.now t else None)) }
        ensures compared { meter.new ≤ meter.old + most_compared entries.now window }
        ensures refused { OnlyNoMemory result }
    {
        if all_meet(entries, &window) {
            return Timeline::of(alloc, entries, window, meter);
        }
        let found = meeting(alloc, entries, &window)?;
        Timeline::of(alloc, &found, window, meter)
    }

    /// The timeline of the least of the source's entries at each instant inside the windows, and of nothing outside:
    /// what an edit shows in its windows, in one pass. [`are_apart`](crate::are_apart) tests windows, and
    /// [`first_run`](crate::first_run) finds some that are. Cost: a look-up for each eight windows that touch, and for
    /// each other one, and for each window that of [`Timeline::build`] of the entries so found; what is built is not
    /// copied.
    ///
    /// # Errors
    ///
    /// `NoMemory` where there is no room.
    pub fn build_all<S: Source>(
        alloc: Global,
        source: &S,
        windows: &[Span],
        meter: &mut Meter,
    ) -> Result<Timeline, Refusal>
        requires apart { IsTrue (are_apart windows.now) }
        ensures canonical { IfOk result (λ timeline. IsCanonical timeline) }
        ensures shows { IfOk result (λ timeline. (t : ℤ) → shows timeline t ≡ (if any_covers windows.now t then winner_at (S.entries source.now) t else None)) }
        ensures compared { meter.new ≤ meter.old + most_compared_all (S.entries source.now) windows.now }
        ensures refused { OnlyNoMemory result }
    {
        let mut line = Line::new(alloc, MOST_IN_CHUNK);
        join_windows(&mut line, alloc, source, windows, meter)?;
        timeline_of(MOST_IN_CHUNK, line)
    }

    /// The timeline of the least of the entries at each instant inside the window, whether they meet it or not.
    fn of(
        alloc: Global,
        entries: &[Entry],
        window: Span,
        meter: &mut Meter,
    ) -> Result<Timeline, Refusal>
        ensures canonical { IfOk result (λ timeline. IsCanonical timeline) }
        ensures shows { IfOk result (λ timeline. (t : ℤ) → shows timeline t ≡ (if covers window t then winner_at entries.now t else None)) }
        ensures compared { meter.new ≤ meter.old + length entries.now * (2 * length entries.now + 1) }
        ensures refused { OnlyNoMemory result }
    {
        let steps = ranked(alloc, entries, meter)?;
        let mut line = Line::new(alloc, MOST_IN_CHUNK);
        join_steps(&mut line, &steps, window)?;
        timeline_of(MOST_IN_CHUNK, line)
    }

    /// An equal timeline, which shares the memory of the segments. Cost: that of a table of the chunks.
    ///
    /// # Errors
    ///
    /// `NoMemory` where there is no room.
    pub fn copy(&self) -> Result<Timeline, Refusal>
        ensures same { IsCopyOf result self.now }
        ensures canonical { IsCanonical self.now }
    {
        let chunks = shared(*self.chunks.allocator(), &self.chunks)?;
        Ok(Timeline {
            most: self.most,
            chunks,
        })
    }

    /// The segments, in order, by chunks.
    pub fn segments(&self) -> &[Chunk]
        ensures segments { listed result.now ≡ self.now }
        ensures canonical { IsCanonical self.now }
    {
        &self.chunks
    }

    /// The interval that governs at the moment, by a binary search.
    pub fn governor(&self, at: Moment) -> Option<Winner>
        ensures { result ≡ shows self.now at }
    {
        search::governor(&self.chunks, at)
    }

    /// The least later moment where another interval governs, or none does, by a binary search; `Endless` where it
    /// stays so.
    pub fn next_change(&self, at: Moment) -> End
        ensures { IsUntil (shows self.now) at result }
    {
        search::next_change(&self.chunks, at)
    }

    /// [`Timeline::governor`] and [`Timeline::next_change`], by one search.
    pub fn state(&self, at: Moment) -> (Option<Winner>, End)
        ensures governor { result.0 ≡ shows self.now at }
        ensures until { IsUntil (shows self.now) at result.1 }
    {
        search::state(&self.chunks, at)
    }

    /// What is shown inside the window, and nothing outside. Cost: that of [`Timeline::splice_all`] with one window.
    ///
    /// # Errors
    ///
    /// `NoMemory` where there is no room.
    pub fn clip(&self, window: Span) -> Result<Timeline, Refusal>
        ensures canonical { IfOk result (λ timeline. IsCanonical timeline) }
        ensures shows { IfOk result (λ timeline. (t : ℤ) → shows timeline t ≡ (if covers window t then shows self.now t else None)) }
        ensures refused { OnlyNoMemory result }
    {
        let mut line = Line::new(*self.chunks.allocator(), self.most);
        part::clip(&mut line, &self.chunks, window)?;
        timeline_of(self.most, line)
    }

    /// What the inner timeline shows inside the window, and this one outside. Cost: as for [`Timeline::splice_all`]
    /// with one window.
    ///
    /// # Errors
    ///
    /// `NoMemory` where there is no room.
    pub fn splice(&self, window: Span, inner: &Timeline) -> Result<Timeline, Refusal>
        ensures canonical { IfOk result (λ timeline. IsCanonical timeline) }
        ensures shows { IfOk result (λ timeline. (t : ℤ) → shows timeline t ≡ (if covers window t then shows inner.now t else shows self.now t)) }
        ensures refused { OnlyNoMemory result }
    {
        let mut line = Line::new(*self.chunks.allocator(), self.most);
        part::splice(&mut line, &self.chunks, window, &inner.chunks)?;
        timeline_of(self.most, line)
    }

    /// What the inner timeline shows inside the windows, and this one outside: one repair for all windows of an edit.
    /// [`are_apart`](crate::are_apart) tests windows. Cost: that of a table of the chunks, of three searches for each
    /// window, and of the segments of those chunks that the windows reach into; the other chunks are shared, but for
    /// small ones beside those.
    ///
    /// # Errors
    ///
    /// `NoMemory` where there is no room.
    pub fn splice_all(&self, windows: &[Span], inner: &Timeline) -> Result<Timeline, Refusal>
        requires { IsTrue (are_apart windows.now) }
        ensures canonical { IfOk result (λ timeline. IsCanonical timeline) }
        ensures shows { IfOk result (λ timeline. (t : ℤ) → shows timeline t ≡ (if any_covers windows.now t then shows inner.now t else shows self.now t)) }
        ensures refused { OnlyNoMemory result }
    {
        let mut line = Line::new(*self.chunks.allocator(), self.most);
        part::splice_all(&mut line, &self.chunks, windows, &inner.chunks)?;
        timeline_of(self.most, line)
    }

    /// Whether there are no more segments than so many. Cost: a look at each chunk.
    pub fn has_at_most(&self, most: usize) -> bool
        ensures { result ≡ nat_le (length self.now) most }
    {
        fits(&self.chunks, most)
    }

    /// What entries that come in turn meet of this timeline: what it shows inside their spans, and nothing outside.
    /// [`is_run`](crate::is_run) tests entries. Cost: that of [`Timeline::splice_all`] of what they meet.
    ///
    /// # Errors
    ///
    /// `NoMemory` where there is no room.
    pub fn met(&self, entries: &[Entry]) -> Result<Timeline, Refusal>
        requires { IsTrue (is_run entries.now) }
        ensures canonical { IfOk result (λ met. IsCanonical met) }
        ensures shows { IfOk result (λ met. IsMetBy entries.now self.now met) }
        ensures refused { OnlyNoMemory result }
    {
        let alloc = *self.chunks.allocator();
        let windows = windows_of(alloc, entries)?;
        let nothing = Timeline::new(alloc);
        nothing.splice_all(&windows, self)
    }

    /// The segments as entries, by the ranks of their winners: what others that are laid over this timeline compete with.
    /// Cost: a rank for each segment.
    ///
    /// # Errors
    ///
    /// `NoMemory` where there is no room.
    pub fn ranked<R: Ranks>(&self, ranks: &R) -> Result<Vec<Entry>, Refusal>
        ensures in_turn { IfOk result (λ entries. IsTrue (is_run entries.items)) }
        ensures count { IfOk result (λ entries. length entries.items ≡ length self.now) }
        ensures ranks { IfOk result (λ entries. (t : ℤ) → rank_at entries.items t ≡ option_map (R.rank ranks.now) (shows self.now t)) }
        ensures refused { OnlyNoMemory result }
    {
        let entries = shown_entries(*self.chunks.allocator(), &self.chunks, ranks)?;
        Ok(entries)
    }

    /// This timeline, but where entries that come in turn cover the least of them and of what is shown there, which is
    /// handed in as entries that come in turn too: [`Timeline::ranked`] makes them of what the others meet. No more is
    /// compared than once for each entry of both. Ranks are compared by `before` alone, which counts each comparison.
    /// Cost: some steps for each entry, and that of `splice_all`.
    ///
    /// # Errors
    ///
    /// `NoMemory` where there is no room.
    pub fn lay_run(
        &self,
        shown: &[Entry],
        entries: &[Entry],
        meter: &mut Meter,
    ) -> Result<Timeline, Refusal>
        requires shown { IsTrue (is_run shown.now) }
        requires in_turn { IsTrue (is_run entries.now) }
        ensures canonical { IfOk result (λ timeline. IsCanonical timeline) }
        ensures shows { IfOk result (λ timeline. (t : ℤ) → shows timeline t ≡ (if any_covers (where_they_lie entries.now) t then option_map winner_of_rank (lesser (rank_at shown.now t) (rank_at entries.now t)) else shows self.now t)) }
        ensures compared { meter.new ≤ meter.old + (length shown.now + length entries.now) }
        ensures refused { OnlyNoMemory result }
    {
        match hull_of(entries) {
            Some(window) => {
                let alloc = *self.chunks.allocator();
                let laid = laid_in(alloc, shown, entries, window, meter)?;
                let windows = windows_of(alloc, entries)?;
                self.splice_all(&windows, &laid)
            }
            None => {
                let copy = self.copy()?;
                Ok(copy)
            }
        }
    }
}

/// The law of canonical lists: two that show the same at every instant are equal.
pub fn timeline_laws()
    ensures { CanonicalIsUnique }
{}
