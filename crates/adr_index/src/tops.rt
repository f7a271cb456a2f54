//! The tree of greatest ends over the chunks of an index, of the same shape as that of a chunk.
ghost use Rattle.std.specs.Prelude.{◌≡◌, ◌+◌, ◌*◌, ◌<◌, ◌≤◌, ◌^◌, ◌++◌, IfOk, OnOk, length};
ghost use Rattle.std.specs.List.{AllByRecursion};
ghost use Rattle.adr_index.specs.Chunks.{all_listed, listed, AreChunks};
ghost use Rattle.adr_index.specs.Query.{any_late, hits, looks, reached, wanted_of};
ghost use Rattle.adr_index.specs.Tables.{HasTops};
ghost use Rattle.adr_index.specs.Tree.{any_lasts, IsByStart, IsGreatest, IsTree, IsTreeBut};

use crate::chunk::EntryChunk;
use crate::query::IndexQuery;
use crate::reach::Reach;
use crate::wanted::{Search, Wanted};
use adr_model::Entry;
use adr_rule::Meter;
use std::alloc::AllocError;

/// How many chunks are gone through one by one.
const FEW: usize = 6;

/// Searches the few chunks, up to an entry that lasts and starts too late, and answers whether it came to such a one.
fn scan_chunks<W: Wanted>(
    depth: u32,
    chunks: &[EntryChunk],
    asked: &Search<W>,
    found: &mut Vec<Entry>,
    meter: &mut Meter,
) -> Result<bool, AllocError>
    requires chunks { AreChunks chunks.now }
    requires depth { AllByRecursion (λ c. 2 * length (listed c) ≤ 2 ^ depth) chunks.now }
    requires order { IsByStart (all_listed chunks.now) }
    ensures found { OnOk result (found.new.items ≡ found.old.items ++ wanted_of (W.is_wanted asked.now.wanted.now) (hits (all_listed chunks.now) asked.now.query)) }
    ensures late { IfOk result (λ is_late. is_late ≡ any_late (all_listed chunks.now) asked.now.query) }
    ensures looks { meter.new ≤ meter.old + length chunks.now + 2 * depth * reached (all_listed chunks.now) asked.now.query }
{
    for chunk in chunks {
        if chunk.search(depth, asked, found, meter)? {
            return Ok(true);
        }
    }
    Ok(false)
}

/// Whether an entry of the chunks ends after what is asked for begins, as their tree has it.
fn any_chunk_reaches(chunks: &[EntryChunk], tops: &[Reach], query: &IndexQuery) -> bool
    requires some { 1 < length chunks.now }
    requires lengths { length chunks.now ≤ length tops.now + 1 }
    requires tops { HasTops chunks.now tops.now }
    ensures { result ≡ any_lasts (all_listed chunks.now) query.now.from }
{
    tops[chunks.len() / 2 - 1].is_past(query.from)
}

/// Adds the entries of the chunks that are asked for, as the search of a chunk does, which takes `depth` levels, one
/// more than its entries need.
pub(crate) fn search_chunks<W: Wanted>(
    levels: u32,
    depth: u32,
    chunks: &[EntryChunk],
    tops: &[Reach],
    asked: &Search<W>,
    found: &mut Vec<Entry>,
    meter: &mut Meter,
) -> Result<bool, AllocError>
    requires chunks { AreChunks chunks.now }
    requires depth { AllByRecursion (λ c. 2 * length (listed c) ≤ 2 ^ depth) chunks.now }
    requires levels { length chunks.now ≤ 2 ^ levels }
    requires lengths { length chunks.now ≤ length tops.now + 1 }
    requires tree { IsTree listed 6 levels chunks.now tops.now }
    requires order { IsByStart (all_listed chunks.now) }
    ensures found { OnOk result (found.new.items ≡ found.old.items ++ wanted_of (W.is_wanted asked.now.wanted.now) (hits (all_listed chunks.now) asked.now.query)) }
    ensures late { IfOk result (λ is_late. is_late ≡ any_late (all_listed chunks.now) asked.now.query) }
    ensures looks { meter.new ≤ meter.old + looks (levels + depth) (all_listed chunks.now) asked.now.query }
{
    let count = chunks.len();
    if count < 2 {
        return scan_chunks(depth, chunks, asked, found, meter);
    }
    let middle = count / 2;
    meter.tick();
    if !any_chunk_reaches(chunks, tops, &asked.query) {
        return Ok(false);
    }
    if count <= FEW {
        return scan_chunks(depth, chunks, asked, found, meter);
    }
    let (left, right) = chunks.split_at(middle);
    let (front, _) = tops.split_at(middle - 1);
    let (_, back) = tops.split_at(middle);
    if search_chunks(levels - 1, depth, left, front, asked, found, meter)? {
        return Ok(true);
    }
    search_chunks(levels - 1, depth, right, back, asked, found, meter)
}

/// The greatest end of the few chunks.
fn greatest_of_chunks(chunks: &[EntryChunk]) -> Reach
    requires { AreChunks chunks.now }
    ensures { IsGreatest result (all_listed chunks.now) }
{
    let mut greatest = Reach::nothing();
    for chunk in chunks {
        greatest = greatest.later(chunk.end);
    }
    greatest
}

/// The greatest end of the chunks, as their tree has it.
fn top_of(chunks: &[EntryChunk], tops: &[Reach]) -> Reach
    requires chunks { AreChunks chunks.now }
    requires lengths { length chunks.now ≤ length tops.now + 1 }
    requires tops { HasTops chunks.now tops.now }
    ensures { IsGreatest result (all_listed chunks.now) }
{
    let count = chunks.len();
    if count < 2 {
        return greatest_of_chunks(chunks);
    }
    tops[count / 2 - 1]
}

/// Writes what the tree of greatest ends has of the chunks from a place up to another anew, in place, and answers the
/// greatest of all.
pub(crate) fn rebuild_chunks(
    levels: u32,
    from: usize,
    to: usize,
    chunks: &[EntryChunk],
    tops: &mut [Reach],
) -> Reach
    requires chunks { AreChunks chunks.now }
    requires levels { length chunks.now ≤ 2 ^ levels }
    requires lengths { length chunks.now ≤ length tops.old + 1 }
    requires rest { IsTreeBut listed 6 levels from to chunks.now tops.old }
    ensures tree { IsTree listed 6 levels chunks.now tops.new }
    ensures greatest { IsGreatest result (all_listed chunks.now) }
{
    if to <= from {
        return top_of(chunks, tops);
    }
    let count = chunks.len();
    if count < 2 {
        return greatest_of_chunks(chunks);
    }
    let middle = count / 2;
    if count <= FEW {
        tops[middle - 1] = greatest_of_chunks(chunks);
        return tops[middle - 1];
    }
    let (left, right) = chunks.split_at(middle);
    let (front, back) = tops.split_at_mut(middle - 1);
    let (here, back) = back.split_at_mut(1);
    let left_greatest = rebuild_chunks(levels - 1, from.min(middle), to.min(middle), left, front);
    let (from, to) = (from.saturating_sub(middle), to.saturating_sub(middle));
    let right_greatest = rebuild_chunks(levels - 1, from, to, right, back);
    here[0] = left_greatest.later(right_greatest);
    here[0]
}
