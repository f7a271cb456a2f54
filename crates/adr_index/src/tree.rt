//! A tree of greatest ends over entries in order of their starts. It is implicit: a slice of two or more is parted in
//! its middle, and the greatest end of all of it stands before the ends of the second part.
ghost use Rattle.std.specs.Prelude.{◌≡◌, ◌+◌, ◌*◌, ◌<◌, ◌≤◌, ◌^◌, ◌++◌, IfOk, OnOk, length};
ghost use Rattle.adr_index.specs.Index.{digits as digits_of};
ghost use Rattle.adr_index.specs.Query.{any_late, hits, if_hit, looks, wanted_of};
ghost use Rattle.adr_index.specs.Tree.{any_lasts, only, AreSearched, HasEnds, IsByStart, IsGreatest, IsTree};

use crate::by_end::last_of;
use crate::query::{IndexQuery, is_hit, is_late};
use crate::reach::Reach;
use crate::wanted::{Search, Wanted};
use adr_model::Entry;
use adr_rule::Meter;
use adr_time::{End, Span};
use std::alloc::AllocError;

/// How many entries are gone through one by one.
const FEW: usize = 8;

/// How many binary digits the number has.
pub(crate) fn digits(number: usize) -> u32
    ensures digits { result ≡ digits_of number }
    ensures below { number < 2 ^ result }
    ensures most { result ≤ 64 }
{
    usize::BITS - number.leading_zeros()
}

/// Adds the entry, where it is asked for.
fn keep_hit<W: Wanted>(
    entry: &Entry,
    asked: &Search<W>,
    found: &mut Vec<Entry>,
) -> Result<(), AllocError>
    ensures { OnOk result (found.new.items ≡ found.old.items ++ wanted_of (W.is_wanted asked.now.wanted.now) (if_hit entry.now asked.now.query)) }
{
    if is_hit(entry, &asked.query) && asked.wanted.wants(entry.rank.written) {
        let end: End = entry.span.end;
        let span = Span {
            start: entry.span.start,
            end,
        };
        let hit = Entry {
            rank: entry.rank,
            span,
        };
        found.push(hit)?;
    }
    Ok(())
}

/// Adds the few entries that are asked for, in order, up to one that lasts and starts too late, and answers whether it
/// came to such a one. Each look at an entry is a tick.
fn scan<W: Wanted>(
    entries: &[Entry],
    asked: &Search<W>,
    found: &mut Vec<Entry>,
    meter: &mut Meter,
) -> Result<bool, AllocError>
    requires order { IsByStart entries.now }
    ensures found { OnOk result (found.new.items ≡ found.old.items ++ wanted_of (W.is_wanted asked.now.wanted.now) (hits entries.now asked.now.query)) }
    ensures late { IfOk result (λ is_late. is_late ≡ any_late entries.now asked.now.query) }
    ensures looks { meter.new ≤ meter.old + length entries.now }
{
    for entry in entries {
        meter.tick();
        if is_late(entry, &asked.query) {
            return Ok(true);
        }
        keep_hit(entry, asked, found)?;
    }
    Ok(false)
}

/// Whether an entry ends after what is asked for begins, as the last one does or as their tree has it.
fn any_reaches(is_by_end: bool, entries: &[Entry], greatest: &[Reach], query: &IndexQuery) -> bool
    requires some { 1 < length entries.now }
    requires lengths { length entries.now ≤ length greatest.now + 1 }
    requires ends { HasEnds is_by_end entries.now greatest.now }
    ensures { result ≡ any_lasts entries.now query.now.from }
{
    if is_by_end {
        return last_of(entries).is_past(query.from);
    }
    greatest[entries.len() / 2 - 1].is_past(query.from)
}

/// Adds the entries that are asked for, in order, and answers whether it came to one that lasts and starts too late.
/// They are in order of their ends too, or have a tree of these. Each look at an entry or at an end is a tick. A level
/// more than the entries need pays for the few that are gone through one by one.
pub(crate) fn search<W: Wanted>(
    levels: u32,
    is_by_end: bool,
    entries: &[Entry],
    greatest: &[Reach],
    asked: &Search<W>,
    found: &mut Vec<Entry>,
    meter: &mut Meter,
) -> Result<bool, AllocError>
    requires levels { 2 * length entries.now ≤ 2 ^ levels }
    requires lengths { length entries.now ≤ length greatest.now + 1 }
    requires ends { AreSearched is_by_end levels entries.now greatest.now }
    requires order { IsByStart entries.now }
    ensures found { OnOk result (found.new.items ≡ found.old.items ++ wanted_of (W.is_wanted asked.now.wanted.now) (hits entries.now asked.now.query)) }
    ensures late { IfOk result (λ is_late. is_late ≡ any_late entries.now asked.now.query) }
    ensures looks { meter.new ≤ meter.old + looks levels entries.now asked.now.query }
{
    let count = entries.len();
    if count < 2 {
        return scan(entries, asked, found, meter);
    }
    let middle = count / 2;
    meter.tick();
    if !any_reaches(is_by_end, entries, greatest, &asked.query) {
        return Ok(false);
    }
    if count <= FEW {
        return scan(entries, asked, found, meter);
    }
    let (left, right) = entries.split_at(middle);
    let (front, _) = greatest.split_at(middle - 1);
    let (_, back) = greatest.split_at(middle);
    if search(levels - 1, is_by_end, left, front, asked, found, meter)? {
        return Ok(true);
    }
    search(levels - 1, is_by_end, right, back, asked, found, meter)
}

/// The greatest end of the few entries.
fn greatest_of(entries: &[Entry]) -> Reach
    ensures { IsGreatest result entries.now }
{
    let mut greatest = Reach::nothing();
    for entry in entries {
        greatest = greatest.later(Reach::of(entry));
    }
    greatest
}

/// Writes the tree of greatest ends anew, in place, and answers the greatest of all.
pub(crate) fn rebuild(levels: u32, entries: &[Entry], greatest: &mut [Reach]) -> Reach
    requires levels { length entries.now ≤ 2 ^ levels }
    requires lengths { length entries.now ≤ length greatest.old + 1 }
    ensures tree { IsTree only 8 levels entries.now greatest.new }
    ensures greatest { IsGreatest result entries.now }
{
    let count = entries.len();
    if count < 2 {
        return greatest_of(entries);
    }
    let middle = count / 2;
    if count <= FEW {
        greatest[middle - 1] = greatest_of(entries);
        return greatest[middle - 1];
    }
    let (left, right) = entries.split_at(middle);
    let (front, back) = greatest.split_at_mut(middle - 1);
    let (here, back) = back.split_at_mut(1);
    let left_greatest = rebuild(levels - 1, left, front);
    let right_greatest = rebuild(levels - 1, right, back);
    here[0] = left_greatest.later(right_greatest);
    here[0]
}
