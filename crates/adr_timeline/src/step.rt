//! Steps: the least rank from moment to moment, by halves that are merged.
ghost use Rattle.std.specs.Prelude.{◌≡◌, ◌+◌, ◌*◌, ◌<◌, ◌≤◌, ◌↔◌, ℤ, [], ◌++◌, ◌∷◌, IfOk, IsTrue, OnOk, None, drop, take, length, map};
ghost use Rattle.adr_timeline.specs.Parts.{joined_all, part};
ghost use Rattle.adr_timeline.specs.Steps.{Adds, AreRanked, IsInOrder, IsMergeOf, IsStepTo, first_from, goes_left as is_left_next, is_run as are_in_turn, starts_from as starts_from_end, steps_in_turn, lesser, own_segment as segment_of, piece, pieces, rank_at, rank_from, rise, rises, steps_of};

use crate::line::Line;
use crate::list::{StepList, StepsInTurn};
use crate::part::trimmed;
use adr_model::{Entry, Rank, Segment, Winner};
use adr_rule::{Meter, before};
use adr_time::{End, Moment, Span};
use std::alloc::{AllocError, Global};

/// The least rank from a moment on, up to the next step; None where no entry is.
#[derive(Clone, Copy)]
pub(crate) struct RankStep {
    pub(crate) from: Moment,
    pub(crate) rank: Option<Rank>,
}

/// The rank that goes before the other, where there are two: only then they are compared.
fn lesser(first: Option<Rank>, second: Option<Rank>, meter: &mut Meter) -> Option<Rank>
    ensures lesser { result ≡ lesser first second }
    ensures compared { meter.new ≤ meter.old + rise first * rise second }
{
    match (first, second) {
        (Some(one), Some(other)) => {
            if before(&other, &one, meter) {
                second
            } else {
                first
            }
        }
        (None, _) => second,
        _ => first,
    }
}

/// Whether both are the same rank, or neither is there.
fn is_same(one: &Option<Rank>, other: &Option<Rank>) -> bool
    ensures { IsTrue result ↔ (one.now ≡ other.now) }
{
    match (one, other) {
        (Some(one), Some(other)) => {
            one.place == other.place
                && one.written == other.written
                && one.priority == other.priority
                && one.late == other.late
        }
        (None, None) => true,
        _ => false,
    }
}

/// Puts the step to a rank at the end, unless that is the rank of the step before it.
fn push_change(
    steps: &mut Vec<RankStep>,
    before: Option<Rank>,
    from: Moment,
    rank: Option<Rank>,
) -> Result<(), AllocError>
    ensures { OnOk result (Adds (IsStepTo before from rank) steps.old.items steps.new.items) }
{
    if !is_same(&rank, &before) {
        steps.push(RankStep { from, rank })?;
    }
    Ok(())
}

/// Whether the next step is the left list's: that of the right one is not earlier.
fn goes_left<R: StepList>(left: &[RankStep], right: R, passed: usize) -> bool
    ensures { result ≡ is_left_next left.now (drop passed (R.listed right)) }
{
    if right.count() <= passed {
        return true;
    }
    match left.first() {
        Some(step) => step.from <= right.at(passed).from,
        None => false,
    }
}

/// Puts two lists of steps at the end of others, merged into one that has the lesser of both at each moment. A step that
/// changes nothing there is left out: where many entries lie over each other, few steps are left. At most one comparison
/// for a step up.
pub(crate) fn merge<R: StepList>(
    steps: &mut Vec<RankStep>,
    left: &[RankStep],
    right: R,
    meter: &mut Meter,
) -> Result<(), AllocError>
    requires left { IsInOrder left.now }
    requires right { IsInOrder (R.listed right) }
    ensures merged { OnOk result (Adds (IsMergeOf left.now (R.listed right)) steps.old.items steps.new.items) }
    ensures compared { meter.new ≤ meter.old + (rises left.now + rises (R.listed right)) }
{
    let count = right.count();
    let mut passed_left = 0;
    let mut passed_right = 0;
    let mut left_rank = None;
    let mut right_rank = None;
    let mut shown = None;
    while passed_left < left.len() || passed_right < count {
        let from;
        if goes_left(&left[passed_left..], right, passed_right) {
            let step = left[passed_left];
            from = step.from;
            left_rank = step.rank;
            passed_left += 1;
        } else {
            let step = right.at(passed_right);
            from = step.from;
            right_rank = step.rank;
            passed_right += 1;
        }
        let rank = lesser(left_rank, right_rank, meter);
        push_change(steps, shown, from, rank)?;
        shown = rank;
    }
    Ok(())
}

/// Puts the steps of one entry at the end of others: up at its start and down at its end, or none where it covers no
/// moment.
pub(crate) fn add_steps_of(steps: &mut Vec<RankStep>, entry: &Entry) -> Result<(), AllocError>
    ensures { OnOk result (steps.new.items ≡ steps.old.items ++ steps_of entry.now) }
{
    if !entry.span.lasts() {
        return Ok(());
    }
    steps.push(RankStep {
        from: entry.span.start,
        rank: Some(entry.rank),
    })?;
    if let End::At(end) = entry.span.end {
        steps.push(RankStep {
            from: end,
            rank: None,
        })?;
    }
    Ok(())
}

/// Whether the first of the entries does not start before the end.
fn starts_from(end: End, entries: &[Entry]) -> bool
    ensures { result ≡ starts_from_end end entries.now }
{
    match entries.split_first() {
        Some((entry, _)) => !entry.span.start.is_before(end),
        None => true,
    }
}

/// Whether the entries come in turn: they last, and each ends before the next one starts, or where it starts.
pub fn is_run(entries: &[Entry]) -> bool
    ensures { result ≡ are_in_turn entries.now }
{
    let mut entries = entries;
    while let Some((entry, later)) = entries.split_first() {
        if !entry.span.lasts() || !starts_from(entry.span.end, later) {
            return false;
        }
        entries = later;
    }
    true
}

/// Puts the steps of each entry in turn at the end of others.
pub(crate) fn add_run(steps: &mut Vec<RankStep>, entries: &[Entry]) -> Result<(), AllocError>
    ensures { OnOk result (steps.new.items ≡ steps.old.items ++ steps_in_turn entries.now) }
{
    for entry in entries {
        add_steps_of(steps, entry)?;
    }
    Ok(())
}

/// Puts the steps of the least rank among an entry and others that come in turn at the end of others. Only those of the
/// one are put at the end of the other list first.
fn rank_over_run(
    steps: &mut Vec<RankStep>,
    other: &mut Vec<RankStep>,
    one: &Entry,
    run: &[Entry],
    meter: &mut Meter,
) -> Result<(), AllocError>
    requires in_turn { IsTrue (are_in_turn run.now) }
    ensures ranked { OnOk result (Adds (AreRanked (one.now ∷ run.now)) steps.old.items steps.new.items) }
    ensures kept { OnOk result (other.new.items ≡ other.old.items) }
    ensures compared { meter.new ≤ meter.old + 2 * (1 + length run.now) }
{
    let start = other.len();
    add_steps_of(other, one)?;
    let (_, left) = other.split_at(start);
    merge(steps, left, StepsInTurn::of(run), meter)?;
    other.truncate(start);
    Ok(())
}

/// Puts the steps of the other list from a place up to a later one, merged with those from there on, at the end of
/// others, and takes them off the other list.
fn merge_from(
    steps: &mut Vec<RankStep>,
    other: &mut Vec<RankStep>,
    start: usize,
    middle: usize,
    meter: &mut Meter,
) -> Result<(), AllocError>
    requires places { (start ≤ middle) × (middle ≤ length other.old.items) }
    requires left { IsInOrder (drop start (take middle other.old.items)) }
    requires right { IsInOrder (drop middle other.old.items) }
    ensures merged { OnOk result (Adds (IsMergeOf (drop start (take middle other.old.items)) (drop middle other.old.items)) steps.old.items steps.new.items) }
    ensures kept { OnOk result (other.new.items ≡ take start other.old.items) }
    ensures compared { meter.new ≤ meter.old + (rises (drop start (take middle other.old.items)) + rises (drop middle other.old.items)) }
{
    let (before, right) = other.split_at(middle);
    let (_, left) = before.split_at(start);
    merge(steps, left, right, meter)?;
    other.truncate(start);
    Ok(())
}

/// Puts the steps of the least rank among the entries at the end of others. They are parted in their middle, and the
/// steps of the parts are merged from the end of the other list: for k entries at most about k log k steps, and about k
/// where many lie over each other, as most levels have few steps then.
fn rank(
    steps: &mut Vec<RankStep>,
    other: &mut Vec<RankStep>,
    entries: &[Entry],
    meter: &mut Meter,
) -> Result<(), AllocError>
    ensures ranked { OnOk result (Adds (AreRanked entries.now) steps.old.items steps.new.items) }
    ensures kept { OnOk result (other.new.items ≡ other.old.items) }
    ensures compared { meter.new ≤ meter.old + length entries.now * (2 * length entries.now + 1) }
{
    if is_run(entries) {
        return add_run(steps, entries);
    }
    let Some((first, later)) = entries.split_first() else {
        return Ok(());
    };
    if is_run(later) {
        return rank_over_run(steps, other, first, later, meter);
    }
    let (front, back) = entries.split_at(entries.len() / 2);
    let start = other.len();
    rank(other, steps, front, meter)?;
    let middle = other.len();
    rank(other, steps, back, meter)?;
    merge_from(steps, other, start, middle, meter)
}

/// Puts the steps of the least rank among the entries in the place of those that are there. Both lists have room for
/// all of them before the first is put there, the second where there are halves to merge.
#[tactic(auto, using(crate::proofs::Stepped::from_none))]
pub(crate) fn rank_anew(
    steps: &mut Vec<RankStep>,
    other: &mut Vec<RankStep>,
    entries: &[Entry],
    meter: &mut Meter,
) -> Result<(), AllocError>
    ensures order { OnOk result (IsInOrder steps.new.items) }
    ensures few { OnOk result (length steps.new.items ≤ 2 * length entries.now) }
    ensures ranks { OnOk result ((t : ℤ) → rank_from None steps.new.items t ≡ rank_at entries.now t) }
    ensures compared { meter.new ≤ meter.old + length entries.now * (2 * length entries.now + 1) }
{
    let room = entries.len().saturating_mul(2);
    steps.clear();
    steps.reserve(room)?;
    if entries.len() > 1 && !is_run(&entries[1..]) {
        other.clear();
        other.reserve(room)?;
    }
    rank(steps, other, entries, meter)
}

/// The steps of the least rank among the entries.
pub(crate) fn ranked(
    alloc: Global,
    entries: &[Entry],
    meter: &mut Meter,
) -> Result<Vec<RankStep>, AllocError>
    ensures order { IfOk result (λ steps. IsInOrder steps.items) }
    ensures few { IfOk result (λ steps. length steps.items ≤ 2 * length entries.now) }
    ensures ranks { IfOk result (λ steps. (t : ℤ) → rank_from None steps.items t ≡ rank_at entries.now t) }
    ensures compared { meter.new ≤ meter.old + length entries.now * (2 * length entries.now + 1) }
{
    let mut steps = Vec::new(alloc);
    let mut other = Vec::new(alloc);
    rank_anew(&mut steps, &mut other, entries, meter)?;
    drop(other);
    Ok(steps)
}

/// Puts the segment from a step up to the next at the end of others, as far as it is inside the window.
fn join_step(line: &mut Line, step: &RankStep, until: End, window: &Span) -> Result<(), AllocError>
    ensures { OnOk result (line.new ≡ joined_all line.old (part (Some window.now.start) window.now.end (piece step.now.from until step.now.rank []))) }
{
    let Some(rank) = step.rank else {
        return Ok(());
    };
    let winner = Winner {
        written: rank.written,
        place: rank.place,
    };
    let whole = Segment {
        start: step.from,
        end: until,
        winner,
    };
    let inside = trimmed(&Some(window.start), &window.end, &whole);
    line.join_some(&inside)
}

/// The segment of an entry that nothing goes before.
fn own_segment(entry: &Entry) -> Segment
    ensures { result ≡ segment_of entry.now }
{
    Segment {
        start: entry.span.start,
        end: entry.span.end,
        winner: Winner {
            written: entry.rank.written,
            place: entry.rank.place,
        },
    }
}

/// Puts the segments of entries that come in turn at the end of a line, as far as they are inside the window.
pub(crate) fn join_run(line: &mut Line, entries: &[Entry], window: &Span) -> Result<(), AllocError>
    ensures { OnOk result (line.new ≡ joined_all line.old (part (Some window.now.start) window.now.end (map segment_of entries.now))) }
{
    let from = Some(window.start);
    for entry in entries {
        let inside = trimmed(&from, &window.end, &own_segment(entry));
        line.join_some(&inside)?;
    }
    Ok(())
}

/// Where the first of the steps begins.
fn first_from(steps: &[RankStep]) -> End
    ensures { result ≡ first_from steps.now }
{
    match steps.first() {
        Some(step) => End::At(step.from),
        None => End::Endless,
    }
}

/// Puts the segments of the winners inside the window at the end of a line.
pub(crate) fn join_steps(
    line: &mut Line,
    steps: &[RankStep],
    window: Span,
) -> Result<(), AllocError>
    ensures { OnOk result (line.new ≡ joined_all line.old (part (Some window.start) window.end (pieces steps.now))) }
{
    for (place, step) in steps.iter().enumerate() {
        let until = first_from(&steps[place + 1..]);
        join_step(line, step, until, &window)?;
    }
    Ok(())
}
