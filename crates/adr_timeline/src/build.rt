//! What wins inside windows, window by window at the end of one line.
ghost use Rattle.std.specs.Prelude.{◌≡◌, ◌+◌, ◌<◌, ◌≤◌, ℤ, [], None, IsTrue, OnOk, if◌then◌else◌};
ghost use Rattle.adr_refusal.specs.Answer.{OnlyNoMemory};
ghost use Rattle.adr_model.specs.Entries.{meeting};
ghost use Rattle.adr_model.specs.Governor.{winner_at};
ghost use Rattle.adr_model.specs.Timeline.{shows, IsCanonical};
ghost use Rattle.adr_timeline.specs.Build.{most_compared, most_compared_all, Takes};
ghost use Rattle.adr_timeline.specs.Windows.{any_covers, are_apart};

use crate::line::Line;
use crate::near::{Near, find_meeting};
use crate::step::{RankStep, is_run, join_run, join_steps, rank_anew};
use adr_model::Entry;
use adr_rule::Meter;
use adr_time::Span;
use adr_value::Refusal;
use std::alloc::Global;

/// Where the entries are found that compete, window by window.
pub trait Source {
    ghost use Rattle.std.specs.Prelude.{◌≡◌, IfOk, List};
    ghost use Rattle.adr_refusal.specs.Answer.{OnlyNoMemory};
    ghost use Rattle.adr_model.specs.declared.entry.Entry.{Entry};
    ghost use Rattle.adr_model.specs.Entries.{meeting};

    ghost entries: { Self → List Entry };

    /// The entries that meet the window. `NoMemory` where there is no room for them.
    fn meeting(&self, alloc: Global, window: Span) -> Result<Vec<Entry>, Refusal>
        ensures met { IfOk result (λ found. found.items ≡ meeting (entries self.now) window) }
        ensures refused { OnlyNoMemory result };
}

/// Lists that are filled anew for each window, so that their memory is taken once for all.
#[derive(Drop)]
struct Workspace {
    found: Vec<Entry>,
    steps: Vec<RankStep>,
    other: Vec<RankStep>,
}

impl Workspace {
    fn new(alloc: Global) -> Workspace {
        Workspace {
            found: Vec::new(alloc),
            steps: Vec::new(alloc),
            other: Vec::new(alloc),
        }
    }
}

/// Puts the segments of the winners inside the window, which lie among the entries near it, at the end of a line.
/// Entries that come in turn, as one alone does, are put there straight away.
#[tactic(auto, using(crate::proofs::Runs::run_taken))]
fn join_window(
    line: &mut Line,
    work: &mut Workspace,
    near: &[Entry],
    window: &Span,
    meter: &mut Meter,
) -> Result<(), Refusal>
    ensures taken { OnOk result (Takes (meeting near.now window.now) window.now line.old line.new) }
    ensures compared { meter.new ≤ meter.old + most_compared near.now window.now }
    ensures refused { OnlyNoMemory result }
{
    find_meeting(&mut work.found, near, window)?;
    if is_run(&work.found) {
        join_run(line, &work.found, window)?;
        return Ok(());
    }
    rank_anew(&mut work.steps, &mut work.other, &work.found, meter)?;
    join_steps(line, &work.steps, *window)?;
    Ok(())
}

/// Puts the segments of the winners inside the windows at the end of an empty line.
pub(crate) fn join_windows<S: Source>(
    line: &mut Line,
    alloc: Global,
    source: &S,
    windows: &[Span],
    meter: &mut Meter,
) -> Result<(), Refusal>
    requires empty { line.old ≡ [] }
    requires apart { IsTrue (are_apart windows.now) }
    ensures canonical { OnOk result (IsCanonical line.new) }
    ensures shows { OnOk result ((t : ℤ) → shows line.new t ≡ (if any_covers windows.now t then winner_at (S.entries source.now) t else None)) }
    ensures compared { meter.new ≤ meter.old + most_compared_all (S.entries source.now) windows.now }
    ensures refused { OnlyNoMemory result }
{
    let mut work = Workspace::new(alloc);
    let mut near = Near::nothing(alloc);
    let mut rest = windows;
    while let Some((window, later)) = rest.split_first() {
        near.go_to(alloc, source, window, later)?;
        join_window(line, &mut work, &near.entries, window, meter)?;
        rest = later;
    }
    Ok(())
}
