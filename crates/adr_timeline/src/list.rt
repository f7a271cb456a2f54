//! Lists of steps that are read by place: those in a row, and those that entries in turn stand for.
ghost use Rattle.std.specs.Prelude.{◌≡◌, IsTrue, length};
ghost use Rattle.adr_timeline.specs.Steps.{is_run, steps_in_turn};

use crate::step::RankStep;
use adr_model::Entry;
use adr_time::End;

/// Steps that are read by place.
pub(crate) trait StepList: Copy {
    ghost use Rattle.std.specs.Prelude.{◌≡◌, ◌<◌, List, Some, length, slice_get};
    ghost use Rattle.adr_timeline.specs.declared.step.RankStep.{RankStep};

    ghost listed: { Self → List RankStep };

    /// How many steps there are.
    fn count(self) -> usize
        ensures { result ≡ length (listed self) };

    /// The step at a place.
    fn at(self, place: usize) -> RankStep
        requires { place < length (listed self) }
        ensures { slice_get (listed self) place ≡ Some result };
}

impl<'a> StepList for &'a [RankStep] {
    ghost listed = { λ steps. steps.now };

    fn count(self) -> usize {
        self.len()
    }

    fn at(self, place: usize) -> RankStep {
        self[place]
    }
}

/// How many steps entries that come in turn have: two each, but one where the last is endless.
fn count_in_turn(entries: &[Entry]) -> usize
    requires { IsTrue (is_run entries.now) }
    ensures { result ≡ length (steps_in_turn entries.now) }
{
    let Some(last) = entries.last() else {
        return 0;
    };
    match last.span.end {
        End::At(_) => 2 * entries.len(),
        End::Endless => 2 * entries.len() - 1,
    }
}

/// The steps of entries that come in turn, as the entries stand for them: up at each start, and down at each end.
#[derive(Clone, Copy)]
pub(crate) struct StepsInTurn<'a> {
    entries: &'a [Entry],
    count: usize,
    ghost in_turn: { IsTrue (is_run entries.now) },
    ghost counted: { count ≡ length (steps_in_turn entries.now) },
}

impl<'a> StepsInTurn<'a> {
    pub(crate) fn of(entries: &'a [Entry]) -> StepsInTurn<'a>
        requires { IsTrue (is_run entries.now) }
        ensures { result.entries.now ≡ entries.now }
    {
        StepsInTurn {
            entries,
            count: count_in_turn(entries),
        }
    }
}

impl<'a> StepList for StepsInTurn<'a> {
    ghost listed = { λ steps. steps_in_turn steps.entries.now };

    fn count(self) -> usize {
        self.count
    }

    fn at(self, place: usize) -> RankStep {
        let entry = &self.entries[place / 2];
        if place % 2 == 0 {
            return RankStep {
                from: entry.span.start,
                rank: Some(entry.rank),
            };
        }
        match entry.span.end {
            End::At(end) => RankStep {
                from: end,
                rank: None,
            },
            End::Endless => unreachable!(),
        }
    }
}
