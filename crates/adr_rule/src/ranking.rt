//! Which of two ranks goes first, and the count of such comparisons.
ghost use Rattle.std.specs.Prelude.{◌≡◌, ◌+◌, ◌-◌, ◌<◌, ◌≤◌, ◌^◌, min};
ghost use Rattle.adr_model.specs.Rank.{breaks_tie, goes_before};
ghost use Rattle.adr_rule.specs.Laws.{GoingBeforePassesOn, NoneGoesBeforeItself, OneOfTwoGoesBefore};

use adr_model::Rank;
use std::marker::Model;

/// Counts comparisons and probes, up to 2^128 - 1, where it stays. Contracts see the count.
#[derive(Drop, Debug)]
pub struct Meter {
    count: u128,
}

impl Model for Meter {
    ghost use Rattle.std.specs.Prelude.{ℕ};

    ghost Value = { ℕ };

    ghost view = { λ m. m.count };
}

impl Meter {
    /// A meter that has counted nothing.
    pub fn new() -> Meter
        ensures { result ≡ 0 }
    {
        Meter { count: 0 }
    }

    /// How much was counted.
    pub fn count(&self) -> u128
        ensures value { result ≡ self.now }
        ensures range { result < 2 ^ 128 }
    {
        self.count
    }

    /// Counts one more.
    pub fn tick(&mut self)
        ensures counted { self.new ≡ min (self.old + 1) (2 ^ 128 - 1) }
        ensures most { self.new ≤ self.old + 1 }
    {
        self.count = self.count.saturating_add(1);
    }

    /// Counts that many more, as another meter counted them.
    pub fn add(&mut self, more: u128)
        ensures counted { self.new ≡ min (self.old + more) (2 ^ 128 - 1) }
        ensures most { self.new ≤ self.old + more }
    {
        self.count = self.count.saturating_add(more);
    }
}

// Which of two ranks of one priority goes before the other.
fn goes_first(a: &Rank, b: &Rank) -> bool
    ensures { result ≡ breaks_tie a.now b.now }
{
    a.late < b.late
        || (a.late == b.late
            && (b.written < a.written || (a.written == b.written && a.place < b.place)))
}

/// Whether the first rank goes before the second: the lower priority number does (an absent one is 2^32), then the
/// lesser `late` (where ties go to the latest start, minus the start), then the later write, then the earlier place.
/// It counts one comparison.
pub fn before(a: &Rank, b: &Rank, meter: &mut Meter) -> bool
    ensures order { result ≡ goes_before a.now b.now }
    ensures counted { meter.new ≡ min (meter.old + 1) (2 ^ 128 - 1) }
    ensures most { meter.new ≤ meter.old + 1 }
{
    meter.tick();
    a.priority < b.priority || (a.priority == b.priority && goes_first(a, b))
}

/// The order of ranks is strict and total: no rank goes before itself, the order passes on, and of two ranks one goes
/// before the other.
#[tactic(auto, using(adr_model::proofs::Order::none_goes_before_itself, adr_model::proofs::Order::going_before_passes_on, adr_model::proofs::Order::one_of_two_goes_before))]
pub fn rank_laws()
    ensures strict { NoneGoesBeforeItself }
    ensures passes_on { GoingBeforePassesOn }
    ensures total { OneOfTwoGoesBefore }
{}
