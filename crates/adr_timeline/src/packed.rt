//! Segments as they are stored, in half the memory.
ghost use Rattle.std.specs.Prelude.{◌≡◌, ◌<◌, ◌^◌};
ghost use Rattle.adr_value.specs.Packed.{word_of, high_of, low_of};
ghost use Rattle.adr_time.specs.Spans.{is_before};
ghost use Rattle.adr_timeline.specs.Packed.{end_of as end_of_number, IsEnd, IsMoment};

use adr_model::{Segment, Winner};
use adr_time::{End, Moment};
use std::marker::Model;

/// A segment as timelines store it: in 32 bytes, where a `Segment` takes 64. Contracts see the segment.
///
/// Each of its instants is a number in two halves, which [`PackedSegment::start`] and [`PackedSegment::end`] put
/// together in a few steps.
#[derive(Clone, Copy)]
pub struct PackedSegment {
    start_low: u64,
    end_low: u64,
    written: u64,
    place: u32,
    start_high: i16,
    end_high: i16,
}

const _: () = prove!(size_of::<PackedSegment>() == 32);

impl Model for PackedSegment {
    ghost use Rattle.std.specs.Prelude.{◌<◌, ◌^◌};
    ghost use Rattle.std.proofs.Common.{refl};
    ghost use Rattle.adr_value.specs.Packed.{word_of, high_of, low_of, high_again, low_again};
    ghost use Rattle.adr_model.specs.declared.timeline.Segment.{Segment};
    ghost use Rattle.adr_timeline.specs.Packed.{end_of, number_of, number_again, IsEnd, IsMoment};

    ghost Value = { Segment };

    ghost view = { λ s. record { start = word_of s.start_high s.start_low; end = end_of (word_of s.end_high s.end_low); winner = record { written = s.written; place = s.place } } };

    ghost invariant = { λ s. IsMoment (word_of s.start_high s.start_low) × IsEnd (word_of s.end_high s.end_low) × (s.start_low < 2 ^ 64) × (s.end_low < 2 ^ 64) };

    ghost inverse = { λ s. record { start_low = low_of s.start; end_low = low_of (number_of s.end); written = s.winner.written; place = s.winner.place; start_high = high_of s.start; end_high = high_of (number_of s.end) } };

    ghost inverse_ok = { λ a h. rw (number_again (word_of a.end_high a.end_low), high_again a.start_high a.start_low h.2, low_again a.start_high a.start_low h.2, high_again a.end_high a.end_low h.3, low_again a.end_high a.end_low h.3) refl };
}

/// How many lower halves there are.
const HALVES: i128 = 18_446_744_073_709_551_616;

/// The number that stands for no end, the first after those of moments.
const NO_END: i128 = 253_402_207_201_000_000_000;

/// The upper half of a number.
fn high_of(number: i128) -> i16
    requires { IsEnd number }
    ensures { result ≡ high_of number }
{
    number.div_euclid(HALVES) as i16
}

/// The lower half of a number.
fn low_of(number: i128) -> u64
    ensures low { result ≡ low_of number }
    ensures bound { result < 2 ^ 64 }
{
    number.rem_euclid(HALVES) as u64
}

/// The number of two halves.
fn number(high: i16, low: u64) -> i128
    ensures { result ≡ word_of high low }
{
    high as i128 * HALVES + low as i128
}

/// The number of an end.
fn number_of(end: End) -> i128
    ensures number { IsEnd result }
    ensures end { end_of_number result ≡ end }
{
    match end {
        End::At(end) => end.nanoseconds(),
        End::Endless => NO_END,
    }
}

/// The moment of a number.
fn moment_of(number: i128) -> Moment
    requires { IsMoment number }
    ensures { result ≡ number }
{
    Moment::of(number).unwrap()
}

/// The end that a number stands for.
fn end_of(number: i128) -> End
    requires { IsEnd number }
    ensures { result ≡ end_of_number number }
{
    if number == NO_END {
        End::Endless
    } else {
        End::At(moment_of(number))
    }
}

impl PackedSegment {
    pub(crate) fn of(segment: &Segment) -> PackedSegment
        ensures { result ≡ segment.now }
    {
        let start = segment.start.nanoseconds();
        let end = number_of(segment.end);
        PackedSegment {
            start_low: low_of(start),
            end_low: low_of(end),
            written: segment.winner.written,
            place: segment.winner.place,
            start_high: high_of(start),
            end_high: high_of(end),
        }
    }

    /// When it starts.
    pub fn start(&self) -> Moment
        ensures { result ≡ self.now.start }
    {
        moment_of(number(self.start_high, self.start_low))
    }

    /// When it ends, or `Endless`.
    pub fn end(&self) -> End
        ensures { result ≡ self.now.end }
    {
        end_of(number(self.end_high, self.end_low))
    }

    /// Whether it ends after the moment: a comparison of two numbers, as that of no end comes after each moment's.
    pub(crate) fn is_open(&self, at: Moment) -> bool
        ensures { result ≡ is_before at self.now.end }
    {
        at.nanoseconds() < number(self.end_high, self.end_low)
    }

    /// Which interval governs it.
    pub fn winner(&self) -> Winner
        ensures { result ≡ self.now.winner }
    {
        Winner {
            written: self.written,
            place: self.place,
        }
    }

    /// The segment, in fields that can be named.
    pub fn segment(&self) -> Segment
        ensures { result ≡ self.now }
    {
        Segment {
            start: self.start(),
            end: self.end(),
            winner: self.winner(),
        }
    }

    /// Gives it the end of the other.
    pub(crate) fn end_with(&mut self, other: &PackedSegment)
        ensures { self.new ≡ record self.old { end = other.now.end } }
    {
        self.end_low = other.end_low;
        self.end_high = other.end_high;
    }
}
