//! Spans: from a moment up to an end.
ghost use Rattle.std.specs.Prelude.{◌≡◌, ◌↔◌, ◌&&◌, ◌+ℤ◌, IsTrue, false, Ok, Err, if◌then◌else◌};
ghost use Rattle.adr_refusal.specs.declared.refusal.Refusal.TheVariants.{TimeRange};
ghost use Rattle.jiff_core.specs.Calendar.{IsWithin};
ghost use Rattle.jiff.specs.Words.{IsTimestampNanos};
ghost use Rattle.jiff_core.specs.Span.{invariant_nanos, month_magnitude};
ghost use Rattle.adr_time.specs.Calendar.{is_in_range_sum, is_moment, sum_in_utc};
ghost use Rattle.adr_time.specs.Ends.{NeedsOnlyItsSum, NeedsOnlyItsYearAndSum, end_after, is_on_calendar, moment_after};
ghost use Rattle.adr_time.specs.Spans.{Covers, Meets, covers, meets};
ghost use Rattle.adr_time.specs.declared.span.End.TheVariants.{At as EndsAt};

use crate::{Length, Moment};
use adr_refusal::Refusal;
use jiff::tz::TimeZone;

/// When something ends: at a moment, which is no longer part of it, or never.
#[derive(Clone, Copy, PartialEq, Eq, Debug)]
pub enum End {
    /// At this moment.
    At(Moment),
    /// Never.
    Endless,
}

/// The time from a start, which it covers, up to an end, which it does not.
///
/// A span whose end is not after its start covers nothing.
#[derive(Clone, Copy, PartialEq, Eq, Debug)]
pub struct Span {
    /// The first moment that is covered.
    pub start: Moment,
    /// The end, which is not covered.
    pub end: End,
}

impl Moment {
    ghost use Rattle.std.specs.Int.{int_max, int_min};
    ghost use Rattle.adr_time.specs.Spans.{IsBefore, is_before};

    /// Whether the moment comes before the end.
    pub fn is_before(self, end: End) -> bool
        ensures test { result ≡ is_before self end }
        ensures meaning { IsTrue result ↔ IsBefore self end }
    {
        match end {
            End::At(end) => self < end,
            End::Endless => true,
        }
    }

    /// The earlier of two moments.
    pub fn earlier(self, other: Moment) -> Moment
        ensures { result ≡ int_min self other }
    {
        if other < self { other } else { self }
    }

    /// The later of two moments.
    pub fn later(self, other: Moment) -> Moment
        ensures { result ≡ int_max self other }
    {
        if other < self { self } else { other }
    }
}

impl End {
    ghost use Rattle.adr_time.specs.Spans.{earlier_end, ends_at, later_end};

    /// Whether the end is that moment.
    pub fn is_at(self, moment: Moment) -> bool
        ensures test { result ≡ ends_at self moment }
        ensures meaning { IsTrue result ↔ (self ≡ EndsAt moment) }
    {
        match self {
            End::At(end) => end == moment,
            End::Endless => false,
        }
    }

    /// The earlier of two ends.
    pub fn earlier(self, other: End) -> End
        ensures { result ≡ earlier_end self other }
    {
        let End::At(first) = self else {
            return other;
        };
        let End::At(second) = other else {
            return self;
        };
        End::At(first.earlier(second))
    }

    /// The later of two ends.
    pub fn later(self, other: End) -> End
        ensures { result ≡ later_end self other }
    {
        let End::At(first) = self else {
            return self;
        };
        let End::At(second) = other else {
            return other;
        };
        End::At(first.later(second))
    }
}

impl Span {
    ghost use Rattle.adr_time.specs.Spans.{Lasts, lasts, spanned};

    /// Whether the span covers some moment.
    pub fn lasts(&self) -> bool
        ensures test { result ≡ lasts self.now }
        ensures meaning { IsTrue result ↔ Lasts self.now }
    {
        self.start.is_before(self.end)
    }

    /// The span from the earlier start to the later end.
    pub fn hull(&self, other: &Span) -> Span
        ensures { result ≡ spanned self.now other.now }
    {
        Span {
            start: self.start.earlier(other.start),
            end: self.end.later(other.end),
        }
    }
}

/// Whether the moment lies in the span: the start does, and the end does not.
pub fn covers(span: &Span, moment: Moment) -> bool
    ensures test { result ≡ covers span.now moment }
    ensures meaning { IsTrue result ↔ Covers span.now moment }
{
    span.start <= moment && moment.is_before(span.end)
}

/// Whether some moment lies in both spans. Spans that only touch share none.
#[tactic(auto, using(crate::proofs::SpanLemmas::meets_meaning))]
pub fn meets(a: &Span, b: &Span) -> bool
    ensures test { result ≡ meets a.now b.now }
    ensures meaning { IsTrue result ↔ Meets a.now b.now }
{
    a.lasts() && b.lasts() && a.start.is_before(b.end) && b.start.is_before(a.end)
}

// The moment that many nanoseconds after 1970-01-01T00:00:00Z.
fn moment_at(nanoseconds: i128) -> Result<Moment, Refusal>
    ensures { result ≡ (if is_moment nanoseconds then Ok nanoseconds else Err TimeRange) }
{
    Moment::of(nanoseconds).ok_or(Refusal::TimeRange)
}

// The nanoseconds of a moment, and those of a span with no years and months, a day being 24 hours.
fn nanoseconds_after(start: Moment, span: &jiff_core::Span) -> i128
    ensures value { result ≡ start +ℤ invariant_nanos span.now }
    ensures bound { IsWithin 5_000_000_000_000_000_000_000 result }
    ensures in_range { IsTimestampNanos start }
{
    start.nanoseconds() + span.invariant_nanos()
}

// The moment that lies so many days, of 24 hours, and a time after another.
fn after_days(start: Moment, span: &jiff_core::Span) -> Result<Moment, Refusal>
    requires { month_magnitude span.now ≡ 0 }
    ensures value { result ≡ moment_after start span.now }
    ensures forward { span.now.negative ≡ false → is_in_range_sum start span.now ≡ is_moment (sum_in_utc start span.now) }
    ensures either { is_in_range_sum start span.now ≡ (is_on_calendar start span.now && is_moment (sum_in_utc start span.now)) }
{
    moment_at(nanoseconds_after(start, span))
}

// The moment that lies a span after another, on the calendar of UTC.
fn after_months(start: Moment, span: jiff::Span) -> Result<Moment, Refusal>
    ensures value { result ≡ moment_after start span }
    ensures forward { span.negative ≡ false → is_in_range_sum start span ≡ is_moment (sum_in_utc start span) }
    ensures either { is_in_range_sum start span ≡ (is_on_calendar start span && is_moment (sum_in_utc start span)) }
{
    let shown = start.timestamp().to_zoned(TimeZone::UTC);
    match shown.checked_add(span) {
        Ok(end) => Ok(Moment::of_timestamp(end.timestamp())),
        Err(_) => Err(Refusal::TimeRange),
    }
}

// The moment that lies a span after another. Only years and months need the calendar.
fn after(start: Moment, span: &jiff_core::Span) -> Result<Moment, Refusal>
    ensures value { result ≡ moment_after start span.now }
    ensures forward { span.now.negative ≡ false → is_in_range_sum start span.now ≡ is_moment (sum_in_utc start span.now) }
    ensures either { is_in_range_sum start span.now ≡ (is_on_calendar start span.now && is_moment (sum_in_utc start span.now)) }
{
    if span.years == 0 && span.months == 0 {
        return after_days(start, span);
    }
    after_months(start, jiff::Span::from_plain(*span))
}

/// The end of what starts then and lasts that long: the sum on the calendar of UTC (ISO 8601,
/// proleptic Gregorian).
///
/// Years and months come first, and a month that has no such day takes its last; then weeks and
/// days, of 24 hours each; then the rest.
///
/// # Errors
///
/// `TimeRange` where the sum is outside the range of a `Moment`, and where the years of a negative length lead off the
/// calendar before the rest is added.
pub fn end_of(start: Moment, length: &Length) -> Result<End, Refusal>
    ensures value { result ≡ end_after start length.now }
    ensures forward { NeedsOnlyItsSum start length.now }
    ensures either { NeedsOnlyItsYearAndSum start length.now }
{
    match length {
        Length::Of(span) => Ok(End::At(after(start, span)?)),
        Length::Endless => Ok(End::Endless),
    }
}
