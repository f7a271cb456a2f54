//! Moments that are printed one after the other.
ghost use Rattle.std.specs.Prelude.{◌≡◌, ◌++◌, ◌+◌, ◌<◌, ◌*◌, ◌/◌, ◌%◌, [], None, codes, IfSome};
ghost use Rattle.std.specs.Option.{ForSome};
ghost use Rattle.adr_time.specs.Calendar.{clock_of, date_of_day, day_of};
ghost use Rattle.adr_time.specs.Text.{clock_text, date_text, moment_text};

use crate::printing::put;
use adr_time::{Moment, print_moment};
use adr_value::Refusal;
use std::alloc::Global;

/// The nanoseconds of a second, and of a day.
const SECOND: u64 = 1_000_000_000;

const DAY: u64 = 86_400 * SECOND;

/// What a clock shows at midnight.
const MIDNIGHT: &[u8] = b"00:00:00Z";

/// The midnight before a moment, or at it; None where that is before the first moment.
fn midnight_of(moment: Moment) -> Option<Moment>
    ensures { IfSome result (λ m. clock_of m ≡ 0) }
{
    Moment::of(moment.nanoseconds().div_euclid(86_400_000_000_000) * 86_400_000_000_000)
}

fn digit(number: u64) -> u8
    requires { number < 10 }
    ensures { result ≡ 48 + number }
{
    b'0' + number as u8
}

/// The time of day at a whole second of it, as `17:30:05Z`.
fn clock_bytes(second: u64) -> [u8; 9]
    requires { second < 86_400 }
    ensures { result ≡ clock_text (second * 1_000_000_000) ++ codes "Z" }
{
    let (hours, minutes, seconds) = (second / 3_600, second / 60 % 60, second % 60);
    [
        digit(hours / 10),
        digit(hours % 10),
        b':',
        digit(minutes / 10),
        digit(minutes % 10),
        b':',
        digit(seconds / 10),
        digit(seconds % 10),
        b'Z',
    ]
}

/// A day, by its midnight, and how the texts of its moments begin: `2024-01-09T`.
#[derive(Drop)]
struct Day {
    midnight: Option<Moment>,
    text: Vec<u8>,
    ghost whole: { ForSome midnight (λ m. clock_of m ≡ 0) },
    ghost told: { ForSome midnight (λ m. text.items ≡ date_text (date_of_day (day_of m)) ++ codes "T") },
}

impl Day {
    ghost use Rattle.std.specs.Prelude.{IfOk, IfSome};
    ghost use Rattle.adr_refusal.specs.Answer.{OnlyNoMemory};

    /// The nanoseconds from its midnight to a moment; None at another day.
    fn since_midnight(&self, moment: Moment) -> Option<u64>
        ensures value { IfSome result (λ n. n ≡ clock_of moment) }
        ensures text { IfSome result (λ n. self.now.text.items ≡ date_text (date_of_day (day_of moment)) ++ codes "T") }
    {
        let since = moment.nanoseconds() - self.midnight?.nanoseconds();
        match u64::try_from(since) {
            Ok(since) if since < DAY => Some(since),
            _ => None,
        }
    }

    /// Turns to the day of a moment and answers the nanoseconds from its midnight; None where that is before the first
    /// moment.
    fn turn_to(&mut self, moment: Moment) -> Result<Option<u64>, Refusal>
        ensures value { IfOk result (λ clock. IfSome clock (λ n. n ≡ clock_of moment)) }
        ensures text { IfOk result (λ clock. IfSome clock (λ n. self.new.text.items ≡ date_text (date_of_day (day_of moment)) ++ codes "T")) }
        ensures memory { OnlyNoMemory result }
    {
        if let Some(clock) = self.since_midnight(moment) {
            return Ok(Some(clock));
        }
        self.midnight = None;
        self.text.clear();
        let Some(midnight) = midnight_of(moment) else {
            return Ok(None);
        };
        print_moment(midnight, &mut self.text)?;
        self.text.truncate(self.text.len() - MIDNIGHT.len());
        self.midnight = Some(midnight);
        Ok(self.since_midnight(moment))
    }
}

/// The moment that was printed last, and its text: the end of a segment is mostly the start of the next.
#[derive(Drop)]
pub(crate) struct LastMoment {
    moment: Option<Moment>,
    day: Day,
    text: Vec<u8>,
    ghost told: { ForSome moment (λ m. text.items ≡ moment_text m) },
}

impl LastMoment {
    ghost use Rattle.std.specs.Prelude.{OnOk, Some};
    ghost use Rattle.adr_refusal.specs.Answer.{OnlyNoMemory};

    pub(crate) fn none(alloc: Global) -> LastMoment {
        LastMoment {
            moment: None,
            day: Day {
                midnight: None,
                text: Vec::new(alloc),
            },
            text: Vec::new(alloc),
        }
    }

    /// Appends the moment.
    pub(crate) fn put(&mut self, out: &mut Vec<u8>, moment: Moment) -> Result<(), Refusal>
        ensures ok { OnOk result (out.new.items ≡ out.old.items ++ moment_text moment) }
        ensures memory { OnlyNoMemory result }
    {
        self.turn_to(moment)?;
        put(out, self.text.as_slice())
    }

    /// Prints the moment, unless it is the last.
    fn turn_to(&mut self, moment: Moment) -> Result<(), Refusal>
        ensures ok { OnOk result (self.new.moment ≡ Some moment) }
        ensures memory { OnlyNoMemory result }
    {
        if self.moment == Some(moment) {
            return Ok(());
        }
        self.moment = None;
        self.text.clear();
        self.print(moment)?;
        self.moment = Some(moment);
        Ok(())
    }

    /// Prints the moment: at a whole second from the date of its day, which is mostly the last moment's.
    fn print(&mut self, moment: Moment) -> Result<(), Refusal>
        requires none { self.old.moment ≡ None }
        requires empty { self.old.text.items ≡ [] }
        ensures ok { OnOk result (self.new.text.items ≡ moment_text moment) }
        ensures none { self.new.moment ≡ None }
        ensures memory { OnlyNoMemory result }
    {
        match self.day.turn_to(moment)? {
            Some(since) if since % SECOND == 0 => {
                put(&mut self.text, self.day.text.as_slice())?;
                put(&mut self.text, &clock_bytes(since / SECOND))
            }
            _ => print_moment(moment, &mut self.text),
        }
    }
}
