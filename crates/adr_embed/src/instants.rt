//! Moments as whole seconds since 1970 and the nanoseconds after them.
ghost use Rattle.std.specs.Prelude.{◌≡◌, ◌<◌};
ghost use Rattle.adr_embed.specs.Instants.{instant, moment_at};

use adr_time::Moment;
use adr_value::Refusal;

/// The nanoseconds of a second.
const SECOND: u32 = 1_000_000_000;

/// The moment so many seconds after 1970-01-01T00:00:00Z, and so many nanoseconds after these.
///
/// # Errors
///
/// `BadMoment` for 1,000,000,000 nanoseconds and more, and for an instant outside the range of moments.
pub(crate) fn moment_at(seconds: i64, nanoseconds: u32) -> Result<Moment, Refusal>
    ensures { result ≡ moment_at seconds nanoseconds }
{
    if nanoseconds >= SECOND {
        return Err(Refusal::BadMoment);
    }
    let instant = i128::from(seconds) * i128::from(SECOND) + i128::from(nanoseconds);
    Moment::of(instant).ok_or(Refusal::BadMoment)
}

/// The whole seconds of a moment since 1970-01-01T00:00:00Z, rounded down, and the nanoseconds after them.
pub fn seconds_of(moment: Moment) -> (i64, u32)
    ensures value { instant result.0 result.1 ≡ moment }
    ensures bound { result.1 < 1_000_000_000 }
{
    let nanoseconds = moment.nanoseconds();
    let second = i128::from(SECOND);
    (
        nanoseconds.div_euclid(second) as i64,
        nanoseconds.rem_euclid(second) as u32,
    )
}
