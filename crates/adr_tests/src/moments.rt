//! Moments, as they are read and as they are printed.
use crate::rows::{Spelled, check};
use adr_time::{Moment, print_moment};
use adr_value::Refusal;
use std::alloc::Global;
use std::test::Fail;

pub(crate) fn at(nanoseconds: i128) -> Moment {
    match Moment::of(nanoseconds) {
        Some(moment) => moment,
        None => Moment::MIN,
    }
}

/// The nanoseconds of a moment and how it is printed, or the refusal, and the text of it.
const MOMENTS: &str = "1000000000 1970-01-01T00:00:01Z = 1970-01-01T00:00:01Z
0 1970-01-01T00:00:00Z = 1970-01-01T01:00:00+01:00
0 1970-01-01T00:00:00Z = 1969-12-31T19:00:00-05:00
1 1970-01-01T00:00:00.000000001Z = 1970-01-01T00:00:00.000000001Z
500000000 1970-01-01T00:00:00.5Z = 1970-01-01 00:00:00,5z
-1 1969-12-31T23:59:59.999999999Z = 1969-12-31T23:59:59.999999999Z
1000000000 1970-01-01T00:00:01Z = 19700101T000001Z
0 1970-01-01T00:00:00Z = 1970-01-01T00Z
-1000000000 1969-12-31T23:59:59Z = 1969-12-31T23:59:60Z
0 1970-01-01T00:00:00Z = 1970-01-01T01:00:00+01:00[Europe/Paris]
0 1970-01-01T00:00:00Z = 1970-01-01T00:00:00Z[note=any]
-62167219200000000000 0000-01-01T00:00:00Z = 0000-01-01T00:00:00Z
-62198755200000000000 -000001-01-01T00:00:00Z = -000001-01-01T00:00:00Z
-377705023201000000000 -009999-01-02T01:59:59Z = -009999-01-02T01:59:59Z
253402207200999999999 9999-12-30T22:00:00.999999999Z = 9999-12-30T22:00:00.999999999Z
BadMoment = 
BadMoment = noon
BadMoment = 0000-00-00
BadMoment = 1970-01-01
BadMoment = 1970-01-01T00:00:00
BadMoment = 1970-01-01T00:00:00Z 
BadMoment = 1970-01-01T00:00:00Z[!note=any]
BadMoment = 1970-02-30T00:00:00Z
BadMoment = -000000-01-01T00:00:00Z
BadMoment = -009999-01-02T01:59:58Z
BadMoment = 9999-12-30T22:00:01Z";

/// The nanoseconds of a start and how it is printed, in an edit at 5 nanoseconds, or the refusal, and the text of it.
const STARTS: &str = "5 1970-01-01T00:00:00.000000005Z = 0000-00-00
5 1970-01-01T00:00:00.000000005Z = 0000-00-00T00:00:00
5 1970-01-01T00:00:00.000000005Z = 0000-00-00T00:00:00Z
1000000000 1970-01-01T00:00:01Z = 1970-01-01T00:00:01Z
BadDateTime = 0000-00-00t00:00:00Z
BadDateTime = tomorrow";

/// Whether the moment has the nanoseconds that are wanted, and is printed so.
pub(crate) fn is_told(alloc: Global, moment: Moment, wanted: &str) -> Result<bool, Refusal> {
    let (nanoseconds, text) = wanted.split_once(' ').unwrap_or((wanted, ""));
    let mut out = Vec::new(alloc);
    print_moment(moment, &mut out)?;
    let is_number = nanoseconds.parse::<i128>() == Ok(moment.nanoseconds());
    Ok(is_number && out.as_slice() == text.as_bytes())
}

#[test]
fn moments_are_read_and_printed(rt: HostRuntime) -> Result<(), Fail> {
    check(rt.alloc(), Spelled::Moment, MOMENTS)
}

#[test]
fn starts_are_read(rt: HostRuntime) -> Result<(), Fail> {
    check(rt.alloc(), Spelled::Start, STARTS)
}
