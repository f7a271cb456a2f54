//! The lines of answers: a version, a state, a segment, a payload type.
ghost use Rattle.std.specs.Prelude.{◌≡◌, ◌++◌, OnOk, codes, option_map};
ghost use Rattle.std.specs.Fmt.{decimal};
ghost use Rattle.std.specs.List.{list_all};
ghost use Rattle.adr_refusal.specs.Answer.{OnlyNoMemory};
ghost use Rattle.adr_time.specs.Text.{moment_text};
ghost use Rattle.adr_model.specs.Answer.{state_text};
ghost use Rattle.adr_model.specs.Queries.{end_within, is_bare_byte, segment_text, type_text};
ghost use Rattle.adr_calendar.specs.Shown.{event_text, naming_text, shown_text, shown_view};

use crate::moments::LastMoment;
use crate::printing::{put, put_end, put_id, put_natural, put_quoted, put_values};
use adr_object::Id;
use adr_time::{End, Moment};
use adr_value::{Datum, Refusal};

/// What governs shows: the event's id, the interval's id, and the values of its first payload of the type.
#[derive(Clone, Copy)]
pub struct Signal<'a> {
    /// The id of the event whose interval governs.
    pub event: &'a Id,
    /// The id that the interval has in its event (OpenADR 3.0, interval).
    pub interval: i64,
    /// The values, in order, of the interval's first payload of the type.
    pub values: &'a [Datum],
}

/// Appends the version of a book, as `version 4`.
///
/// # Errors
///
/// `NoMemory` where there is no room for it.
pub fn put_version(out: &mut Vec<u8>, version: u64) -> Result<(), Refusal>
    ensures ok { OnOk result (out.new.items ≡ out.old.items ++ (codes "version " ++ decimal version)) }
    ensures memory { OnlyNoMemory result }
{
    put(out, b"version ")?;
    put_natural(out, u128::from(version))
}

/// Appends `event e1 interval 0`.
fn put_event(out: &mut Vec<u8>, shown: Signal<'_>) -> Result<(), Refusal>
    ensures ok { OnOk result (out.new.items ≡ out.old.items ++ event_text (shown_view shown.entry)) }
    ensures memory { OnlyNoMemory result }
{
    put(out, b"event ")?;
    put(out, shown.event.text().as_bytes())?;
    put(out, b" interval ")?;
    put_id(out, shown.interval)
}

/// Appends what is shown and until when: `event e1 interval 0 until end values 10`, or `none until end`.
///
/// # Errors
///
/// `NoMemory` where there is no room for it.
pub fn put_state(out: &mut Vec<u8>, shown: Option<Signal<'_>>, end: End) -> Result<(), Refusal>
    ensures ok { OnOk result (out.new.items ≡ out.old.items ++ state_text (option_map shown_view shown.entry) end) }
    ensures memory { OnlyNoMemory result }
{
    let Some(shown) = shown else {
        put(out, b"none until ")?;
        return put_end(out, end);
    };
    put_event(out, shown)?;
    put(out, b" until ")?;
    put_end(out, end)?;
    put_values(out, shown.values)
}

/// Appends two moments, a space between them.
fn put_moments(
    out: &mut Vec<u8>,
    last: &mut LastMoment,
    start: Moment,
    end: Moment,
) -> Result<(), Refusal>
    ensures ok { OnOk result (out.new.items ≡ out.old.items ++ (moment_text start ++ codes " " ++ moment_text end)) }
    ensures memory { OnlyNoMemory result }
{
    last.put(out, start)?;
    put(out, b" ")?;
    last.put(out, end)
}

/// Appends how the lines of an event name it: ` event e1 interval `, behind which an interval's id goes.
///
/// # Errors
///
/// `NoMemory` where there is no room for it.
pub(crate) fn put_naming(out: &mut Vec<u8>, event: &Id) -> Result<(), Refusal>
    ensures ok { OnOk result (out.new.items ≡ out.old.items ++ naming_text event.now) }
    ensures memory { OnlyNoMemory result }
{
    put(out, b" event ")?;
    put(out, event.text().as_bytes())?;
    put(out, b" interval ")
}

/// Appends what is shown behind a space, ` event e1 interval 0 values 10`, from how the lines of the event name it.
fn put_shown(out: &mut Vec<u8>, shown: Signal<'_>, naming: &[u8]) -> Result<(), Refusal>
    requires { naming.now ≡ naming_text (shown_view shown).event }
    ensures ok { OnOk result (out.new.items ≡ out.old.items ++ shown_text (shown_view shown.entry)) }
    ensures memory { OnlyNoMemory result }
{
    put(out, naming)?;
    put_id(out, shown.interval)?;
    put_values(out, shown.values)
}

/// Where a segment's line ends: at its end, or at the window's if that is earlier.
pub fn cut(to: Moment, end: End) -> Moment
    ensures { result ≡ end_within to end }
{
    match end {
        End::At(moment) => {
            if moment.nanoseconds() < to.nanoseconds() {
                moment
            } else {
                to
            }
        }
        End::Endless => to,
    }
}

/// Appends the line of a segment, its line feed too, from how the lines of its event name it:
/// `2024-01-01T00:00:00Z 2024-01-01T01:00:00Z event e1 interval 0 values 10`.
///
/// # Errors
///
/// `NoMemory` where there is no room for it.
pub(crate) fn put_segment(
    out: &mut Vec<u8>,
    last: &mut LastMoment,
    start: Moment,
    end: Moment,
    shown: Signal<'_>,
    naming: &[u8],
) -> Result<(), Refusal>
    requires { naming.now ≡ naming_text (shown_view shown).event }
    ensures ok { OnOk result (out.new.items ≡ out.old.items ++ segment_text start end (shown_view shown.entry)) }
    ensures memory { OnlyNoMemory result }
{
    put_moments(out, last, start, end)?;
    put_shown(out, shown, naming)?;
    put(out, b"\n")
}

fn may_stand_bare(byte: u8) -> bool
    ensures { result ≡ is_bare_byte byte }
{
    (33..=126).contains(&byte) && byte != b'"'
}

fn is_bare(text: &str) -> bool
    ensures { result ≡ list_all is_bare_byte text.now }
{
    text.as_bytes().iter().all(|byte| may_stand_bare(*byte))
}

/// Appends the name of a payload type: bare where each of its characters may stand bare, else in quotes.
///
/// # Errors
///
/// `NoMemory` where there is no room for it.
pub fn put_type(out: &mut Vec<u8>, name: &str) -> Result<(), Refusal>
    ensures ok { OnOk result (out.new.items ≡ out.old.items ++ type_text name.now) }
    ensures memory { OnlyNoMemory result }
{
    if is_bare(name) {
        put(out, name.as_bytes())
    } else {
        put_quoted(out, name)
    }
}
