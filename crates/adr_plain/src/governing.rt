//! What wins among entries, and until when.
ghost use Rattle.std.specs.Prelude.{◌≡◌, Some, cond, filter, IfOk};
ghost use Rattle.adr_refusal.specs.Answer.{OnlyNoMemory};
ghost use Rattle.adr_time.specs.Spans.{covers as is_covered, is_before};
ghost use Rattle.adr_model.specs.Answer.{bounds as bounds_of, changes, earlier_of, earliest, is_change, same_winner as is_same_winner};
ghost use Rattle.adr_model.specs.Governor.{first_of, winner_at as winner_of_all_at};
ghost use Rattle.adr_plain.specs.Scan.{first_with};

use adr_model::{Entry, Winner};
use adr_rule::{Meter, before};
use adr_time::{End, Moment, covers};
use adr_value::Refusal;
use std::alloc::Global;

/// The entry, or the one that was found unless the entry goes before it.
fn better_of(entry: Entry, found: Option<Entry>) -> Entry
    ensures { result ≡ first_with entry found }
{
    let Some(found) = found else {
        return entry;
    };
    if before(&entry.rank, &found.rank, &mut Meter::new()) {
        return entry;
    }
    found
}

/// What is found when the entry is looked at too, if it covers the moment.
fn found_with(entry: Entry, found: Option<Entry>, moment: Moment) -> Option<Entry>
    ensures { result ≡ cond (is_covered entry.span moment) (Some (first_with entry found)) found }
{
    if covers(&entry.span, moment) {
        Some(better_of(entry, found))
    } else {
        found
    }
}

/// The entry that goes before all others that cover the moment.
fn first_at(entries: &[Entry], moment: Moment) -> Option<Entry>
    ensures { result ≡ first_of (filter (λ e. is_covered e.span moment) entries.now) }
{
    let mut found: Option<Entry> = None;
    for entry in entries {
        found = found_with(*entry, found, moment);
    }
    found
}

/// The winner of those that cover the moment.
pub(crate) fn winner_at(entries: &[Entry], moment: Moment) -> Option<Winner>
    ensures { result ≡ winner_of_all_at entries.now moment }
{
    match first_at(entries, moment) {
        Some(entry) => Some(Winner {
            written: entry.rank.written,
            place: entry.rank.place,
        }),
        None => None,
    }
}

pub(crate) fn same_winner(a: Option<Winner>, b: Option<Winner>) -> bool
    ensures { result ≡ is_same_winner a b }
{
    match (a, b) {
        (None, None) => true,
        (Some(a), Some(b)) => a.written == b.written && a.place == b.place,
        _ => false,
    }
}

/// The moments at which an entry starts or ends.
pub(crate) fn bounds(alloc: Global, entries: &[Entry]) -> Result<Vec<Moment>, Refusal>
    ensures ok { IfOk result (λ moments. moments.items ≡ bounds_of entries.now) }
    ensures memory { OnlyNoMemory result }
{
    let mut moments = Vec::new(alloc);
    for entry in entries {
        moments.push(entry.span.start)?;
        if let End::At(end) = entry.span.end {
            moments.push(end)?;
        }
    }
    Ok(moments)
}

/// Whether another entry than that winner wins at a later moment.
fn changes_at(entries: &[Entry], moment: Moment, now: Option<Winner>, later: Moment) -> bool
    requires { now ≡ winner_of_all_at entries.now moment }
    ensures { result ≡ is_change entries.now moment later }
{
    moment.nanoseconds() < later.nanoseconds() && !same_winner(winner_at(entries, later), now)
}

/// Whether a bound comes before an end.
fn is_earlier(bound: Moment, end: &End) -> bool
    ensures { result ≡ is_before bound end.now }
{
    bound.is_before(*end)
}

/// The end when a bound is looked at too. One that isn't before it makes no difference, whatever wins there.
#[tactic(auto, using(crate::proofs::Scanning::later_is_passed))]
fn end_with(entries: &[Entry], moment: Moment, now: Option<Winner>, bound: Moment, end: End) -> End
    requires { now ≡ winner_of_all_at entries.now moment }
    ensures { result ≡ cond (is_change entries.now moment bound) (earlier_of bound end) end }
{
    if !is_earlier(bound, &end) {
        return end;
    }
    if changes_at(entries, moment, now, bound) {
        End::At(bound).earlier(end)
    } else {
        end
    }
}

/// The earliest of the later moments at which another entry wins.
fn earliest_change(entries: &[Entry], bounds: &[Moment], moment: Moment) -> End
    requires { bounds.now ≡ bounds_of entries.now }
    ensures { result ≡ earliest (changes entries.now moment) }
{
    let now = winner_at(entries, moment);
    let mut end = End::Endless;
    for bound in bounds {
        end = end_with(entries, moment, now, *bound, end);
    }
    end
}

/// Until when the winner at a moment stays.
pub(crate) fn until(alloc: Global, entries: &[Entry], moment: Moment) -> Result<End, Refusal>
    ensures ok { IfOk result (λ end. end ≡ earliest (changes entries.now moment)) }
    ensures memory { OnlyNoMemory result }
{
    let bounds = bounds(alloc, entries)?;
    Ok(earliest_change(entries, bounds.as_slice(), moment))
}
