#![tactic(auto)]
//! Why it is enough to repair timelines inside the windows of an edit: laws of the definitions alone. Each function's
//! clause is a law, and its body does nothing.
//!
//! An edit's windows are the spans of the events that it brings in, takes away or lets apply otherwise, each with
//! a resource and a payload type.
//!
//! The laws are of every whole book: of each that edits leave of the empty one, or of the base from which a condensed
//! journal goes on (`adr_model`'s law `books_are_whole`). An edit counts as accepted under any limits, and wherever the
//! book is full.

ghost use Rattle.adr_model.specs.declared.entry.Tie.{Tie};
ghost use Rattle.adr_repair.specs.Answers.{GovernorsAreShown, TypesThatGovernAreListed};
ghost use Rattle.adr_repair.specs.Laws.{AtEachEdit, CandidatesStay, GovernorStays, RepairsAll, WindowsAreDisturbed};
ghost use Rattle.adr_repair.specs.Ranks.{CandidatesAreApart, EntriesAreApart, GovernsBeforeOthers, GovernsTheLeast, IntervalsAreApart, LeastIsOne};
ghost use Rattle.adr_repair.specs.Table.{TouchesAreTheTable};

/// Outside the windows of an accepted edit everything stays: at an instant that no window covers, the same
/// intervals compete as before, and the same one governs, under either rule for ties.
pub fn stays_outside_windows()
    ensures candidates { AtEachEdit CandidatesStay }
    ensures governor { (tie : Tie) → AtEachEdit (GovernorStays tie) }
{}

/// No window is too wide: at each instant of a window other intervals compete than before the edit, and at no
/// other instant.
pub fn disturbed_inside_windows()
    ensures { AtEachEdit WindowsAreDisturbed }
{}

/// To repair inside the windows is to repair all: take what governs now inside them and what governed before
/// outside, and you have what governs now.
pub fn repaired_inside_windows()
    ensures { (tie : Tie) → AtEachEdit (RepairsAll tie) }
{}

/// The windows by the kind of the edit: an event that is written or removed touches its old and its new spans,
/// a changed program, ven or resource the spans of the events whose targets now say otherwise, and so on.
pub fn touches_are_the_table()
    ensures { TouchesAreTheTable }
{}

/// There are no ties: no two intervals of one whole book have one rank, and no two entries of one resource and
/// payload type are of one write and one place.
pub fn ranks_are_apart()
    ensures intervals { IntervalsAreApart }
    ensures entries { EntriesAreApart }
{}

/// What governs is the candidate of least rank, and nothing governs just where there is no candidate. In a whole
/// book no two candidates of an instant have one rank, so there is one such, which goes before every other; a list of
/// distinct marks has one least entry.
pub fn governor_is_the_least()
    ensures least { GovernsTheLeast }
    ensures apart { CandidatesAreApart }
    ensures others { GovernsBeforeOthers }
    ensures one { LeastIsOne }
{}

/// What governs can always be shown: in every whole book an answer shows an event, its interval and their values
/// exactly at those instants at which something governs.
pub fn governors_are_shown()
    ensures { GovernorsAreShown }
{}

/// `types` lists each payload type of which something governs the resource at some instant, and no other.
pub fn types_that_govern_are_listed()
    ensures { TypesThatGovernAreListed }
{}
