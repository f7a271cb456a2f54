//! What follows for the calendar of a window.
ghost use Rattle.adr_calendar.specs.Segments.{ListsTellTimelines};

/// The law of `list`: what it tells is a timeline, line by line. The timeline is canonical, and shows at each instant
/// of the window what governs there.
#[tactic(auto, using(crate::proofs::Segments::lists_tell_timelines))]
pub fn list_laws()
    ensures { ListsTellTimelines }
{}
