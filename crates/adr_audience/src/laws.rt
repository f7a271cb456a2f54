//! What the rows of keys owe.
ghost use Rattle.adr_audience.specs.Laws.{RowsMatchAsScenes, EventsFollowAsked, RowsOfCreated, RowsOfChanged, RowsOfRemoved, RowsOfChangedVen, RowsOfCreatedVen, RowsOfRemovedVen, RowsOfOthers};
ghost use Rattle.adr_audience.specs.Laws.{AsksOfCreated, AsksOfChanged, AsksOfRemoved, AsksOfChangedProgram, AsksOfCreatedProgram, AsksOfRemovedProgram, AsksOfOthers};

/// An event is for what a resource with its ven offers just where it applies to the resource.
#[tactic(auto, using(crate::proofs::Matched::rows_match_as_scenes))]
pub fn rows_match_as_scenes()
    ensures { RowsMatchAsScenes }
{}

/// Resources that offer the same of the keys that the events of a book ask for have the same events.
#[tactic(auto, using(crate::proofs::Alike::events_follow_asked))]
pub fn events_follow_asked()
    ensures { EventsFollowAsked }
{}

/// What each kind of edit does to what the resources of a book offer.
pub fn rows_of_edits()
    ensures created { RowsOfCreated }
    ensures changed { RowsOfChanged }
    ensures removed { RowsOfRemoved }
    ensures changed_ven { RowsOfChangedVen }
    ensures created_ven { RowsOfCreatedVen }
    ensures removed_ven { RowsOfRemovedVen }
    ensures others { RowsOfOthers }
{}

/// What each kind of edit does to what the events of a book ask for.
pub fn asks_of_edits()
    ensures created { AsksOfCreated }
    ensures changed { AsksOfChanged }
    ensures removed { AsksOfRemoved }
    ensures changed_program { AsksOfChangedProgram }
    ensures created_program { AsksOfCreatedProgram }
    ensures removed_program { AsksOfRemovedProgram }
    ensures others { AsksOfOthers }
{}
