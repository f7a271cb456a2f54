//! The laws of the script's text.
ghost use Rattle.adr_resolver.specs.Fan.{FanLeavesTheState, FanRunsTheScript, ReadersMayAnswerAtTheEnd};
ghost use Rattle.adr_resolver.specs.Kept.{CommandsKeepStep, KeptBeginsInStep, LinesKeepStep};
ghost use Rattle.adr_resolver.specs.Larger.{LargerLimitsTellTheSame, LimitsGrew};
ghost use Rattle.adr_resolver.specs.Laws.{LinesTellTheLeastMatching, GovernsTheLeastMatching, PublishedStatesTellTheLeastMatching, PublishedTimelinesGiveTheLeastMatching, LinesAreSteps, AcceptedEditsLeaveTheState, TextsGoOn, RefusalsChangeNothing, RefusedEditsChangeNothing, AcceptedEditsAreKept, QueriesChangeNothing};

/// What the text that `run` writes promises. After any lines, of which any may be refused for want of memory, a
/// published timeline gives, at every resource, payload type and instant, the least matching interval of the objects
/// that the accepted edits up to its version left, and none where none matches. The timeline is what `list` tells,
/// segment by segment, and `at` tells of one instant what governs there and until when.
///
/// The state after the lines is one that the machine of edits and publications reaches from its start by what stands on
/// them, in order, and the text goes on from there. The objects of each publication are what the accepted edits up to
/// its version leave, whatever was condensed. An accepted edit is answered `ok` with its version; a refused one, a
/// refused line and a query change nothing.
#[tactic(auto, using(crate::proofs::Headline::published_timelines_give_the_least_matching, crate::proofs::Headline::published_states_tell_the_least_matching, crate::proofs::Reached::lines_are_steps, crate::proofs::Reached::accepted_edits_leave_the_state, crate::proofs::Reached::texts_go_on))]
pub fn least_matching_interval_governs()
    ensures lines { LinesTellTheLeastMatching }
    ensures timelines { PublishedTimelinesGiveTheLeastMatching }
    ensures states { PublishedStatesTellTheLeastMatching }
    ensures governs { GovernsTheLeastMatching }
    ensures steps { LinesAreSteps }
    ensures objects { AcceptedEditsLeaveTheState }
    ensures text { TextsGoOn }
    ensures refused_lines { RefusalsChangeNothing }
    ensures refused_edits { RefusedEditsChangeNothing }
    ensures accepted_edits { AcceptedEditsAreKept }
    ensures queries { QueriesChangeNothing }
{}

/// What the text of many readers promises. Its editor's edits and publications are those of a script without readers,
/// line by line, and so is its state after any lines, of which any may be refused for want of memory: what
/// [`least_matching_interval_governs`] says of the state after lines holds of the editor's. Readers that answer each
/// query from the last publication of all, at the end, do what they may.
#[tactic(auto, using(crate::proofs::Fans::fan_runs_the_script, crate::proofs::Fans::fan_leaves_the_state, crate::proofs::Fans::readers_may_answer_at_the_end))]
pub fn fan_laws()
    ensures script { FanRunsTheScript }
    ensures state { FanLeavesTheState }
    ensures end { ReadersMayAnswerAtTheEnd }
{}

/// What larger limits change: nothing of the text of a script of which no line is answered `refused 18 TooMany` or
/// `refused 27 Full` under the lesser ones. The limits in force are larger than the first ones were, of 4,096 vens,
/// resources, events and intervals of an event, and 65,536 entries.
#[tactic(auto, using(crate::proofs::Larger::larger_limits_tell_the_same, crate::proofs::Larger::limits_grew))]
pub fn limit_laws()
    ensures same { LargerLimitsTellTheSame }
    ensures grew { LimitsGrew }
{}

/// What an editor keeps, which has objects and no batches, is in step with the script: it replies to commands and lines
/// as the script does, from the start on.
#[tactic(auto, using(crate::proofs::Journals::kept_begins, crate::proofs::Journals::commands_keep_step, crate::proofs::Journals::lines_keep_step))]
pub fn kept_laws()
    ensures begin { KeptBeginsInStep }
    ensures commands { CommandsKeepStep }
    ensures lines { LinesKeepStep }
{}
