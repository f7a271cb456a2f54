//! What follows from the definitions. Each function's clause is a law, and its body does nothing.
ghost use Rattle.adr_model.specs.Laws.{AcceptedEditsCount, BasesOnlyRefuse, JournalsGoOn, LooksShowNoEarlier, PublicationsAreTheirEdits, PublicationsFollow, PublicationsStay, ReadersStayBehind, RefusedEditsChangeNothing, RepeatsAreOneEntry, RollTellsEach, RollTellsWhatAtTells, SeenNeverFalls, SegmentsAreApart, SegmentsAreInOrder, SegmentsBeginAtChanges, SegmentsCoverAll, SegmentsShowOne, TypesGovernSometime, UntilIsTheNextChange, VersionsAreEdits, VersionsCountEdits};
ghost use Rattle.adr_model.specs.Whole.{BooksAreWhole, BooksStayWhole, StepsKeepWhole};
ghost use Rattle.adr_model.specs.Within.{BooksAreWithin, EditsKeepLimits, EntriesAreCounted, TypesAreCounted};

/// The laws of edits: one that is refused changes nothing, one that is accepted makes the version one more, and
/// the book after a journal is where the rest of the journal goes on. A version is at most the number of edits. The
/// base of a journal only says when the book is full: what is accepted does the same on any base.
#[tactic(auto, using(crate::proofs::EditLemmas::refused_edits_change_nothing, crate::proofs::EditLemmas::accepted_edits_count, crate::proofs::EditLemmas::bases_only_refuse, crate::proofs::EditLemmas::journals_go_on, crate::proofs::EditLemmas::versions_are_edits))]
pub fn edit_laws()
    ensures refused { RefusedEditsChangeNothing }
    ensures accepted { AcceptedEditsCount }
    ensures bases { BasesOnlyRefuse }
    ensures journals { JournalsGoOn }
    ensures versions { VersionsAreEdits }
{}

/// The law of entries: two payloads of one type in an interval count once, and compete once.
#[tactic(auto, using(crate::proofs::EditLemmas::repeats_are_one_entry))]
pub fn entry_laws()
    ensures { RepeatsAreOneEntry }
{}

/// The laws of answers. `until` is the next instant at which something else governs. A line of `list` begins
/// where that happens and shows one winner to its end; the lines stand in order, cover each governed instant of
/// the window, and none covers another's. `types` lists a type just where something of it governs at some
/// time, and `roll` says of each resource what `at` answers.
#[tactic(auto, using(crate::proofs::AnswerLaws::until_is_the_next_change, crate::proofs::QueryLaws::segments_begin_at_changes, crate::proofs::QueryLaws::segments_are_in_order, crate::proofs::QueryLaws::segments_show_one, crate::proofs::QueryLaws::segments_cover_all, crate::proofs::QueryLaws::segments_are_apart, crate::proofs::QueryLaws::types_govern_sometime, crate::proofs::QueryLaws::roll_tells_each, crate::proofs::QueryLaws::roll_tells_what_at_tells))]
pub fn answer_laws()
    ensures until { UntilIsTheNextChange }
    ensures begin { SegmentsBeginAtChanges }
    ensures order { SegmentsAreInOrder }
    ensures show { SegmentsShowOne }
    ensures cover { SegmentsCoverAll }
    ensures apart { SegmentsAreApart }
    ensures roll { RollTellsEach }
    ensures alike { RollTellsWhatAtTells }
    ensures types { TypesGovernSometime }
{}

/// The laws of the machine of one editor and many readers. What a reader has seen never falls and is no later than
/// the last publication, and a look shows nothing earlier than that. Publications stay; the book of each is what its
/// batch makes of the one before, and so what all batches up to it, joined, leave of the empty book, whatever was
/// condensed; its version is the number of those edits.
#[tactic(auto, using(crate::proofs::MachineLaws::seen_never_falls, crate::proofs::MachineLaws::looks_show_no_earlier, crate::proofs::MachineLaws::publications_stay, crate::proofs::MachineLaws::publications_follow, crate::proofs::MachineLaws::publications_are_their_edits, crate::proofs::MachineLaws::versions_count_edits, crate::proofs::MachineLaws::readers_stay_behind))]
pub fn machine_laws()
    ensures seen { SeenNeverFalls }
    ensures behind { ReadersStayBehind }
    ensures look { LooksShowNoEarlier }
    ensures publications { PublicationsStay }
    ensures batches { PublicationsFollow }
    ensures edits { PublicationsAreTheirEdits }
    ensures versions { VersionsCountEdits }
{}

/// Every book that accepted edits leave, of the empty book or of any whole one, is whole: ids are distinct, each
/// event has a number of its own that is at most the version, each program and ven that is named is there, and every
/// event can be laid out. So every journal's book is whole, whatever base it goes on from.
pub fn books_are_whole()
    ensures step { StepsKeepWhole }
    ensures base { BooksStayWhole }
    ensures after { BooksAreWhole }
{}

/// No limit is ever passed: after any list of edits the programs, vens, resources, events and entries are at most
/// as many as their limits, and the version is at most the greatest. So it is of any limits, on a base that is within
/// them.
pub fn books_are_within_limits()
    ensures any { EditsKeepLimits }
    ensures after { BooksAreWithin }
{}

/// The law of how many entries compete. The limit counts an event's intervals, each with each of its payload types
/// once; so of distinct types the event has no more entries than that, and of one type events have no more than all
/// theirs.
pub fn entries_are_counted()
    ensures types { TypesAreCounted }
    ensures entries { EntriesAreCounted }
{}
