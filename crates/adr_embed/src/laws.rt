//! The laws of what a caller holds, and of what readers see.
ghost use denote.Param.Send.{IsSend};
ghost use Rattle.adr_embed.specs.Laws.{CondensesAreCommands, EditorsBeginInStep, EditsAreCommands, GovernorsAreLeast, LinesAreReplied, PublicationsAreCommands, PublicationsGoOn, QueriesAreReplied};
ghost use Rattle.adr_embed.specs.contracts.editing.Editing.{the_row as editing_row};
ghost use Rattle.adr_embed.specs.contracts.reading.Reading.{the_row as reading_row};

use adr_model::answer_laws;
use adr_repair::governor_is_the_least;
use adr_resolver::kept_laws;

/// An editor and a reader may each go to another thread.
#[tactic(auto, using(crate::proofs::Crossing::editing_send, crate::proofs::Crossing::reading_send))]
pub fn crossing_laws()
    ensures editing { IsSend editing_row }
    ensures reading { IsSend reading_row }
{}

/// No command takes a publication back: the number that a later look shows is never less, and where it is the same, so
/// are the objects.
#[tactic(auto, using(crate::proofs::Answered::publications_go_on))]
pub fn publication_laws()
    ensures { PublicationsGoOn }
{}

/// What ties an editor to the script, of which `adr_resolver`'s laws speak. A new editor is in step with a script that
/// begins. One that is in step answers lines, typed edits, publications and condenses as the script replies to them, and
/// stays in step; where memory was wanting it is as it was. Readers of its last publication answer queries so.
#[tactic(auto, using(crate::proofs::InStep::editors_begin, crate::proofs::InStep::edits_are_commands, crate::proofs::InStep::publications_are_commands, crate::proofs::InStep::condenses_are_commands, crate::proofs::InStep::queries_are_replied))]
pub fn script_laws()
    ensures begin { EditorsBeginInStep }
    ensures lines { LinesAreReplied }
    ensures edits { EditsAreCommands }
    ensures publications { PublicationsAreCommands }
    ensures condenses { CondensesAreCommands }
    ensures queries { QueriesAreReplied }
{
    kept_laws();
}

/// What a typed query tells: the least matching interval of the publication's objects at that instant, as the
/// definitions rank them, and the next instant at which another one governs, or that there is none.
pub fn governor_laws()
    ensures { GovernorsAreLeast }
{
    answer_laws();
    governor_is_the_least();
}
