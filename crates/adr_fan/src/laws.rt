//! The laws of the readers' replies.
ghost use Rattle.adr_fan.specs.Laws.{ReadersReplyAsScripts, ReadersTellTheLeastMatching};

use adr_resolver::{fan_laws, least_matching_interval_governs};

/// What the replies of readers promise, in the text that `fan` writes. A reader's reply to a query, from a publication,
/// is what a script without readers is told where that publication is the last. So after any lines, of which any may be
/// refused for want of memory, `list` tells a timeline that gives at each instant the least matching interval of the
/// objects that the accepted edits up to the publication's version left, and none where none matches, and `at` tells of
/// one instant what governs there and until when.
#[tactic(auto, using(crate::proofs::Readers::readers_reply_as_scripts))]
pub fn reader_laws()
    ensures replies { ReadersReplyAsScripts }
    ensures least { ReadersTellTheLeastMatching }
{
    least_matching_interval_governs();
    fan_laws();
}
