//! What is checked of what a reader's thread hands back.
ghost use Rattle.std.specs.Prelude.{◌≡◌, IsTrue};
ghost use mathlib.Core.List.{IsPrefix};
ghost use Rattle.adr_fan.specs.Parts.{AreInOrder};

use crate::queries::Sent;
use crate::reading::Reply;
use adr_board::{Editor, Naming, Reader};

/// Whether the replies name these queries, in order, each with its number, and none is from a publication that is
/// older than that number or than the one of the reply before, or younger than the last.
pub(crate) fn are_in_order(sent: &[Sent], replies: &[Reply], last: u64) -> bool
    ensures { IsTrue result → AreInOrder last 0 sent.now replies.now }
{
    if sent.len() != replies.len() {
        return false;
    }
    let mut seen = 0;
    for (at, reply) in replies.iter().enumerate() {
        let query = &sent[at];
        if !reply.sent.same(query)
            || reply.shown < seen
            || reply.shown < query.number()
            || reply.shown > last
        {
            return false;
        }
        seen = reply.shown;
    }
    true
}

/// Has the reader learn of all publications and look once more. Whether it sees them all then.
pub(crate) fn settle<J: Naming>(editor: &Editor<J>, reader: &mut Reader<J>) -> bool
    ensures all { IsTrue result → reader.new.seen ≡ editor.now.published }
    ensures seen { IsTrue result → IsPrefix reader.old.seen reader.new.seen }
{
    let told = editor.tell();
    reader.learn(&told);
    match reader.look() {
        Ok(snapshot) => snapshot.number() == told.number(),
        Err(_) => false,
    }
}
