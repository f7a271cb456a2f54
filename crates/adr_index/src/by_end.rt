//! Entries that are in order of their ends, as those of one length are: the last one ends last, and no tree is needed.
ghost use Rattle.std.specs.Prelude.{◌≡◌, ◌+◌, ◌<◌, ◌++◌, IsTrue, length, take, drop};
ghost use Rattle.adr_index.specs.Tree.{IsByEnd, IsGreatest};

use crate::reach::Reach;
use adr_model::Entry;

/// Whether each entry ends no earlier than those before it.
pub(crate) fn are_by_end(entries: &[Entry]) -> bool
    ensures { IsTrue result → IsByEnd entries.now }
{
    let mut greatest = Reach::nothing();
    for entry in entries {
        let reach = Reach::of(entry);
        if !reach.is_from(greatest) {
            return false;
        }
        greatest = reach;
    }
    true
}

/// Whether the entry at the place ends no earlier than the one before it, and no later than the one behind it.
pub(crate) fn fits(entries: &[Entry], place: usize) -> bool
    requires within { place < length entries.now }
    ensures { IsTrue result → IsByEnd (take place entries.now ++ drop (place + 1) entries.now) → IsByEnd entries.now }
{
    let reach = Reach::of(&entries[place]);
    if place > 0 && !reach.is_from(Reach::of(&entries[place - 1])) {
        return false;
    }
    place + 1 == entries.len() || Reach::of(&entries[place + 1]).is_from(reach)
}

/// The greatest end of entries in order of their ends: the last one's.
pub(crate) fn last_of(entries: &[Entry]) -> Reach
    requires { IsByEnd entries.now }
    ensures { IsGreatest result entries.now }
{
    if entries.is_empty() {
        return Reach::nothing();
    }
    Reach::of(&entries[entries.len() - 1])
}
