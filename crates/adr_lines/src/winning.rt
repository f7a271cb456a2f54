//! Why timelines need no repair but where their entries differ, and how what wins is found among the entries of all
//! events: laws of the definitions, under either rule for ties. Each function's clause is a law, and its body does
//! nothing.
//!
//! They speak of the writes of a timeline, that is of the numbers of the edits that wrote its events, and of no
//! resource: timelines of one payload type whose writes are the same are the same.

ghost use Rattle.adr_model.specs.declared.entry.Tie.{Tie};
ghost use Rattle.adr_lines.specs.Laws.{HeldWins, SameWins};

/// At an instant at which two lists of writes, each of its own events, agree on every event that competes there,
/// the same wins. So a timeline stays as it is wherever no entry covers of the events that go, come, or are of one
/// list of writes alone.
pub fn same_wins()
    ensures { (tie : Tie) → SameWins tie }
{}

/// Whoever holds the entries of the events as they are ranked, in any order, finds the winner of a timeline by
/// taking those of its writes.
pub fn held_wins()
    ensures { (tie : Tie) → HeldWins tie }
{}
