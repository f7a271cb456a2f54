//! What the timelines of a group rest on: a law of the definitions. The function's clause is the law, and its body does
//! nothing.
ghost use Rattle.adr_model.specs.declared.entry.Tie.{Tie};
ghost use Rattle.adr_group.specs.Group.{RightMoves};

/// A group is right of any events among which those of its writes are the same. So an event that comes or goes changes
/// no group that doesn't have its write.
pub fn right_moves()
    ensures { (tie : Tie) → RightMoves tie }
{}
