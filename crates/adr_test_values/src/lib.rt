#![tactic(auto)]
//! What tests and measurements share: edits from short lines and from lines with bodies, whether two values are the
//! same by all that their look-ups tell, and what is told of a call.

/// Objects and edits from the words of a line and from its body.
pub mod bodies;
/// Edits from short lines, whose bodies are made of a few words.
pub mod lines;
/// Whether two values are the same by all that their look-ups tell.
pub mod same;
/// What is printed of a call, and how long it took.
pub mod telling;
