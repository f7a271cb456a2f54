//! The board that is looked at and that lives long.
use adr_board::{Editor, Naming};
use adr_calls::publish;
use adr_refusal::Refusal;
use adr_test_values::lines::edit;
use std::alloc::Global;
use std::sync::Wait;

/// Writes an event of the board again.
pub(crate) const CHANGE: &str = "change event e0 p 2024-01-01T00:00:00Z PT3H 3 1 v0";

/// Makes the edit of the line, and answers the version.
pub(crate) fn make<J: Naming>(
    alloc: Global,
    editor: &mut Editor<J>,
    line: &str,
) -> Result<u64, Refusal> {
    adr_calls::make(editor, edit(alloc, line)?)
}

/// Makes the edits of the lines, publishes them, and answers the publication's number.
pub(crate) fn fill<J: Naming, R: Wait>(
    rt: &R,
    alloc: Global,
    editor: &mut Editor<J>,
    lines: &str,
) -> Result<u64, Refusal> {
    for line in lines.lines() {
        make(alloc, editor, line)?;
    }
    publish(rt, editor)
}
