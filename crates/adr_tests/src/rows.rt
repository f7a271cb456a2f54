//! The rows of tables, and what is answered to each.
use crate::moments::at;
use crate::{decimals, jobs, moments, objects};
use adr_time::{read_moment, read_start};
use adr_value::{Refusal, shield};
use std::alloc::Global;
use std::test::Fail;

/// What is asked of the texts of a table.
#[derive(Clone, Copy)]
pub(crate) enum Spelled {
    Decimal,
    Moment,
    Start,
    Body,
    Object,
    Edit,
    Job,
}

/// Whether what is asked of the text is answered as is wanted.
fn holds(alloc: Global, asked: Spelled, text: &str, wanted: &str) -> Result<bool, Refusal> {
    match asked {
        Spelled::Decimal => decimals::spells(alloc, text, wanted),
        Spelled::Moment => moments::is_told(alloc, read_moment(text)?, wanted),
        Spelled::Start => moments::is_told(alloc, read_start(text, at(5))?, wanted),
        Spelled::Body => Ok(shield(alloc, text.as_bytes())?.as_slice() == wanted.as_bytes()),
        Spelled::Object => objects::is_read_whole(alloc, text),
        Spelled::Edit => objects::is_read_edit_copied(alloc, text),
        Spelled::Job => jobs::is_asked(alloc, text, wanted),
    }
}

/// Fails by the first row of a table that is answered otherwise than is wanted. A row is what is wanted and the text,
/// as `WANTED = TEXT`, or both at once. A refusal is wanted by its name.
pub(crate) fn check(alloc: Global, asked: Spelled, table: &str) -> Result<(), Fail> {
    for row in table.lines() {
        let (wanted, text) = row.split_once(" = ").unwrap_or((row, row));
        let is_answered = match holds(alloc, asked, text, wanted) {
            Ok(holds) => holds,
            Err(refusal) => refusal.name() == wanted,
        };
        if !is_answered {
            return Err(Fail::new(row));
        }
    }
    Ok(())
}
