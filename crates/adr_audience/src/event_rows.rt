//! What the events of a store ask for, a row for each, and what edits do to these rows.
ghost use Rattle.std.specs.Prelude.{◌≡◌, ◌++◌, ◌∷◌, [], length, map, IfOk, IsOk, OnOk, OnErr};
ghost use Rattle.adr_refusal.specs.Answer.{OnlyNoMemory};
ghost use Rattle.adr_refusal.specs.Copy.{IsCopyOf};
ghost use Rattle.adr_object.specs.declared.object.Edit.TheVariants.{Change, Remove};
ghost use Rattle.adr_object.specs.declared.object.Kind.TheVariants.{Event as event_kind};
ghost use Rattle.adr_object.specs.declared.object.Object.TheVariants.{Event as event_object};
ghost use Rattle.adr_model.specs.Edits.{made, step};
ghost use Rattle.adr_model.specs.Whole.{IsWhole};
ghost use Rattle.adr_audience.specs.Asks.{asked_in as the_asked_in, asks_of as the_asks_of, fresh_asks as the_fresh_asks, with_program};

use crate::event_keys::asked;
use adr_keys::{KeyIndex, Row};
use adr_object::{Event, Id, Kind, Program};
use adr_store::Store;
use adr_value::Refusal;
use std::alloc::Global;

/// What the events of the store ask for.
pub(crate) fn asks_of(alloc: Global, store: &Store) -> Result<KeyIndex, Refusal>
    ensures { IsCopyOf result (the_asks_of store.now) }
{
    let mut rows = KeyIndex::new(alloc);
    for place in 0..store.count(Kind::Event) {
        let Some(event) = store.event_at(place) else {
            unreachable!();
        };
        add_event(&mut rows, alloc, store, event)?;
    }
    Ok(rows)
}

/// Adds what the event asks for with its program of the store.
pub(crate) fn add_event(
    rows: &mut KeyIndex,
    alloc: Global,
    store: &Store,
    event: &Event,
) -> Result<(), Refusal>
    ensures ok { OnOk result (rows.new ≡ rows.old ++ the_asked_in store.now event.now ∷ []) }
    ensures err { OnErr result (rows.new ≡ rows.old) }
    ensures refusal { OnlyNoMemory result }
{
    let row = asked_in(alloc, store, event)?;
    rows.push(row)
}

/// What the event asks for with its program of the store, and nothing where the program is not there.
fn asked_in(alloc: Global, store: &Store, event: &Event) -> Result<Row, Refusal>
    ensures { IsCopyOf result (the_asked_in store.now event.now) }
{
    match store.program(&event.program_id) {
        Some(program) => asked(alloc, event, program),
        None => Ok(Row::new(Vec::new(alloc))),
    }
}

/// An event that changes stays in its place.
pub(crate) fn follow_event(
    rows: &mut KeyIndex,
    alloc: Global,
    store: &Store,
    event: &Event,
) -> Result<(), Refusal>
    requires rows { rows.old ≡ the_asks_of store.now }
    requires whole { IsWhole store.now }
    requires accepted { IsOk (step store.now (Change (event_object event.now))) }
    ensures ok { OnOk result (rows.new ≡ the_asks_of (made store.now (Change (event_object event.now)))) }
    ensures err { OnErr result (rows.new ≡ rows.old) }
    ensures refusal { OnlyNoMemory result }
{
    let Some(place) = store.event_place(&event.id) else {
        unreachable!();
    };
    let row = asked_in(alloc, store, event)?;
    rows.replace(place, row)
}

/// An event that goes leaves no gap.
pub(crate) fn remove_event(rows: &mut KeyIndex, store: &Store, id: &Id)
    requires rows { rows.old ≡ the_asks_of store.now }
    requires whole { IsWhole store.now }
    requires accepted { IsOk (step store.now (Remove event_kind id.now)) }
    ensures { rows.new ≡ the_asks_of (made store.now (Remove event_kind id.now)) }
{
    let Some(place) = store.event_place(id) else {
        unreachable!();
    };
    rows.remove(place);
}

/// Puts what the events of the program ask for with it as it is now in the place of what they asked for.
pub(crate) fn follow_program(
    rows: &mut KeyIndex,
    alloc: Global,
    store: &Store,
    program: &Program,
) -> Result<(), Refusal>
    requires { length store.now.events ≡ length rows.old }
    ensures ok { OnOk result (rows.new ≡ with_program program.now store.now.events rows.old) }
    ensures err { OnErr result (rows.new ≡ rows.old) }
    ensures refusal { OnlyNoMemory result }
{
    let mut fresh = fresh_rows(alloc, store, program)?;
    rows.renew(&mut fresh)
}

/// What each event of the program asks for with it, and nothing for the others.
fn fresh_rows(alloc: Global, store: &Store, program: &Program) -> Result<Vec<Option<Row>>, Refusal>
    ensures rows { IfOk result (λ rows. rows.items ≡ map (λ w. the_fresh_asks program.now w.event) store.now.events) }
    ensures refusal { OnlyNoMemory result }
{
    let mut rows = Vec::new(alloc);
    for place in 0..store.count(Kind::Event) {
        let Some(event) = store.event_at(place) else {
            unreachable!();
        };
        let row = fresh_asks(alloc, event, program)?;
        rows.push(row)?;
    }
    Ok(rows)
}

/// What the event asks for with the program, where it is the program's.
fn fresh_asks(alloc: Global, event: &Event, program: &Program) -> Result<Option<Row>, Refusal>
    ensures { IsCopyOf result (the_fresh_asks program.now event.now) }
{
    if program.id.text() == event.program_id.text() {
        return Ok(Some(asked(alloc, event, program)?));
    }
    Ok(None)
}
