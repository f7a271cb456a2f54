//! Whom an event is for, from the sets of places.
ghost use Rattle.std.specs.Prelude.{◌≡◌, ℕ, ◌<◌, [], ◌||◌, ◌&&◌, false, get_or, length, IsTrue, IfOk, OnOk};
ghost use Rattle.std.specs.List.{list_any};
ghost use Rattle.std.specs.Option.{option_map_or};
ghost use Rattle.std.specs.Str.{bytes_eq};
ghost use Rattle.adr_refusal.specs.Answer.{OnlyNoMemory};
ghost use Rattle.adr_model.specs.Matching.{is_name, is_event_name};
ghost use Rattle.adr_keys.specs.Places.{has, fits};
ghost use Rattle.adr_audience.specs.Query.{is_fixed as the_is_fixed, is_called as the_is_called, is_offered, meets_value, meets_type, meets, is_for, places_where};
ghost use Rattle.adr_keys.specs.Rows.{offers_key};

use crate::resource_keys::asked_key;
use adr_keys::{Key, KeyIndex, Places};
use adr_object::{Event, Program, Target};
use adr_value::{Datum, Name, Refusal, Text};
use std::alloc::Global;

/// The places, that an event of the program is for, in order.
pub(crate) fn places_for(
    index: &KeyIndex,
    alloc: Global,
    event: &Event,
    program: &Program,
) -> Result<Vec<usize>, Refusal>
    ensures ok { IfOk result (λ places. places.items ≡ places_where (λ row. is_for event.now program.now (offers_key row)) index.now) }
    ensures refusal { OnlyNoMemory result }
{
    let mut found = Places::first(alloc, index.len())?;
    narrow(
        &mut found,
        index,
        alloc,
        event.targets.as_slice(),
        event,
        program,
    )?;
    narrow(
        &mut found,
        index,
        alloc,
        program.targets.as_slice(),
        event,
        program,
    )?;
    found.list(alloc, index.len())
}

/// Keeps the places, that meet a list of targets.
fn narrow(
    found: &mut Places,
    index: &KeyIndex,
    alloc: Global,
    targets: &[Target],
    event: &Event,
    program: &Program,
) -> Result<(), Refusal>
    ensures ok { OnOk result ((p : ℕ) → p < length index.now → has found.new p ≡ (has found.old p && meets (meets_value event.now program.now (offers_key (get_or index.now p []))) targets.now)) }
    ensures refusal { OnlyNoMemory result }
{
    for target in targets {
        narrow_type(found, index, alloc, targets, &target.kind, event, program)?;
    }
    Ok(())
}

/// Keeps the places, that meet some value of the maps of a type.
fn narrow_type(
    found: &mut Places,
    index: &KeyIndex,
    alloc: Global,
    targets: &[Target],
    kind: &Name,
    event: &Event,
    program: &Program,
) -> Result<(), Refusal>
    ensures ok { OnOk result ((p : ℕ) → p < length index.now → has found.new p ≡ (has found.old p && meets_type (meets_value event.now program.now (offers_key (get_or index.now p []))) targets.now kind.now)) }
    ensures refusal { OnlyNoMemory result }
{
    if is_fixed(kind) {
        if !is_any_called(targets, kind, event, program) {
            found.clear();
        }
        return Ok(());
    }
    let group = gathered(index, alloc, targets, kind)?;
    found.keep_all(&group);
    Ok(())
}

/// The places, that have a value of some map of the type.
fn gathered(
    index: &KeyIndex,
    alloc: Global,
    targets: &[Target],
    kind: &Name,
) -> Result<Places, Refusal>
    ensures ok { IfOk result (λ group. (p : ℕ) → p < length index.now → has group p ≡ meets_type (is_offered (offers_key (get_or index.now p []))) targets.now kind.now) }
    ensures refusal { OnlyNoMemory result }
{
    let mut group = Places::with_room(alloc, index.len())?;
    for other in targets {
        add_map(&mut group, index, kind, other)?;
    }
    Ok(group)
}

/// Adds the places that have a value of the map, where it is of the type.
fn add_map(group: &mut Places, index: &KeyIndex, kind: &Name, other: &Target) -> Result<(), Refusal>
    ensures ok { OnOk result ((p : ℕ) → IsTrue (fits group.old p) → has group.new p ≡ (has group.old p || (bytes_eq other.now.kind kind.now && list_any (is_offered (offers_key (get_or index.now p [])) kind.now) other.now.values))) }
    ensures room { (p : ℕ) → IsTrue (fits group.old p) → IsTrue (fits group.new p) }
    ensures refusal { OnlyNoMemory result }
{
    if other.kind.as_str() != kind.as_str() {
        return Ok(());
    }
    add_values(group, index, kind, other.values.as_slice())
}

/// Adds the places that have one of the values under the type.
fn add_values(
    group: &mut Places,
    index: &KeyIndex,
    kind: &Name,
    values: &[Datum],
) -> Result<(), Refusal>
    ensures ok { OnOk result ((p : ℕ) → IsTrue (fits group.old p) → has group.new p ≡ (has group.old p || list_any (is_offered (offers_key (get_or index.now p [])) kind.now) values.now)) }
    ensures room { (p : ℕ) → IsTrue (fits group.old p) → IsTrue (fits group.new p) }
    ensures refusal { OnlyNoMemory result }
{
    for value in values {
        let key = asked_key(kind, value)?;
        add_set(group, index, &key);
    }
    Ok(())
}

/// Adds the places that offer the key, where there is one.
fn add_set(group: &mut Places, index: &KeyIndex, key: &Option<Key>)
    ensures places { (p : ℕ) → IsTrue (fits group.old p) → has group.new p ≡ (has group.old p || option_map_or (offers_key (get_or index.now p [])) key.now false) }
    ensures room { (p : ℕ) → fits group.new p ≡ fits group.old p }
{
    match key {
        Some(key) => index.add_to(key, group),
        None => {}
    }
}

/// Whether the type asks for the name of the event or of its program.
pub(crate) fn is_fixed(kind: &Name) -> bool
    ensures { result ≡ the_is_fixed kind.now }
{
    kind.as_str() == "EVENT_NAME" || kind.as_str() == "PROGRAM_NAME"
}

/// Whether a value of some map of the type is the name of the event, or of its program.
fn is_any_called(targets: &[Target], kind: &Name, event: &Event, program: &Program) -> bool
    ensures { result ≡ meets_type (the_is_called event.now program.now) targets.now kind.now }
{
    targets.iter().any(|other| other.kind.as_str() == kind.as_str()
        && has_called(other.values.as_slice(), kind, event, program))
}

fn has_called(values: &[Datum], kind: &Name, event: &Event, program: &Program) -> bool
    ensures { result ≡ list_any (the_is_called event.now program.now kind.now) values.now }
{
    values
        .iter()
        .any(|value| is_called(event, program, kind, value))
}

fn is_called(event: &Event, program: &Program, kind: &Name, value: &Datum) -> bool
    ensures { result ≡ the_is_called event.now program.now kind.now value.now }
{
    if kind.as_str() == "EVENT_NAME" {
        return is_event_name(value, &event.event_name);
    }
    is_name(value, program.program_name.as_str())
}

/// Whether the value is a text equal to the name.
fn is_name(value: &Datum, name: &str) -> bool
    ensures { result ≡ is_name value.now name.now }
{
    match value {
        Datum::Text(text) => text.as_str() == name,
        _ => false,
    }
}

/// An event without a name matches none.
fn is_event_name(value: &Datum, name: &Option<Text>) -> bool
    ensures { result ≡ is_event_name value.now name.now }
{
    match name {
        Some(name) => is_name(value, name.as_str()),
        None => false,
    }
}
