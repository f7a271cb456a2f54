//! The payload types that govern a resource at some moment.
ghost use Rattle.std.specs.Prelude.{◌≡◌, ◌++◌, [], OnOk, IfOk, flat_map, is_some};
ghost use Rattle.std.specs.Option.{option_map_or};
ghost use Rattle.std.specs.List.{list_any, slice_get};
ghost use Rattle.adr_refusal.specs.Answer.{OnlyNoMemory};
ghost use Rattle.adr_value.specs.Payload.{of_code, table};
ghost use Rattle.adr_value.specs.declared.payload.PayloadType.TheVariants.{Private};
ghost use Rattle.adr_model.specs.Governor.{winner_at as winner_of_all_at};
ghost use Rattle.std.specs.Cmp.Lexicographic.{slice_cmp};
ghost use Rattle.std.specs.Ordering.{nat_cmp};
ghost use Rattle.adr_model.specs.Queries.{governing_types, in_order, is_governed, private_name, private_names};
ghost use Rattle.adr_plain.specs.Scan.{type_if_governed};

use crate::entries::ranked_entries;
use crate::governing::winner_at;
use crate::order::names_in_order;
use adr_book::Book;
use adr_model::{Entry, Tie};
use adr_object::{Event, Id, Interval, Kind, Payload};
use adr_value::{PayloadType, PrivateName, Refusal};
use std::alloc::Global;

/// Whether something wins where some entry starts.
fn is_won(entries: &[Entry]) -> bool
    ensures { result ≡ list_any (λ e. is_some (winner_of_all_at entries.now e.span.start)) entries.now }
{
    entries
        .iter()
        .any(|entry| winner_at(entries, entry.span.start).is_some())
}

/// Whether something of the type governs the resource at some moment.
#[tactic(auto, using(crate::proofs::Governed::won_is_governed))]
fn governs(
    alloc: Global,
    book: &Book,
    tie: Tie,
    id: &Id,
    payload_type: &PayloadType,
) -> Result<bool, Refusal>
    ensures ok { IfOk result (λ b. b ≡ is_governed tie book.now.objects id.now payload_type.now) }
    ensures memory { OnlyNoMemory result }
{
    let entries = ranked_entries(alloc, book, tie, id, payload_type)?;
    Ok(is_won(entries.as_slice()))
}

/// Adds the type, if it governs at some moment.
fn add_type(
    types: &mut Vec<PayloadType>,
    book: &Book,
    tie: Tie,
    id: &Id,
    payload_type: PayloadType,
) -> Result<(), Refusal>
    ensures ok { OnOk result (types.new.items ≡ types.old.items ++ type_if_governed tie book.now.objects id.now payload_type) }
    ensures memory { OnlyNoMemory result }
{
    if governs(*types.allocator(), book, tie, id, &payload_type)? {
        types.push(payload_type)?;
    }
    Ok(())
}

/// Adds the type at a place of the table, if it governs at some moment.
fn add_table_type(
    types: &mut Vec<PayloadType>,
    book: &Book,
    tie: Tie,
    id: &Id,
    code: u8,
) -> Result<(), Refusal>
    ensures ok { OnOk result (types.new.items ≡ types.old.items ++ option_map_or (type_if_governed tie book.now.objects id.now) (of_code code) []) }
    ensures memory { OnlyNoMemory result }
{
    match PayloadType::of_code(code) {
        Some(payload_type) => add_type(types, book, tie, id, payload_type),
        None => Ok(()),
    }
}

/// Adds the table's types that govern, in its order.
#[tactic(auto, using(adr_calendar::proofs::Walked::whole_walk))]
fn add_table_types(
    types: &mut Vec<PayloadType>,
    book: &Book,
    tie: Tie,
    id: &Id,
) -> Result<(), Refusal>
    ensures ok { OnOk result (types.new.items ≡ types.old.items ++ flat_map (λ r. type_if_governed tie book.now.objects id.now r.case) table) }
    ensures memory { OnlyNoMemory result }
{
    for code in 0..34 {
        add_table_type(types, book, tie, id, code)?;
    }
    Ok(())
}

/// Adds the private type of the name, if it governs at some moment.
fn add_private_type(
    types: &mut Vec<PayloadType>,
    book: &Book,
    tie: Tie,
    id: &Id,
    name: &PrivateName,
) -> Result<(), Refusal>
    ensures ok { OnOk result (types.new.items ≡ types.old.items ++ type_if_governed tie book.now.objects id.now (Private name.now)) }
    ensures memory { OnlyNoMemory result }
{
    add_type(types, book, tie, id, PayloadType::Private(name.copy()?))
}

/// Adds the private types of these names that govern.
fn add_private_types(
    types: &mut Vec<PayloadType>,
    book: &Book,
    tie: Tie,
    id: &Id,
    names: &[PrivateName],
) -> Result<(), Refusal>
    ensures ok { OnOk result (types.new.items ≡ types.old.items ++ flat_map (λ name. type_if_governed tie book.now.objects id.now (Private name)) names.now) }
    ensures memory { OnlyNoMemory result }
{
    for name in names {
        add_private_type(types, book, tie, id, name)?;
    }
    Ok(())
}

fn add_name(names: &mut Vec<PrivateName>, payload: &Payload) -> Result<(), Refusal>
    ensures ok { OnOk result (names.new.items ≡ names.old.items ++ private_name payload.now.kind) }
    ensures memory { OnlyNoMemory result }
{
    if let PayloadType::Private(name) = &payload.kind {
        names.push(name.copy()?)?;
    }
    Ok(())
}

fn add_interval(names: &mut Vec<PrivateName>, interval: &Interval) -> Result<(), Refusal>
    ensures ok { OnOk result (names.new.items ≡ names.old.items ++ flat_map (λ p. private_name p.kind) interval.now.payloads) }
    ensures memory { OnlyNoMemory result }
{
    for payload in interval.payloads.as_slice() {
        add_name(names, payload)?;
    }
    Ok(())
}

fn add_event(names: &mut Vec<PrivateName>, event: &Event) -> Result<(), Refusal>
    ensures ok { OnOk result (names.new.items ≡ names.old.items ++ flat_map (λ i. flat_map (λ p. private_name p.kind) i.payloads) event.now.intervals) }
    ensures memory { OnlyNoMemory result }
{
    for interval in event.intervals.as_slice() {
        add_interval(names, interval)?;
    }
    Ok(())
}

fn add_event_at(names: &mut Vec<PrivateName>, book: &Book, place: usize) -> Result<(), Refusal>
    ensures ok { OnOk result (names.new.items ≡ names.old.items ++ option_map_or (λ w. flat_map (λ i. flat_map (λ p. private_name p.kind) i.payloads) w.event.intervals) (slice_get book.now.objects.events place) []) }
    ensures memory { OnlyNoMemory result }
{
    match book.event_at(place) {
        Some(event) => add_event(names, event),
        None => Ok(()),
    }
}

/// The names of the private types that events carry.
#[tactic(auto, using(adr_calendar::proofs::Walked::one_more, adr_calendar::proofs::Walked::whole_walk))]
fn names_of(alloc: Global, book: &Book) -> Result<Vec<PrivateName>, Refusal>
    ensures ok { IfOk result (λ v. v.items ≡ private_names book.now.objects) }
    ensures memory { OnlyNoMemory result }
{
    let mut names = Vec::new(alloc);
    for place in 0..book.count(Kind::Event) {
        add_event_at(&mut names, book, place)?;
    }
    Ok(names)
}

/// The private types that events carry, in order, each once.
fn private_types(alloc: Global, book: &Book) -> Result<Vec<PrivateName>, Refusal>
    ensures ok { IfOk result (λ v. v.items ≡ in_order (slice_cmp nat_cmp) (private_names book.now.objects)) }
    ensures memory { OnlyNoMemory result }
{
    let names = names_of(alloc, book)?;
    names_in_order(alloc, names.as_slice())
}

/// Adds the types that govern: the table's, then the private ones of these names.
fn add_types(
    types: &mut Vec<PayloadType>,
    book: &Book,
    tie: Tie,
    id: &Id,
    names: &[PrivateName],
) -> Result<(), Refusal>
    requires { names.now ≡ in_order (slice_cmp nat_cmp) (private_names book.now.objects) }
    ensures ok { OnOk result (types.new.items ≡ types.old.items ++ governing_types tie book.now.objects id.now) }
    ensures memory { OnlyNoMemory result }
{
    add_table_types(types, book, tie, id)?;
    add_private_types(types, book, tie, id, names)
}

/// The types that govern the resource, in the order in which they are listed.
pub(crate) fn types_of(
    alloc: Global,
    book: &Book,
    tie: Tie,
    id: &Id,
) -> Result<Vec<PayloadType>, Refusal>
    ensures ok { IfOk result (λ v. v.items ≡ governing_types tie book.now.objects id.now) }
    ensures memory { OnlyNoMemory result }
{
    let names = private_types(alloc, book)?;
    let mut types = Vec::new(alloc);
    add_types(&mut types, book, tie, id, names.as_slice())?;
    Ok(types)
}
