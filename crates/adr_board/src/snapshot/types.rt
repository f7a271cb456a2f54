//! The payload types of a resource's timelines.
ghost use Rattle.std.specs.Prelude.{◌≡◌, ◌++◌, [], Bool, OnOk, IfOk, flat_map};
ghost use Rattle.std.specs.List.{slice_get};
ghost use Rattle.std.specs.Option.{option_map_or};
ghost use Rattle.adr_refusal.specs.Answer.{OnlyNoMemory};
ghost use Rattle.adr_value.specs.Payload.{name_of, of_code, table};
ghost use Rattle.adr_value.specs.declared.payload.PayloadType.{PayloadType as AnyType};
ghost use Rattle.adr_board.specs.Types.{private_if, type_if, IsTypeTest};

use adr_group::Group;
use adr_value::{PayloadType, Refusal};
use std::alloc::Global;

/// Whether something of the type governs at some instant: it has a line.
fn has_line(group: &Group, payload_type: &PayloadType) -> bool
    ensures { (test : AnyType → Bool) → IsTypeTest group.now.lines test → result ≡ test payload_type.now }
{
    group.timeline(payload_type).is_some()
}

/// Adds the type, if it has a line.
fn add_type(
    types: &mut Vec<PayloadType>,
    group: &Group,
    payload_type: PayloadType,
) -> Result<(), Refusal>
    ensures ok { OnOk result ((test : AnyType → Bool) → IsTypeTest group.now.lines test → types.new.items ≡ types.old.items ++ type_if test payload_type) }
    ensures memory { OnlyNoMemory result }
{
    if has_line(group, &payload_type) {
        types.push(payload_type)?;
    }
    Ok(())
}

/// Adds the type at a place of the table, if it has a line.
fn add_table_type(types: &mut Vec<PayloadType>, group: &Group, code: u8) -> Result<(), Refusal>
    ensures ok { OnOk result ((test : AnyType → Bool) → IsTypeTest group.now.lines test → types.new.items ≡ types.old.items ++ option_map_or (type_if test) (of_code code) []) }
    ensures memory { OnlyNoMemory result }
{
    match PayloadType::of_code(code) {
        Some(payload_type) => add_type(types, group, payload_type),
        None => Ok(()),
    }
}

/// The table's types that have a line, in its order.
fn table_types(alloc: Global, group: &Group) -> Result<Vec<PayloadType>, Refusal>
    ensures ok { IfOk result (λ types. (test : AnyType → Bool) → IsTypeTest group.now.lines test → types.items ≡ flat_map (λ r. type_if test r.case) table) }
    ensures memory { OnlyNoMemory result }
{
    let mut types = Vec::new(alloc);
    for code in 0..34 {
        add_table_type(&mut types, group, code)?;
    }
    Ok(types)
}

/// Adds the type, if it is a private one.
fn add_private(
    types: &mut Vec<PayloadType>,
    group: &Group,
    payload_type: &PayloadType,
) -> Result<(), Refusal>
    ensures ok { OnOk result ((test : AnyType → Bool) → IsTypeTest group.now.lines test → types.new.items ≡ types.old.items ++ private_if test (name_of payload_type.now)) }
    ensures memory { OnlyNoMemory result }
{
    let PayloadType::Private(name) = payload_type else {
        return Ok(());
    };
    let _name = name.as_str();
    add_type(types, group, PayloadType::Private(name.copy()?))
}

/// Adds the type of the line at the place, if it is a private one.
fn add_line(types: &mut Vec<PayloadType>, group: &Group, place: usize) -> Result<(), Refusal>
    ensures ok { OnOk result ((test : AnyType → Bool) → IsTypeTest group.now.lines test → types.new.items ≡ types.old.items ++ option_map_or (λ l. private_if test l.0) (slice_get group.now.lines place) []) }
    ensures memory { OnlyNoMemory result }
{
    match group.line_at(place) {
        Some((payload_type, _)) => add_private(types, group, payload_type),
        None => Ok(()),
    }
}

/// Adds the private types that have a line, in the order of their names.
fn add_private_types(types: &mut Vec<PayloadType>, group: &Group) -> Result<(), Refusal>
    ensures ok { OnOk result ((test : AnyType → Bool) → IsTypeTest group.now.lines test → types.new.items ≡ types.old.items ++ flat_map (λ l. private_if test l.0) group.now.lines) }
    ensures memory { OnlyNoMemory result }
{
    for place in 0..group.types() {
        add_line(types, group, place)?;
    }
    Ok(())
}

/// The types that have a line: those of the table in its order, then the private ones by name. Cost: a look-up for each
/// type of the table and each line.
pub(crate) fn types_of(alloc: Global, group: &Group) -> Result<Vec<PayloadType>, Refusal>
    ensures ok { IfOk result (λ types. (test : AnyType → Bool) → IsTypeTest group.now.lines test → types.items ≡ flat_map (λ r. type_if test r.case) table ++ flat_map (λ l. private_if test l.0) group.now.lines) }
    ensures memory { OnlyNoMemory result }
{
    let mut types = table_types(alloc, group)?;
    add_private_types(&mut types, group)?;
    Ok(types)
}
