//! What an event asks for.
ghost use Rattle.std.specs.Prelude.{◌≡◌, ◌++◌, flat_map, option_to_list, OnOk};
ghost use Rattle.adr_refusal.specs.Answer.{OnlyNoMemory};
ghost use Rattle.adr_refusal.specs.Copy.{IsCopyOf};
ghost use Rattle.adr_audience.specs.Asks.{asked_by, asks_no_key as the_asks_no_key, asks};
ghost use Rattle.adr_audience.specs.Offers.{asked_key as the_asked_key};

use crate::query::is_fixed;
use crate::resource_keys::asked_key;
use adr_keys::{Key, Row};
use adr_object::{Event, Program, Target};
use adr_value::{Datum, Name, Refusal};
use std::alloc::Global;

/// What an event of the program asks for: the keys of its targets and of its program's, or anyone where there is none
/// of them. `NoMemory` where there is no room for it.
pub(crate) fn asked(alloc: Global, event: &Event, program: &Program) -> Result<Row, Refusal>
    ensures { IsCopyOf result (asks event.now program.now) }
{
    let mut keys = Vec::new(alloc);
    if asks_no_key(event.targets.as_slice()) && asks_no_key(program.targets.as_slice()) {
        keys.push(Key::Anyone)?;
        return Ok(Row::new(keys));
    }
    add_asked(&mut keys, event.targets.as_slice())?;
    add_asked(&mut keys, program.targets.as_slice())?;
    Ok(Row::new(keys))
}

fn asks_no_key(targets: &[Target]) -> bool
    ensures { result ≡ the_asks_no_key targets.now }
{
    targets.iter().all(|target| is_fixed(&target.kind))
}

fn add_asked(keys: &mut Vec<Key>, targets: &[Target]) -> Result<(), Refusal>
    ensures ok { OnOk result (keys.new.items ≡ keys.old.items ++ asked_by targets.now) }
    ensures refusal { OnlyNoMemory result }
{
    for target in targets {
        if !is_fixed(&target.kind) {
            add_asked_values(keys, &target.kind, target.values.as_slice())?;
        }
    }
    Ok(())
}

fn add_asked_values(keys: &mut Vec<Key>, kind: &Name, values: &[Datum]) -> Result<(), Refusal>
    ensures ok { OnOk result (keys.new.items ≡ keys.old.items ++ flat_map (λ v. option_to_list (the_asked_key kind.now v)) values.now) }
    ensures refusal { OnlyNoMemory result }
{
    for value in values {
        add_asked_value(keys, kind, value)?;
    }
    Ok(())
}

fn add_asked_value(keys: &mut Vec<Key>, kind: &Name, value: &Datum) -> Result<(), Refusal>
    ensures ok { OnOk result (keys.new.items ≡ keys.old.items ++ option_to_list (the_asked_key kind.now value.now)) }
    ensures refusal { OnlyNoMemory result }
{
    let key = asked_key(kind, value)?;
    let Some(key) = key else {
        return Ok(());
    };
    keys.push(key)?;
    Ok(())
}
