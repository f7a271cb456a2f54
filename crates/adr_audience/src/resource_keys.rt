//! What a resource offers.
ghost use Rattle.std.specs.Prelude.{◌≡◌, ◌++◌, map, IfOk, OnOk};
ghost use Rattle.adr_refusal.specs.Answer.{OnlyNoMemory};
ghost use Rattle.adr_refusal.specs.Copy.{IsCopyOf};
ghost use Rattle.adr_audience.specs.Offers.{is_word, keys_of, offers, asked_key};

use adr_keys::{Key, Row};
use adr_object::{Resource, Target, Ven};
use adr_value::{Datum, Name, Refusal, Text};
use std::alloc::Global;

/// What the resource of the ven offers, as a row. `NoMemory` where there is no room for it.
pub(crate) fn offered(alloc: Global, resource: &Resource, ven: &Ven) -> Result<Row, Refusal>
    ensures { IsCopyOf result (offers resource.now ven.now) }
{
    let keys = offered_keys(alloc, resource, ven)?;
    Ok(Row::new(keys))
}

/// What the resource of the ven offers: its name, the ven's, and the values of both under types that are no words
/// for names. `NoMemory` where there is no room for it.
pub(crate) fn offered_keys(
    alloc: Global,
    resource: &Resource,
    ven: &Ven,
) -> Result<Vec<Key>, Refusal>
    ensures ok { IfOk result (λ keys. keys.items ≡ offers resource.now ven.now) }
    ensures refusal { OnlyNoMemory result }
{
    let mut keys = Vec::new(alloc);
    keys.push(Key::Resource(Text::new(alloc, resource.resource_name.as_str())?))?;
    keys.push(Key::Ven(Text::new(alloc, ven.ven_name.as_str())?))?;
    add_targets(&mut keys, resource.targets.as_slice())?;
    add_targets(&mut keys, ven.targets.as_slice())?;
    Ok(keys)
}

fn add_targets(keys: &mut Vec<Key>, targets: &[Target]) -> Result<(), Refusal>
    ensures ok { OnOk result (keys.new.items ≡ keys.old.items ++ keys_of targets.now) }
    ensures refusal { OnlyNoMemory result }
{
    for target in targets {
        if !is_word(target.kind.as_str()) {
            add_values(keys, &target.kind, target.values.as_slice())?;
        }
    }
    Ok(())
}

fn add_values(keys: &mut Vec<Key>, kind: &Name, values: &[Datum]) -> Result<(), Refusal>
    ensures ok { OnOk result (keys.new.items ≡ keys.old.items ++ map (λ v. Key.Value kind.now v) values.now) }
    ensures refusal { OnlyNoMemory result }
{
    for value in values {
        keys.push(Key::Value(kind.copy()?, value.copy()?))?;
    }
    Ok(())
}

/// Whether the type is a word for a name.
fn is_word(kind: &str) -> bool
    ensures { result ≡ is_word kind.now }
{
    kind == "RESOURCE_NAME" || kind == "VEN_NAME" || kind == "EVENT_NAME" || kind == "PROGRAM_NAME"
}

/// The key that a value under a type asks for, where it can ask for one.
pub(crate) fn asked_key(kind: &Name, value: &Datum) -> Result<Option<Key>, Refusal>
    ensures { IsCopyOf result (asked_key kind.now value.now) }
{
    if kind.as_str() == "RESOURCE_NAME" {
        return match value {
            Datum::Text(name) => Ok(Some(Key::Resource(name.copy()?))),
            _ => Ok(None),
        };
    }
    if kind.as_str() == "VEN_NAME" {
        return match value {
            Datum::Text(name) => Ok(Some(Key::Ven(name.copy()?))),
            _ => Ok(None),
        };
    }
    Ok(Some(Key::Value(kind.copy()?, value.copy()?)))
}
