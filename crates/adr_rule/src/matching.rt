//! Whether the targets of an event and of its program match a resource and its ven.
ghost use Rattle.std.specs.Prelude.{◌≡◌, ◌&&◌, Option, option_map};
ghost use Rattle.std.specs.List.{list_any};
ghost use Rattle.std.specs.Str.{bytes_eq};
ghost use Rattle.adr_value.specs.Same.{same_datum};
ghost use Rattle.adr_model.specs.Matching.{is_name, is_event_name, has_value, is_matched, matches, applies};
ghost use Rattle.adr_rule.specs.Scene.{scene_view};

use crate::scene::Scene;
use adr_object::Target;
use adr_value::{Datum, Text};

/// Whether an event applies to a resource: its own targets and its program's both match (OpenADR 3.0 User Guide,
/// targeting). It takes no memory. Cost: that of `matches` on the two lists.
pub fn applies(scene: &Scene<'_>) -> bool
    ensures { result ≡ applies (scene_view scene.now) }
{
    matches(scene.event.targets.as_slice(), scene)
        && matches(scene.program.targets.as_slice(), scene)
}

/// Whether a list of targets matches: for each type that occurs in it, some value under that type does, the values
/// of all maps of the type taken together. An empty list matches all; a type with no values at all never matches.
/// Under `RESOURCE_NAME`, `VEN_NAME`, `EVENT_NAME` and `PROGRAM_NAME` a value matches where it is a text equal to
/// that object's name, under any other type where the resource or its ven has an equal value under the type.
///
/// It takes no memory. Cost: for each map the list is gone through once, and each value of its type is compared
/// with the targets of the resource and of its ven, up to the first that matches.
pub fn matches(targets: &[Target], scene: &Scene<'_>) -> bool
    ensures { result ≡ matches targets.now (scene_view scene.now) }
{
    targets.iter().all(|target| is_type_matched(targets, target.kind.as_str(), scene))
}

/// Whether some value under the type is matched.
fn is_type_matched(targets: &[Target], kind: &str, scene: &Scene<'_>) -> bool
    ensures { result ≡ list_any (λ u. bytes_eq u.kind kind.now && list_any (is_matched (scene_view scene.now) kind.now) u.values) targets.now }
{
    targets.iter().any(|other| other.kind.as_str() == kind
        && is_any_matched(other.values.as_slice(), kind, scene))
}

fn is_any_matched(values: &[Datum], kind: &str, scene: &Scene<'_>) -> bool
    ensures { result ≡ list_any (is_matched (scene_view scene.now) kind.now) values.now }
{
    values.iter().any(|value| is_matched(scene, kind, value))
}

/// Whether one value under the type is matched.
fn is_matched(scene: &Scene<'_>, kind: &str, value: &Datum) -> bool
    ensures { result ≡ is_matched (scene_view scene.now) kind.now value.now }
{
    if kind == "RESOURCE_NAME" {
        return is_name(value, scene.resource.resource_name.as_str());
    }
    if kind == "VEN_NAME" {
        return is_name(value, scene.ven.ven_name.as_str());
    }
    if kind == "EVENT_NAME" {
        return is_event_name(value, &scene.event.event_name);
    }
    if kind == "PROGRAM_NAME" {
        return is_name(value, scene.program.program_name.as_str());
    }
    has_value(scene.resource.targets.as_slice(), kind, value)
        || has_value(scene.ven.targets.as_slice(), kind, value)
}

/// Whether the value is a text equal to the name.
fn is_name(value: &Datum, name: &str) -> bool
    ensures { result ≡ is_name value.now name.now }
{
    match value {
        Datum::Text(text) => text.as_str() == name,
        _ => false,
    }
}

/// An event without a name matches none.
fn is_event_name(value: &Datum, name: &Option<Text>) -> bool
    ensures { result ≡ is_event_name value.now name.now }
{
    match name {
        Some(name) => is_name(value, name.as_str()),
        None => false,
    }
}

/// Whether the targets have the value under the type.
fn has_value(targets: &[Target], kind: &str, value: &Datum) -> bool
    ensures { result ≡ has_value targets.now kind.now value.now }
{
    targets.iter().any(|target| target.kind.as_str() == kind
        && has_datum(target.values.as_slice(), value))
}

fn has_datum(values: &[Datum], value: &Datum) -> bool
    ensures { result ≡ list_any (same_datum value.now) values.now }
{
    values.iter().any(|other| value.same(other))
}
