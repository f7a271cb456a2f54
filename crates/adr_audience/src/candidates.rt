//! Which events may apply to a resource, from the sets of places, and the numbers of the writes of those that do.
ghost use Rattle.std.specs.Prelude.{◌≡◌, ◌∷◌, [], ℕ, ◌||◌, filter, flat_map, get_or, length, option_to_list, IsTrue, IfOk};
ghost use Rattle.std.specs.List.{range_with_len};
ghost use Rattle.adr_refusal.specs.Answer.{OnlyNoMemory};
ghost use Rattle.adr_keys.specs.Places.{has, fits};
ghost use Rattle.adr_keys.specs.declared.key.Key.TheVariants.{Anyone};
ghost use Rattle.adr_audience.specs.Asks.{shares, number_at as the_number_at, applies_with as the_applies_with};

use adr_keys::{Key, KeyIndex, Places};
use adr_object::{Event, Resource, Ven};
use adr_rule::{Scene, applies};
use adr_store::Store;
use adr_value::Refusal;
use std::alloc::Global;

/// The places whose rows have one of the keys, or ask for anyone.
pub(crate) fn candidates(
    index: &KeyIndex,
    alloc: Global,
    keys: &[Key],
) -> Result<Vec<usize>, Refusal>
    ensures ok { IfOk result (λ places. places.items ≡ filter (λ p. shares (get_or index.now p []) (Anyone ∷ keys.now)) (range_with_len 0 (length index.now))) }
    ensures refusal { OnlyNoMemory result }
{
    let mut found = Places::with_room(alloc, index.len())?;
    index.add_to(&Key::Anyone, &mut found);
    add_keys(index, keys, &mut found);
    found.list(alloc, index.len())
}

/// Adds the places whose rows have one of the keys.
fn add_keys(index: &KeyIndex, keys: &[Key], found: &mut Places)
    ensures places { (p : ℕ) → IsTrue (fits found.old p) → has found.new p ≡ (has found.old p || shares (get_or index.now p []) keys.now) }
    ensures room { (p : ℕ) → fits found.new p ≡ fits found.old p }
{
    for key in keys {
        index.add_to(key, found);
    }
}

/// The numbers of the writes of the events at those of the places where they apply to the resource of the ven.
pub(crate) fn numbers_at(
    alloc: Global,
    store: &Store,
    resource: &Resource,
    ven: &Ven,
    places: &[usize],
) -> Result<Vec<u64>, Refusal>
    ensures ok { IfOk result (λ numbers. numbers.items ≡ flat_map (λ p. option_to_list (the_number_at store.now resource.now ven.now p)) places.now) }
    ensures refusal { OnlyNoMemory result }
{
    let mut numbers = Vec::new(alloc);
    for place in places {
        if let Some(number) = number_at(store, resource, ven, *place) {
            numbers.push(number)?;
        }
    }
    Ok(numbers)
}

/// The number of the write of the event at the place, if the event applies to the resource of the ven.
fn number_at(store: &Store, resource: &Resource, ven: &Ven, place: usize) -> Option<u64>
    ensures { result ≡ the_number_at store.now resource.now ven.now place }
{
    match store.kept_at(place) {
        Some(kept) if applies_with(store, resource, ven, kept.event()) => Some(kept.written()),
        _ => None,
    }
}

/// Whether the event, with its program, applies to the resource of the ven.
fn applies_with(store: &Store, resource: &Resource, ven: &Ven, event: &Event) -> bool
    ensures { result ≡ the_applies_with store.now resource.now ven.now event.now }
{
    match store.program(&event.program_id) {
        Some(program) => {
            let scene = Scene {
                program,
                event,
                ven,
                resource,
            };
            applies(&scene)
        }
        None => false,
    }
}
