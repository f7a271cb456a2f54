//! Which resources are a ven's, from the sets of places.
ghost use Rattle.std.specs.Prelude.{◌≡◌, ◌<◌, [], ℕ, Some, get_or, length, IfOk};
ghost use Rattle.adr_refusal.specs.Answer.{OnlyNoMemory};
ghost use Rattle.adr_model.specs.Book.{ven_by};
ghost use Rattle.adr_keys.specs.Places.{has};
ghost use Rattle.adr_keys.specs.Rows.{offers_key};
ghost use Rattle.adr_keys.specs.declared.key.Key.TheVariants.{Ven as ven_key};
ghost use Rattle.adr_audience.specs.Rows.{is_of_ven as the_is_of_ven, offers_of as the_offers_of, places_of_ven as the_places_of_ven};

use adr_keys::{Key, KeyIndex, Places};
use adr_object::{Id, Ven};
use adr_store::Store;
use adr_value::{Name, Refusal, Text};
use std::alloc::Global;

/// The places whose rows have the name of a ven. Vens may share one.
pub(crate) fn places_named(rows: &KeyIndex, alloc: Global, name: &Name) -> Result<Places, Refusal>
    ensures places { IfOk result (λ set. (p : ℕ) → p < length rows.now → has set p ≡ offers_key (get_or rows.now p []) (ven_key name.now)) }
    ensures refusal { OnlyNoMemory result }
{
    let key = Key::Ven(Text::new(alloc, name.as_str())?);
    let mut named = Places::with_room(alloc, rows.len())?;
    rows.add_to(&key, &mut named);
    Ok(named)
}

/// The places of the resources of the ven, where it is the store's and the rows are what the store's resources offer.
pub(crate) fn places_of_ven(
    rows: &KeyIndex,
    alloc: Global,
    store: &Store,
    ven: &Ven,
) -> Result<Vec<usize>, Refusal>
    ensures places { rows.now ≡ the_offers_of store.now → ven_by store.now ven.now.id ≡ Some ven.now → IfOk result (λ places. places.items ≡ the_places_of_ven store.now ven.now.id) }
    ensures refusal { OnlyNoMemory result }
{
    let named = places_named(rows, alloc, &ven.ven_name)?;
    let mut places = named.list(alloc, rows.len())?;
    places.retain(|place| is_of_ven(store, &ven.id, *place));
    Ok(places)
}

/// Whether the resource at the place is the ven's.
fn is_of_ven(store: &Store, ven: &Id, place: usize) -> bool
    ensures { result ≡ the_is_of_ven store.now ven.now place }
{
    match store.resource_at(place) {
        Some(resource) => ven.text() == resource.ven_id.text(),
        None => false,
    }
}
