//! What the resources of a store offer, a row for each, and what edits do to these rows.
ghost use Rattle.std.specs.Prelude.{◌≡◌, ◌++◌, ◌∷◌, [], ℕ, map, slice_get, IfOk, IsOk, IsTrue, OnOk, OnErr};
ghost use Rattle.std.specs.Option.{option_and_then};
ghost use Rattle.adr_refusal.specs.Answer.{OnlyNoMemory};
ghost use Rattle.adr_refusal.specs.Copy.{IsCopyOf};
ghost use Rattle.adr_object.specs.declared.object.Edit.TheVariants.{Change, Remove};
ghost use Rattle.adr_object.specs.declared.object.Kind.TheVariants.{Resource as resource_kind};
ghost use Rattle.adr_object.specs.declared.object.Object.TheVariants.{Resource as resource_object, Ven as ven_object};
ghost use Rattle.adr_model.specs.Edits.{made, step};
ghost use Rattle.adr_model.specs.Whole.{IsWhole};
ghost use Rattle.adr_keys.specs.Places.{has};
ghost use Rattle.adr_audience.specs.Rows.{offered_in as the_offered_in, offers_of as the_offers_of, fresh_row as the_fresh_row, is_of_ven, with_ven};

use crate::resource_keys::offered;
use crate::vens::places_named;
use adr_keys::{KeyIndex, Places, Row};
use adr_object::{Id, Kind, Resource, Ven};
use adr_store::Store;
use adr_value::Refusal;
use std::alloc::Global;

/// What the resources of the store offer.
pub(crate) fn offers_of(alloc: Global, store: &Store) -> Result<KeyIndex, Refusal>
    ensures { IsCopyOf result (the_offers_of store.now) }
{
    let mut rows = KeyIndex::new(alloc);
    for place in 0..store.count(Kind::Resource) {
        let Some(resource) = store.resource_at(place) else {
            unreachable!();
        };
        add_resource(&mut rows, alloc, store, resource)?;
    }
    Ok(rows)
}

/// Adds what the resource offers with its ven of the store.
pub(crate) fn add_resource(
    rows: &mut KeyIndex,
    alloc: Global,
    store: &Store,
    resource: &Resource,
) -> Result<(), Refusal>
    ensures ok { OnOk result (rows.new ≡ rows.old ++ the_offered_in store.now resource.now ∷ []) }
    ensures err { OnErr result (rows.new ≡ rows.old) }
    ensures refusal { OnlyNoMemory result }
{
    let row = offered_in(alloc, store, resource)?;
    rows.push(row)
}

/// What the resource offers with its ven of the store, and nothing where the ven is not there.
fn offered_in(alloc: Global, store: &Store, resource: &Resource) -> Result<Row, Refusal>
    ensures { IsCopyOf result (the_offered_in store.now resource.now) }
{
    match store.ven(&resource.ven_id) {
        Some(ven) => offered(alloc, resource, ven),
        None => Ok(Row::new(Vec::new(alloc))),
    }
}

/// A resource that changes stays in its place.
pub(crate) fn follow_resource(
    rows: &mut KeyIndex,
    alloc: Global,
    store: &Store,
    resource: &Resource,
) -> Result<(), Refusal>
    requires rows { rows.old ≡ the_offers_of store.now }
    requires whole { IsWhole store.now }
    requires accepted { IsOk (step store.now (Change (resource_object resource.now))) }
    ensures ok { OnOk result (rows.new ≡ the_offers_of (made store.now (Change (resource_object resource.now)))) }
    ensures err { OnErr result (rows.new ≡ rows.old) }
    ensures refusal { OnlyNoMemory result }
{
    let Some(place) = store.resource_place(resource.id.lent()) else {
        unreachable!();
    };
    let row = offered_in(alloc, store, resource)?;
    rows.replace(place, row)
}

/// A resource that goes leaves no gap.
pub(crate) fn remove_resource(rows: &mut KeyIndex, store: &Store, id: &Id)
    requires rows { rows.old ≡ the_offers_of store.now }
    requires whole { IsWhole store.now }
    requires accepted { IsOk (step store.now (Remove resource_kind id.now)) }
    ensures { rows.new ≡ the_offers_of (made store.now (Remove resource_kind id.now)) }
{
    let Some(place) = store.resource_place(id.lent()) else {
        unreachable!();
    };
    rows.remove(place);
}

/// Puts what the resources of the ven offer with it as it is now in the place of what they offered with that of the
/// store.
pub(crate) fn follow_ven(
    rows: &mut KeyIndex,
    alloc: Global,
    store: &Store,
    ven: &Ven,
) -> Result<(), Refusal>
    requires rows { rows.old ≡ the_offers_of store.now }
    requires accepted { IsOk (step store.now (Change (ven_object ven.now))) }
    ensures ok { OnOk result (rows.new ≡ with_ven ven.now store.now.resources rows.old) }
    ensures err { OnErr result (rows.new ≡ rows.old) }
    ensures refusal { OnlyNoMemory result }
{
    let Some(old) = store.ven(&ven.id) else {
        unreachable!();
    };
    let named = places_named(rows, alloc, &old.ven_name)?;
    let mut fresh = fresh_rows(alloc, store, ven, &named)?;
    rows.renew(&mut fresh)
}

/// What each resource of the ven offers with it, and nothing for the others. `named` has all places of its resources.
fn fresh_rows(
    alloc: Global,
    store: &Store,
    ven: &Ven,
    named: &Places,
) -> Result<Vec<Option<Row>>, Refusal>
    requires named { (p : ℕ) → IsTrue (is_of_ven store.now ven.now.id p) → IsTrue (has named.now p) }
    ensures rows { IfOk result (λ rows. rows.items ≡ map (the_fresh_row ven.now) store.now.resources) }
    ensures refusal { OnlyNoMemory result }
{
    let mut rows = Vec::new(alloc);
    for place in 0..store.count(Kind::Resource) {
        let row = fresh_row_at(alloc, store, ven, named, place)?;
        rows.push(row)?;
    }
    Ok(rows)
}

/// What the resource at the place offers with the ven, where it is the ven's. It is looked up only where it may be.
fn fresh_row_at(
    alloc: Global,
    store: &Store,
    ven: &Ven,
    named: &Places,
    place: usize,
) -> Result<Option<Row>, Refusal>
    requires named { (p : ℕ) → IsTrue (is_of_ven store.now ven.now.id p) → IsTrue (has named.now p) }
    ensures { IsCopyOf result (option_and_then (the_fresh_row ven.now) (slice_get store.now.resources place)) }
{
    if !named.has(place) {
        return Ok(None);
    }
    match store.resource_at(place) {
        Some(resource) => fresh_row(alloc, resource, ven),
        None => Ok(None),
    }
}

/// What the resource offers with the ven, where it is the ven's.
fn fresh_row(alloc: Global, resource: &Resource, ven: &Ven) -> Result<Option<Row>, Refusal>
    ensures { IsCopyOf result (the_fresh_row ven.now resource.now) }
{
    if ven.id.text() == resource.ven_id.text() {
        return Ok(Some(offered(alloc, resource, ven)?));
    }
    Ok(None)
}
