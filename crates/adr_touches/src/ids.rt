//! The ids of the objects of two books.
ghost use Rattle.std.specs.Prelude.{◌≡◌, IfOk, map, filter, not};
ghost use Rattle.std.specs.List.{list_any};
ghost use Rattle.std.specs.Str.{bytes_eq};
ghost use Rattle.adr_refusal.specs.Answer.{OnlyNoMemory};
ghost use Rattle.adr_model.specs.Touches.{ids_of_both};
ghost use Rattle.adr_touches.specs.Edited.{concerns_event, concerns_resource};

use crate::concern::Concern;
use adr_book::Book;
use adr_object::{Id, Kind};
use adr_value::Refusal;
use std::alloc::Global;

/// The ids of the resources, in order.
#[tactic(auto, using(crate::proofs::Places::one_more, crate::proofs::Places::all_passed))]
pub(crate) fn resource_ids(alloc: Global, book: &Book) -> Result<Vec<Id>, Refusal>
    ensures ok { IfOk result (λ ids. ids.items ≡ map (λ r. r.id) book.now.objects.resources) }
    ensures memory { OnlyNoMemory result }
{
    let mut ids = Vec::new(alloc);
    for place in 0..book.count(Kind::Resource) {
        let Some(resource) = book.resource_at(place) else {
            continue;
        };
        ids.push(resource.id.copy()?)?;
    }
    Ok(ids)
}

/// The ids of the events, in order.
#[tactic(auto, using(crate::proofs::Places::one_more, crate::proofs::Places::all_passed))]
pub(crate) fn event_ids(alloc: Global, book: &Book) -> Result<Vec<Id>, Refusal>
    ensures ok { IfOk result (λ ids. ids.items ≡ map (λ w. w.event.id) book.now.objects.events) }
    ensures memory { OnlyNoMemory result }
{
    let mut ids = Vec::new(alloc);
    for place in 0..book.count(Kind::Event) {
        let Some(event) = book.event_at(place) else {
            continue;
        };
        ids.push(event.id.copy()?)?;
    }
    Ok(ids)
}

/// Whether the book has no resource with the id.
fn is_new_resource(book: &Book, id: &Id) -> bool
    ensures { result ≡ not (list_any (bytes_eq id.now) (map (λ r. r.id) book.now.objects.resources)) }
{
    book.resource_place(id.lent()).is_none()
}

/// Whether the book has no event with the id.
fn is_new_event(book: &Book, id: &Id) -> bool
    ensures { result ≡ not (list_any (bytes_eq id.now) (map (λ w. w.event.id) book.now.objects.events)) }
{
    book.event_place(id).is_none()
}

/// The ids of the resources, those of the old book and then those that the new one adds.
pub(crate) fn all_resource_ids(alloc: Global, old: &Book, new: &Book) -> Result<Vec<Id>, Refusal>
    ensures ok { IfOk result (λ ids. ids.items ≡ ids_of_both (map (λ r. r.id) old.now.objects.resources) (map (λ r. r.id) new.now.objects.resources)) }
    ensures memory { OnlyNoMemory result }
{
    let mut ids = resource_ids(alloc, old)?;
    let mut added = resource_ids(alloc, new)?;
    added.retain(|id| is_new_resource(old, id));
    ids.append(&mut added)?;
    Ok(ids)
}

/// The ids of the events, those of the old book and then those that the new one adds.
pub(crate) fn all_event_ids(alloc: Global, old: &Book, new: &Book) -> Result<Vec<Id>, Refusal>
    ensures ok { IfOk result (λ ids. ids.items ≡ ids_of_both (map (λ w. w.event.id) old.now.objects.events) (map (λ w. w.event.id) new.now.objects.events)) }
    ensures memory { OnlyNoMemory result }
{
    let mut ids = event_ids(alloc, old)?;
    let mut added = event_ids(alloc, new)?;
    added.retain(|id| is_new_event(old, id));
    ids.append(&mut added)?;
    Ok(ids)
}

/// The ids of the resources that the edit concerns.
pub(crate) fn concerned_resources(
    alloc: Global,
    old: &Book,
    new: &Book,
    concern: &Concern,
) -> Result<Vec<Id>, Refusal>
    ensures ok { IfOk result (λ ids. ids.items ≡ filter (concerns_resource old.now.objects concern.now) (ids_of_both (map (λ r. r.id) old.now.objects.resources) (map (λ r. r.id) new.now.objects.resources))) }
    ensures memory { OnlyNoMemory result }
{
    let mut ids = all_resource_ids(alloc, old, new)?;
    ids.retain(|id| concern.has_resource(old, id));
    Ok(ids)
}

/// The ids of the events that the edit concerns.
pub(crate) fn concerned_events(
    alloc: Global,
    old: &Book,
    new: &Book,
    concern: &Concern,
) -> Result<Vec<Id>, Refusal>
    ensures ok { IfOk result (λ ids. ids.items ≡ filter (concerns_event old.now.objects concern.now) (ids_of_both (map (λ w. w.event.id) old.now.objects.events) (map (λ w. w.event.id) new.now.objects.events))) }
    ensures memory { OnlyNoMemory result }
{
    let mut ids = all_event_ids(alloc, old, new)?;
    ids.retain(|id| concern.has_event(old, id));
    Ok(ids)
}
