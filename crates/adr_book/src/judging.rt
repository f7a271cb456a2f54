//! Whether an edit is accepted.
ghost use Rattle.std.specs.Prelude.{◌≡◌, ◌||◌, nat_le, not, is_some, List, IfOk};
ghost use Rattle.adr_refusal.specs.Answer.{Answers, result_map};
ghost use Rattle.adr_refusal.specs.declared.refusal.Refusal.{Refusal as Refused};
ghost use Rattle.adr_refusal.specs.Faults.{Gives};
ghost use Rattle.adr_object.specs.Object.{kind_of, id_of};
ghost use Rattle.adr_object.specs.declared.object.Edit.TheVariants.{Create, Change, Remove};
ghost use Rattle.adr_model.specs.Edits.{fault_if, layout_faults, reference_faults, is_full_for, is_named, most_objects, has_too_many_entries, has_id, faults_to, made, step_to};
ghost use Rattle.adr_book.specs.Judged.{layout_faults_of, placed_by, placed_of, verdict_of};

use adr_layout::{Placed, lay_out};
use adr_object::{Edit, Id, Kind, Object};
use adr_store::{Store, entry_count};
use adr_value::limits::{MOST_ENTRIES, MOST_EVENTS, MOST_PROGRAMS, MOST_RESOURCES, MOST_VENS};
use adr_value::{Refusal, both};
use std::alloc::Global;
use std::marker::Model;

/// An edit that a book accepted, with the layout that judging it computed: where the intervals of the event that it
/// writes lie. Contracts see the edit.
pub struct Judged {
    edit: Edit,
    layout: Vec<Placed>,
}

// A function of its own, so that callers that let a value go need not look into it.
impl Drop for Judged {
    fn drop(self) {
        let Judged { edit, layout } = self;
        drop(edit);
        drop(layout);
    }
}

impl Model for Judged {
    ghost use Rattle.std.specs.Prelude.{◌≡◌};
    ghost use Rattle.adr_object.specs.declared.object.Edit.{Edit as OneEdit};
    ghost use Rattle.adr_book.specs.Judged.{placed_by};

    ghost Value = { OneEdit };

    ghost view = { λ j. j.edit };

    // The layout is that of the edit's event.
    ghost invariant = { λ j. j.layout.items ≡ placed_by j.edit };
}

impl Judged {
    /// The edit.
    pub fn edit(&self) -> &Edit
        ensures { result.now ≡ self.now }
    {
        &self.edit
    }

    /// Where the intervals of the event that it writes lie; nowhere where it writes none.
    pub fn layout(&self) -> &[Placed]
        ensures { result.now ≡ placed_by self.now }
    {
        self.layout.as_slice()
    }
}

fn fault_if(test: bool, refusal: Refusal) -> Result<(), Refusal>
    ensures { Gives result (fault_if test refusal) tt }
{
    if test { Err(refusal) } else { Ok(()) }
}

/// Where the intervals of a written event lie, or the fault of its layout; nowhere where the object is no event.
#[tactic(auto, unfolding(adr_model::specs::Layout::layout))]
fn layout_of_written(alloc: Global, object: &Object) -> Result<Vec<Placed>, Refusal>
    ensures faults { Gives (verdict_of result) (layout_faults object.now) tt }
    ensures layout { IfOk result (λ layout. layout.items ≡ placed_of object.now) }
{
    match object {
        Object::Event(event) => lay_out(alloc, event.get()),
        _ => Ok(Vec::new(alloc)),
    }
}

/// Where the intervals of the event that the edit writes lie, or the fault of its layout; nowhere where it writes none.
fn layout_of(alloc: Global, edit: &Edit) -> Result<Vec<Placed>, Refusal>
    ensures faults { Gives (verdict_of result) (layout_faults_of edit.now) tt }
    ensures layout { IfOk result (λ layout. layout.items ≡ placed_by edit.now) }
{
    match edit {
        Edit::Create(object) => layout_of_written(alloc, object),
        Edit::Change(object) => layout_of_written(alloc, object),
        Edit::Remove(_, _) => Ok(Vec::new(alloc)),
    }
}

/// Whether there is an object of the kind with the id.
fn has(objects: &Store, kind: Kind, id: &Id) -> bool
    ensures { result ≡ has_id objects.now kind id.now }
{
    match kind {
        Kind::Program => objects.program(id).is_some(),
        Kind::Ven => objects.ven(id).is_some(),
        Kind::Resource => objects.resource(id).is_some(),
        Kind::Event => objects.event(id).is_some(),
    }
}

/// The fault of what a written object names.
fn reference_fault(objects: &Store, object: &Object) -> Result<(), Refusal>
    ensures { Gives result (reference_faults objects.now object.now) tt }
{
    match object {
        Object::Event(event) => {
            fault_if(
                objects.program(&event.get().program_id).is_none(),
                Refusal::NoProgram,
            )
        }
        Object::Resource(resource) => {
            fault_if(
                objects.ven(&resource.get().ven_id).is_none(),
                Refusal::NoVen,
            )
        }
        _ => Ok(()),
    }
}

/// Whether an object names the one of that kind and id.
fn is_named(objects: &Store, kind: Kind, id: &Id) -> bool
    ensures { result ≡ is_named objects.now kind id.now }
{
    match kind {
        Kind::Program => objects.is_program_named(id),
        Kind::Ven => objects.is_ven_named(id),
        Kind::Resource | Kind::Event => false,
    }
}

fn most_objects(kind: Kind) -> usize
    ensures { result ≡ most_objects kind }
{
    match kind {
        Kind::Program => MOST_PROGRAMS,
        Kind::Event => MOST_EVENTS,
        Kind::Ven => MOST_VENS,
        Kind::Resource => MOST_RESOURCES,
    }
}

/// Whether the object is an event that would bring the book above its entries.
fn has_too_many_entries(objects: &Store, object: &Object) -> bool
    ensures { result ≡ has_too_many_entries objects.now object.now }
{
    match object {
        Object::Event(event) => {
            let event = event.get();
            MOST_ENTRIES < objects.entries_beside(&event.id) + entry_count(event)
        }
        _ => false,
    }
}

fn is_full_for_new(objects: &Store, object: &Object) -> bool
    ensures { result ≡ is_full_for objects.now (Create object.now) }
{
    most_objects(object.kind()) <= objects.count(object.kind())
        || has_too_many_entries(objects, object)
}

/// Whether no edit, as the book is full at that version, or no new object of that kind has room.
fn has_no_room_for_new(objects: &Store, full: u64, object: &Object) -> bool
    ensures { result ≡ (nat_le full objects.now.version || is_full_for objects.now (Create object.now)) }
{
    full <= objects.version() || is_full_for_new(objects, object)
}

/// Whether no edit, or no such change has room.
fn has_no_room_for_changed(objects: &Store, full: u64, object: &Object) -> bool
    ensures { result ≡ (nat_le full objects.now.version || is_full_for objects.now (Change object.now)) }
{
    full <= objects.version() || has_too_many_entries(objects, object)
}

fn exists_fault(objects: &Store, object: &Object) -> Result<(), Refusal>
    ensures { Gives result (fault_if (has_id objects.now (kind_of object.now) (id_of object.now)) Refusal.Exists) tt }
{
    fault_if(has(objects, object.kind(), object.id()), Refusal::Exists)
}

fn absence_fault(objects: &Store, kind: Kind, id: &Id) -> Result<(), Refusal>
    ensures { Gives result (fault_if (not (has_id objects.now kind id.now)) Refusal.NotThere) tt }
{
    fault_if(!has(objects, kind, id), Refusal::NotThere)
}

fn missing_fault(objects: &Store, object: &Object) -> Result<(), Refusal>
    ensures { Gives result (fault_if (not (has_id objects.now (kind_of object.now) (id_of object.now))) Refusal.NotThere) tt }
{
    absence_fault(objects, object.kind(), object.id())
}

fn creation_room_fault(objects: &Store, full: u64, object: &Object) -> Result<(), Refusal>
    ensures { Gives result (fault_if (nat_le full objects.now.version || is_full_for objects.now (Create object.now)) Refusal.Full) tt }
{
    fault_if(has_no_room_for_new(objects, full, object), Refusal::Full)
}

fn change_room_fault(objects: &Store, full: u64, object: &Object) -> Result<(), Refusal>
    ensures { Gives result (fault_if (nat_le full objects.now.version || is_full_for objects.now (Change object.now)) Refusal.Full) tt }
{
    fault_if(
        has_no_room_for_changed(objects, full, object),
        Refusal::Full,
    )
}

fn use_fault(objects: &Store, kind: Kind, id: &Id) -> Result<(), Refusal>
    ensures { Gives result (fault_if (is_named objects.now kind id.now) Refusal.InUse) tt }
{
    fault_if(is_named(objects, kind, id), Refusal::InUse)
}

fn removal_room_fault(objects: &Store, full: u64) -> Result<(), Refusal>
    ensures { Gives result (fault_if (nat_le full objects.now.version) Refusal.Full) tt }
{
    fault_if(full <= objects.version(), Refusal::Full)
}

fn least_of_create(
    objects: &Store,
    full: u64,
    object: &Object,
    layout: Result<(), Refusal>,
) -> Result<(), Refusal>
    requires { Gives layout (layout_faults object.now) tt }
    ensures { Gives result (faults_to full objects.now (Create object.now)) tt }
{
    let id = exists_fault(objects, object);
    let reference = reference_fault(objects, object);
    let room = creation_room_fault(objects, full, object);
    whole(both(both(both(layout, id), reference), room))
}

fn least_of_change(
    objects: &Store,
    full: u64,
    object: &Object,
    layout: Result<(), Refusal>,
) -> Result<(), Refusal>
    requires { Gives layout (layout_faults object.now) tt }
    ensures { Gives result (faults_to full objects.now (Change object.now)) tt }
{
    let id = missing_fault(objects, object);
    let reference = reference_fault(objects, object);
    let room = change_room_fault(objects, full, object);
    whole(both(both(both(layout, id), reference), room))
}

fn least_of_removal(objects: &Store, full: u64, kind: Kind, id: &Id) -> Result<(), Refusal>
    ensures { Gives result (faults_to full objects.now (Remove kind id.now)) tt }
{
    let absence = absence_fault(objects, kind, id);
    let named = use_fault(objects, kind, id);
    let room = removal_room_fault(objects, full);
    whole(both(both(absence, named), room))
}

/// The least fault of the edit, by the numbers of the faults, of which its layout's is known.
fn least(
    objects: &Store,
    full: u64,
    edit: &Edit,
    layout: Result<(), Refusal>,
) -> Result<(), Refusal>
    requires { Gives layout (layout_faults_of edit.now) tt }
    ensures { Gives result (faults_to full objects.now edit.now) tt }
{
    match edit {
        Edit::Create(object) => least_of_create(objects, full, object, layout),
        Edit::Change(object) => least_of_change(objects, full, object, layout),
        Edit::Remove(kind, id) => least_of_removal(objects, full, *kind, id),
    }
}

/// The layout of the edit's event, where the edit is accepted by a book that is full at that version, or the least of
/// its faults.
pub(crate) fn judge_on(
    alloc: Global,
    objects: &Store,
    full: u64,
    edit: &Edit,
) -> Result<Vec<Placed>, Refusal>
    ensures answer { Answers (result_map (λ _. made objects.now edit.now) result) (step_to full objects.now edit.now) }
    ensures layout { IfOk result (λ layout. layout.items ≡ placed_by edit.now) }
{
    let layout = layout_of(alloc, edit);
    match least(objects, full, edit, verdict_of(&layout)) {
        Ok(()) => layout,
        Err(refusal) => Err(refusal),
    }
}

/// The edit with the layout of its event, where it is accepted by a book that is full at that version, or the least of
/// its faults.
pub(crate) fn judged_on(
    alloc: Global,
    objects: &Store,
    full: u64,
    edit: Edit,
) -> Result<Judged, Refusal>
    ensures answer { Answers (result_map (λ _. made objects.now edit) result) (step_to full objects.now edit) }
    ensures edit { IfOk result (λ judged. judged ≡ edit) }
{
    let layout = judge_on(alloc, objects, full, &edit)?;
    Ok(Judged { edit, layout })
}

/// The verdict without the layout.
fn verdict_of(layout: &Result<Vec<Placed>, Refusal>) -> Result<(), Refusal>
    ensures { result ≡ verdict_of layout.now }
{
    match layout {
        Ok(_) => Ok(()),
        Err(refusal) => Err(*refusal),
    }
}

/// The verdict of several parts, without their values.
fn whole<T: Drop>(parts: Result<T, Refusal>) -> Result<(), Refusal>
    ensures { (fs : List Refused) (v : T) → Gives parts fs v → Gives result fs tt }
{
    match parts {
        Ok(_) => Ok(()),
        Err(refusal) => Err(refusal),
    }
}
