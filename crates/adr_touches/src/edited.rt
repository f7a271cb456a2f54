//! The touches of an edit, from what it concerns.
ghost use Rattle.std.specs.Prelude.{◌≡◌, ◌++◌, ◌∷◌, [], Ok, OnOk, OnErr, IfOk, IfSome, IfNone, flat_map};
ghost use Rattle.std.specs.Option.{option_map};
ghost use Rattle.adr_refusal.specs.Answer.{OnlyNoMemory};
ghost use Rattle.adr_model.specs.Edits.{step};
ghost use Rattle.adr_model.specs.Touches.{applying, touches as touches_of_books};
ghost use Rattle.adr_repair.specs.Table.{spans, spans_if_differs};
ghost use Rattle.adr_touches.specs.Applied.{written_event};
ghost use Rattle.adr_touches.specs.Edited.{AreByResource, rows_between, rows_on};

use crate::concern::{Rows, concern_of, rows_of};
use crate::ids::{concerned_events, concerned_resources};
use crate::matching::{Applied, applied_event};
use crate::windows::add_event;
use adr_book::Book;
use adr_model::Touch;
use adr_object::{Edit, Id};
use adr_value::Refusal;
use std::alloc::Global;
use std::marker::Model;

/// Adds the spans of the event, where it applies.
fn add_applying(
    touches: &mut Vec<Touch>,
    alloc: Global,
    book: &Book,
    resource: &Id,
    event: &Id,
) -> Result<(), Refusal>
    ensures ok { OnOk result (touches.new.items ≡ touches.old.items ++ spans resource.now (applying book.now.objects resource.now event.now)) }
    ensures memory { OnlyNoMemory result }
{
    match applied_event(book, resource, event) {
        Some(applied) => add_event(touches, alloc, resource, applied),
        None => Ok(()),
    }
}

/// Adds the spans of the event, where it applied before and does no more, or applies now and didn't before.
fn add_differing(
    touches: &mut Vec<Touch>,
    alloc: Global,
    resource: &Id,
    old: Option<Applied<'_>>,
    new: Option<Applied<'_>>,
) -> Result<(), Refusal>
    ensures ok { OnOk result (touches.new.items ≡ touches.old.items ++ spans_if_differs resource.now (option_map written_event old.entry) (option_map written_event new.entry)) }
    ensures memory { OnlyNoMemory result }
{
    match (old, new) {
        (None, Some(new)) => add_event(touches, alloc, resource, new),
        (Some(old), None) => add_event(touches, alloc, resource, old),
        (None, None) | (Some(_), Some(_)) => Ok(()),
    }
}

/// Adds what the edit touches at a resource and an event that it concerns.
fn add_rows(
    touches: &mut Vec<Touch>,
    alloc: Global,
    old: &Book,
    new: &Book,
    rows: Rows,
    resource: &Id,
    event: &Id,
) -> Result<(), Refusal>
    ensures ok { OnOk result (touches.new.items ≡ touches.old.items ++ rows_between rows resource.now (applying old.now.objects resource.now event.now) (applying new.now.objects resource.now event.now)) }
    ensures memory { OnlyNoMemory result }
{
    match rows {
        Rows::Before => add_applying(touches, alloc, old, resource, event),
        Rows::After => add_applying(touches, alloc, new, resource, event),
        Rows::Both => {
            add_applying(touches, alloc, old, resource, event)?;
            add_applying(touches, alloc, new, resource, event)
        }
        Rows::Differing => {
            let before = applied_event(old, resource, event);
            let after = applied_event(new, resource, event);
            add_differing(touches, alloc, resource, before, after)
        }
    }
}

/// Adds what the edit touches at the resource, by event.
fn add_concerned(
    touches: &mut Vec<Touch>,
    alloc: Global,
    old: &Book,
    new: &Book,
    rows: Rows,
    resource: &Id,
    events: &[Id],
) -> Result<(), Refusal>
    ensures ok { OnOk result (touches.new.items ≡ touches.old.items ++ rows_on old.now.objects new.now.objects rows events.now resource.now) }
    ensures memory { OnlyNoMemory result }
{
    for event in events {
        add_rows(touches, alloc, old, new, rows, resource, event)?;
    }
    Ok(())
}

/// The ids of the objects that an edit concerns, and which spans it touches there.
#[derive(Drop)]
struct Concerned {
    rows: Rows,
    resources: Vec<Id>,
    events: Vec<Id>,
}

/// What the edit concerns.
fn concerned_by(alloc: Global, old: &Book, new: &Book, edit: &Edit) -> Result<Concerned, Refusal>
    requires { step old.now.objects edit.now ≡ Ok new.now.objects }
    ensures ok { IfOk result (λ c. flat_map (rows_on old.now.objects new.now.objects c.rows c.events.items) c.resources.items ≡ touches_of_books old.now.objects new.now.objects) }
    ensures memory { OnlyNoMemory result }
{
    old.book_laws();
    let concern = concern_of(edit)?;
    let resources = concerned_resources(alloc, old, new, &concern)?;
    let events = concerned_events(alloc, old, new, &concern)?;
    drop(concern);
    Ok(Concerned {
        rows: rows_of(edit),
        resources,
        events,
    })
}

/// The touches of an edit, resource by resource. Contracts see the lists that are left, one for each resource.
#[derive(Drop)]
pub struct EditTouches<'a> {
    before: &'a Book,
    after: &'a Book,
    rows: Rows,
    resources: Vec<Id>,
    events: Vec<Id>,
    next: usize,
    alloc: Global,
}

impl<'a> Model for EditTouches<'a> {
    ghost use Rattle.std.specs.Prelude.{◌≤◌, List, drop, length, map};
    ghost use Rattle.adr_model.specs.declared.touch.Touch.{Touch as AnyTouch};
    ghost use Rattle.adr_touches.specs.Edited.{rows_on};

    ghost Value = { List (List AnyTouch) };

    ghost view = { λ t. map (rows_on t.before.now.objects t.after.now.objects t.rows t.events.items) (drop t.next t.resources.items) };

    ghost invariant = { λ t. t.next ≤ length t.resources.items };
}

impl<'a> EditTouches<'a> {
    /// The touches of an edit that leads from the one book to the other. Cost: a look at each resource and each event.
    ///
    /// # Errors
    ///
    /// `NoMemory` where there is no room for the ids of the objects that it concerns.
    pub fn of(
        alloc: Global,
        old: &'a Book,
        new: &'a Book,
        edit: &Edit,
    ) -> Result<EditTouches<'a>, Refusal>
        requires { step old.now.objects edit.now ≡ Ok new.now.objects }
        ensures ok { IfOk result (λ left. flat_map (λ list. list) left ≡ touches_of_books old.now.objects new.now.objects) }
        ensures resources { IfOk result AreByResource }
        ensures memory { OnlyNoMemory result }
    {
        let Concerned {
            rows,
            resources,
            events,
        } = concerned_by(alloc, old, new, edit)?;
        Ok(EditTouches {
            before: old,
            after: new,
            rows,
            resources,
            events,
            next: 0,
            alloc,
        })
    }

    /// The touches of the next resource that the edit concerns, which may be none; `None` after the last. Cost: a look
    /// at each event that the edit concerns, and the layout of those that apply.
    ///
    /// # Errors
    ///
    /// `NoMemory` where there is no room for them; then they are still to come.
    pub fn next_resource(&mut self) -> Result<Option<Vec<Touch>>, Refusal>
        ensures some { IfOk result (λ next. IfSome next (λ list. self.old ≡ list.items ∷ self.new)) }
        ensures none { IfOk result (λ next. IfNone next ((self.old ≡ []) × (self.new ≡ []))) }
        ensures unchanged { OnErr result (self.new ≡ self.old) }
        ensures memory { OnlyNoMemory result }
    {
        let Some(resource) = self.resources.get(self.next) else {
            return Ok(None);
        };
        let mut touches = Vec::new(self.alloc);
        add_concerned(
            &mut touches,
            self.alloc,
            self.before,
            self.after,
            self.rows,
            resource,
            self.events.as_slice(),
        )?;
        self.next += 1;
        Ok(Some(touches))
    }
}

/// The touches of the resources that the edit concerns, by resource.
fn list_concerned(
    alloc: Global,
    old: &Book,
    new: &Book,
    rows: Rows,
    resources: &[Id],
    events: &[Id],
) -> Result<Vec<Touch>, Refusal>
    ensures ok { IfOk result (λ touches. touches.items ≡ flat_map (rows_on old.now.objects new.now.objects rows events.now) resources.now) }
    ensures memory { OnlyNoMemory result }
{
    let mut touches = Vec::new(alloc);
    for resource in resources {
        add_concerned(&mut touches, alloc, old, new, rows, resource, events)?;
    }
    Ok(touches)
}

/// The touches of an edit that leads from the one book to the other: each stretch of time in which what governs a
/// resource and a payload type may have changed. They stand by resource, then by event, the old event before the new
/// one, then by interval and type; one window may stand twice. Cost: each event that the edit concerns is held against
/// each resource that it concerns.
///
/// # Errors
///
/// `NoMemory` where there is no room for the list, or for the ids of the objects that the edit concerns.
pub fn edit_touches(
    alloc: Global,
    old: &Book,
    new: &Book,
    edit: &Edit,
) -> Result<Vec<Touch>, Refusal>
    requires { step old.now.objects edit.now ≡ Ok new.now.objects }
    ensures ok { IfOk result (λ touches. touches.items ≡ touches_of_books old.now.objects new.now.objects) }
    ensures memory { OnlyNoMemory result }
{
    let Concerned {
        rows,
        resources,
        events,
    } = concerned_by(alloc, old, new, edit)?;
    list_concerned(
        alloc,
        old,
        new,
        rows,
        resources.as_slice(),
        events.as_slice(),
    )
}
