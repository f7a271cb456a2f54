//! An accepted edit, made beside the old book.
ghost use Rattle.std.specs.Prelude.{◌≡◌, ◌≢◌, ◌≤◌, ◌++◌, ◌∷◌, [], Ok, IsOk, IfOk, OnOk, OnErr};
ghost use Rattle.adr_refusal.specs.Answer.{OnlyNoMemory};
ghost use Rattle.adr_model.specs.Edits.{full_at, made, step_to};
ghost use Rattle.adr_model.specs.Touches.{touches};
ghost use Rattle.adr_model.specs.Whole.{IsWhole};
ghost use Rattle.adr_audience.specs.Keys.{AreKeysOf};
ghost use Rattle.adr_group.specs.Jobs.{IsCrew};
ghost use Rattle.adr_schedule.specs.Seating.{AreSeatedFor};
ghost use Rattle.adr_regroup.specs.Compared.{most_compared_in};
ghost use Rattle.adr_regroup.specs.Edited.{IsEdited};
ghost use Rattle.adr_desk.specs.Accepted.{IsAccepted};
ghost use Rattle.adr_desk.specs.Desk.{AreOf, IsDesk};
ghost use Rattle.adr_regroup.specs.Kinds.{kind_of_edit};
ghost use Rattle.adr_object.specs.declared.object.Kind.TheVariants.{Event as event_kind};

use crate::accepted::Accepted;
use crate::after_event::after_event;
use crate::kinds::kind_of;
use crate::receipt::Touched;
use adr_audience::Audiences;
use adr_book::{Book, Judged};
use adr_group::{Done, RepairJob};
use adr_lines::Indexes;
use adr_model::edit_laws;
use adr_object::Kind;
use adr_regroup::{Edited, after_program, after_resource, after_ven};
use adr_rule::Meter;
use adr_schedule::{Resolution, Schedule};
use adr_shared::Shared;
use adr_value::Refusal;
use std::alloc::Global;

/// The book after an edit with its timelines, which shares with the old one all that stays.
#[derive(Drop)]
pub(crate) struct Made {
    pub(crate) resolution: Resolution,
    pub(crate) touched: Touched,
    pub(crate) compares: u128,
}

/// The book with the edit made.
fn committed(book: &Book, edit: &Judged) -> Result<Book, Refusal>
    requires accepted { IsOk (step_to (full_at book.now.base.version) book.now.objects edit.now) }
    ensures objects { IfOk result (λ after. step_to (full_at book.now.base.version) book.now.objects edit.now ≡ Ok after.objects) }
    ensures pending { IfOk result (λ after. after.pending ≡ book.now.pending ++ edit.now ∷ []) }
    ensures closed { IfOk result (λ after. after.closed ≡ book.now.closed) }
    ensures base { IfOk result (λ after. after.base ≡ book.now.base) }
    ensures refusal { OnlyNoMemory result }
{
    let mut after = book.copy()?;
    let copy = edit.edit().copy()?;
    let _version = after.commit(copy)?;
    Ok(after)
}

/// The groups after an accepted edit of a program, a ven or a resource.
fn regrouped<C: Fn(&Indexes, &[RepairJob]) -> Result<Vec<Done>, Refusal>>(
    alloc: Global,
    crew: &C,
    edited: &Edited<'_>,
    meter: &mut Meter,
) -> Result<Schedule, Refusal>
    requires crew { IsCrew (λ v. v.items) (C.pre crew.now) (C.post crew.now) }
    requires other { kind_of_edit edited.now.edit.now ≢ event_kind }
    requires edited { IsEdited edited.now }
    requires begun { meter.old ≡ 0 }
    ensures seated { IfOk result (AreSeatedFor edited.now.tie edited.now.new.now.objects) }
    ensures least { OnOk result (meter.new ≤ most_compared_in edited.now.new.now.objects (touches edited.now.old.now.objects edited.now.new.now.objects)) }
    ensures refusal { OnlyNoMemory result }
{
    match kind_of(edited.edit) {
        Kind::Program => after_program(alloc, crew, edited, meter),
        Kind::Ven => after_ven(alloc, crew, edited, meter),
        Kind::Resource => after_resource(alloc, crew, edited, meter),
        Kind::Event => unreachable!(),
    }
}

/// The groups after an accepted edit of a program, a ven or a resource, and then the keys. A refused call leaves the
/// keys.
fn followed<C: Fn(&Indexes, &[RepairJob]) -> Result<Vec<Done>, Refusal>>(
    alloc: Global,
    crew: &C,
    accepted: &Accepted<'_>,
    keys: &mut Audiences,
    indexes: &Indexes,
    meter: &mut Meter,
) -> Result<Shared<Schedule>, Refusal>
    requires crew { IsCrew (λ v. v.items) (C.pre crew.now) (C.post crew.now) }
    requires other { kind_of_edit accepted.now.edit.now ≢ event_kind }
    requires whole { IsWhole accepted.now.old.now.objects }
    requires accepted { IsAccepted accepted.now keys.old indexes.now }
    requires begun { meter.old ≡ 0 }
    ensures seated { IfOk result (AreSeatedFor accepted.now.tie accepted.now.new.now.objects) }
    ensures least { OnOk result (meter.new ≤ most_compared_in accepted.now.new.now.objects (touches accepted.now.old.now.objects accepted.now.new.now.objects)) }
    ensures keys { OnOk result (AreKeysOf (made accepted.now.old.now.objects accepted.now.edit.now) keys.new) }
    ensures unchanged { OnErr result (keys.new ≡ keys.old) }
    ensures refusal { OnlyNoMemory result }
{
    let edited = Edited {
        tie: accepted.tie,
        old: accepted.old,
        new: accepted.new,
        edit: accepted.edit,
        keys,
        indexes,
        schedule: accepted.schedule,
    };
    let after = regrouped(alloc, crew, &edited, meter)?;
    let after = Shared::new(alloc, after)?;
    keys.follow(accepted.old.objects(), accepted.edit)?;
    Ok(after)
}

/// Makes an accepted edit of a program, a ven or a resource to the keys, and answers the groups after it. A refused
/// call leaves the keys.
fn after_other<C: Fn(&Indexes, &[RepairJob]) -> Result<Vec<Done>, Refusal>>(
    alloc: Global,
    crew: &C,
    accepted: &Accepted<'_>,
    keys: &mut Audiences,
    indexes: &Indexes,
    meter: &mut Meter,
) -> Result<Shared<Schedule>, Refusal>
    requires crew { IsCrew (λ v. v.items) (C.pre crew.now) (C.post crew.now) }
    requires other { kind_of_edit accepted.now.edit.now ≢ event_kind }
    requires accepted { IsAccepted accepted.now keys.old indexes.now }
    requires begun { meter.old ≡ 0 }
    ensures ok { IfOk result (λ after. IsDesk accepted.now.tie accepted.now.new.now.objects keys.new indexes.now after) }
    ensures least { OnOk result (meter.new ≤ most_compared_in accepted.now.new.now.objects (touches accepted.now.old.now.objects accepted.now.new.now.objects)) }
    ensures err { OnErr result (keys.new ≡ keys.old) }
    ensures refusal { OnlyNoMemory result }
{
    accepted.old.book_laws();
    let after = followed(alloc, crew, accepted, keys, indexes, meter)?;
    Ok(after)
}

/// Makes an accepted edit to the keys and the indexes, and answers the groups after it. A refused call leaves keys and
/// indexes of the old book.
fn grouped<C: Fn(&Indexes, &[RepairJob]) -> Result<Vec<Done>, Refusal>>(
    alloc: Global,
    crew: &C,
    accepted: &Accepted<'_>,
    keys: &mut Audiences,
    indexes: &mut Indexes,
    meter: &mut Meter,
) -> Result<Shared<Schedule>, Refusal>
    requires crew { IsCrew (λ v. v.items) (C.pre crew.now) (C.post crew.now) }
    requires accepted { IsAccepted accepted.now keys.old indexes.old }
    requires begun { meter.old ≡ 0 }
    ensures ok { IfOk result (λ after. IsDesk accepted.now.tie accepted.now.new.now.objects keys.new indexes.new after) }
    ensures least { OnOk result (meter.new ≤ most_compared_in accepted.now.new.now.objects (touches accepted.now.old.now.objects accepted.now.new.now.objects)) }
    ensures err { OnErr result (IsDesk accepted.now.tie accepted.now.old.now.objects keys.new indexes.new accepted.now.schedule.now) }
    ensures refusal { OnlyNoMemory result }
{
    match kind_of(accepted.edit) {
        Kind::Event => after_event(alloc, crew, accepted, keys, indexes, meter),
        Kind::Program | Kind::Ven | Kind::Resource => {
            after_other(alloc, crew, accepted, keys, indexes, meter)
        }
    }
}

/// Makes an accepted edit. A refused call leaves keys and indexes of the old book.
pub(crate) fn make<C: Fn(&Indexes, &[RepairJob]) -> Result<Vec<Done>, Refusal>>(
    alloc: Global,
    crew: &C,
    old: &Resolution,
    keys: &mut Audiences,
    indexes: &mut Indexes,
    edit: &Judged,
) -> Result<Made, Refusal>
    requires crew { IsCrew (λ v. v.items) (C.pre crew.now) (C.post crew.now) }
    requires accepted { IsOk (step_to (full_at old.now.book.base.version) old.now.book.objects edit.now) }
    requires desk { AreOf old.now.tie old.now.book.objects keys.old indexes.old }
    ensures desk { IfOk result (λ made. AreOf made.resolution.tie made.resolution.book.objects keys.new indexes.new) }
    ensures tie { IfOk result (λ made. made.resolution.tie ≡ old.now.tie) }
    ensures objects { IfOk result (λ made. step_to (full_at old.now.book.base.version) old.now.book.objects edit.now ≡ Ok made.resolution.book.objects) }
    ensures pending { IfOk result (λ made. made.resolution.book.pending ≡ old.now.book.pending ++ edit.now ∷ []) }
    ensures closed { IfOk result (λ made. made.resolution.book.closed ≡ old.now.book.closed) }
    ensures base { IfOk result (λ made. made.resolution.book.base ≡ old.now.book.base) }
    ensures touched { IfOk result (λ made. made.touched ≡ touches old.now.book.objects made.resolution.book.objects) }
    ensures compares { IfOk result (λ made. made.compares ≤ most_compared_in made.resolution.book.objects made.touched) }
    ensures err { OnErr result (AreOf old.now.tie old.now.book.objects keys.new indexes.new) }
    ensures refusal { OnlyNoMemory result }
{
    edit_laws();
    let book = old.book();
    let after = committed(book, edit)?;
    let touched = Touched::between(book, &after, edit.edit())?;
    let mut meter = Meter::new();
    let accepted = Accepted {
        tie: old.tie(),
        old: book,
        new: &after,
        edit: edit.edit(),
        layout: edit.layout(),
        schedule: old.schedule(),
    };
    let schedule = grouped(alloc, crew, &accepted, keys, indexes, &mut meter)?;
    Ok(Made {
        resolution: Resolution::of(old.tie(), after, schedule),
        touched,
        compares: meter.count(),
    })
}
