//! What an edit of a program does to the schedule.
ghost use Rattle.std.specs.Prelude.{◌≡◌, ◌<◌, ◌≤◌, ◌+◌, [], ℕ, Some, not, true, filter, is_some, length, sum_by, IfOk, OnOk};
ghost use Rattle.std.specs.List.Sorted.{IsStrictlyIncreasing};
ghost use Rattle.adr_refusal.specs.Answer.{OnlyNoMemory};
ghost use Rattle.adr_model.specs.Book.{program_by};
ghost use Rattle.adr_model.specs.Touches.{touches};
ghost use Rattle.adr_object.specs.declared.object.Edit.TheVariants.{Change as change_to};
ghost use Rattle.adr_audience.specs.Keys.{AreKeysOf};
ghost use Rattle.adr_audience.specs.Laws.{applying_places};
ghost use Rattle.adr_group.specs.Jobs.{IsCrew};
ghost use Rattle.adr_lines.specs.Exchange.{IsIndexOf};
ghost use Rattle.adr_schedule.specs.Moves.{is_among};
ghost use Rattle.adr_schedule.specs.Seating.{AreSeatedFor};
ghost use Rattle.adr_regroup.specs.Compared.{most_compared_in, most_reseated_at};
ghost use Rattle.adr_regroup.specs.Edited.{IsEdited};
ghost use Rattle.adr_regroup.specs.Party.{AreSeatedBut};
ghost use Rattle.adr_object.specs.Object.{kind_of};
ghost use Rattle.adr_regroup.specs.Kinds.{kind_of_edit};
ghost use Rattle.adr_object.specs.declared.object.Kind.TheVariants.{Program as program_kind};
ghost use Rattle.adr_regroup.specs.Program.{with_program, AreMarked, AreThoseMarked, IsMarking};

use crate::basis::Basis;
use crate::edited::Edited;
use crate::reseat::reseated_all;
use adr_audience::Audiences;
use adr_book::Book;
use adr_group::{Done, RepairJob};
use adr_lines::Indexes;
use adr_object::{Edit, Event, Kind, Object, Program};
use adr_rule::Meter;
use adr_schedule::Schedule;
use adr_value::Refusal;
use std::alloc::Global;

/// Whether the place is one of these, which ascend: a binary search.
fn has(places: &[usize], place: usize) -> bool
    requires { IsStrictlyIncreasing places.now }
    ensures { result ≡ is_among places.now place }
{
    places.binary_search(&place).is_ok()
}

/// The places that are not among the others, which ascend.
fn without(alloc: Global, places: &[usize], others: &[usize]) -> Result<Vec<usize>, Refusal>
    requires { IsStrictlyIncreasing others.now }
    ensures left { IfOk result (λ left. left.items ≡ filter (λ p. not (is_among others.now p)) places.now) }
    ensures refusal { OnlyNoMemory result }
{
    let mut left = Vec::new(alloc);
    let mut rest = places;
    'rest: while let Some((place, more)) = rest.split_first() {
        if !has(others, *place) {
            left.push(*place)?;
        }
        rest = more;
    }
    Ok(left)
}

/// The places of the resources to which an event of the program applies.
fn places_for(
    book: &Book,
    keys: &Audiences,
    event: &Event,
    program: &Program,
) -> Result<Vec<usize>, Refusal>
    requires keys { AreKeysOf book.now.objects keys.now }
    ensures places { IfOk result (λ places. places.items ≡ applying_places book.now.objects event.now program.now) }
    ensures order { IfOk result (λ places. IsStrictlyIncreasing places.items) }
    ensures refusal { OnlyNoMemory result }
{
    book.book_laws();
    let places = keys.resources_for(event, program)?;
    Ok(places)
}

/// The places from which an event goes, and those to which it comes.
#[derive(Drop)]
struct Turn {
    lost: Vec<usize>,
    gained: Vec<usize>,
}

/// Where an event of the one program does not apply any more with the other, and where it does only now.
fn turn_of(
    alloc: Global,
    book: &Book,
    keys: &Audiences,
    event: &Event,
    was: &Program,
    program: &Program,
) -> Result<Turn, Refusal>
    requires keys { AreKeysOf book.now.objects keys.now }
    ensures lost { IfOk result (λ turn. turn.lost.items ≡ filter (λ p. not (is_among (applying_places book.now.objects event.now program.now) p)) (applying_places book.now.objects event.now was.now)) }
    ensures gained { IfOk result (λ turn. turn.gained.items ≡ filter (λ p. not (is_among (applying_places book.now.objects event.now was.now) p)) (applying_places book.now.objects event.now program.now)) }
    ensures refusal { OnlyNoMemory result }
{
    let old = places_for(book, keys, event, was)?;
    let new = places_for(book, keys, event, program)?;
    Ok(Turn {
        lost: without(alloc, old.as_slice(), new.as_slice())?,
        gained: without(alloc, new.as_slice(), old.as_slice())?,
    })
}

/// Marks the places.
fn mark(marks: &mut Vec<bool>, places: &[usize])
    ensures { IsMarking marks.old.items marks.new.items places.now [] }
{
    let mut rest = places;
    'rest: while let Some((place, more)) = rest.split_first() {
        if *place < marks.len() {
            marks[*place] = true;
        }
        rest = more;
    }
}

/// Marks the places to which the event at a place comes with the other program, and those from which it goes.
fn mark_turn(
    alloc: Global,
    old: &Book,
    keys: &Audiences,
    was: &Program,
    program: &Program,
    place: usize,
    marks: &mut Vec<bool>,
) -> Result<(), Refusal>
    requires place { place < length old.now.objects.events }
    requires was { program_by old.now.objects program.now.id ≡ Some was.now }
    requires keys { AreKeysOf old.now.objects keys.now }
    ensures marked { OnOk result (AreMarked old.now.objects (with_program old.now.objects program.now) place marks.old.items → AreMarked old.now.objects (with_program old.now.objects program.now) (place + 1) marks.new.items) }
    ensures refusal { OnlyNoMemory result }
{
    let Some(event) = old.event_at(place) else {
        unreachable!();
    };
    if program.id.text() != event.program_id.text() {
        return Ok(());
    }
    let turn = turn_of(alloc, old, keys, event, was, program)?;
    mark(marks, turn.lost.as_slice());
    mark(marks, turn.gained.as_slice());
    Ok(())
}

/// Marks of all places, none of which is set.
fn no_marks(alloc: Global, book: &Book) -> Result<Vec<bool>, Refusal>
    ensures count { IfOk result (λ marks. length marks.items ≡ length book.now.objects.resources) }
    ensures refusal { OnlyNoMemory result }
{
    let marks = vec![in alloc; false; book.count(Kind::Resource)]?;
    Ok(marks)
}

/// Marks of the places to which some event comes with the other program, or from which it goes.
fn marks_of(
    alloc: Global,
    old: &Book,
    keys: &Audiences,
    was: &Program,
    program: &Program,
) -> Result<Vec<bool>, Refusal>
    requires was { program_by old.now.objects program.now.id ≡ Some was.now }
    requires keys { AreKeysOf old.now.objects keys.now }
    ensures marked { IfOk result (λ marks. AreMarked old.now.objects (with_program old.now.objects program.now) (length old.now.objects.events) marks.items) }
    ensures refusal { OnlyNoMemory result }
{
    let mut marks = no_marks(alloc, old)?;
    for place in 0..old.count(Kind::Event) {
        mark_turn(alloc, old, keys, was, program, place, &mut marks)?;
    }
    Ok(marks)
}

/// The places that are marked, in order.
fn marked(alloc: Global, marks: &[bool]) -> Result<Vec<usize>, Refusal>
    ensures places { IfOk result (λ places. AreThoseMarked marks.now (length marks.now) places.items) }
    ensures refusal { OnlyNoMemory result }
{
    let mut places = Vec::new(alloc);
    for place in 0..marks.len() {
        if marks[place] {
            places.push(place)?;
        }
    }
    Ok(places)
}

/// The schedule where each of the places has the writes of the events that apply to its resource, and the keys that
/// tell them are made anew; with no places it is the same.
fn reseated<C: Fn(&Indexes, &[RepairJob]) -> Result<Vec<Done>, Refusal>>(
    alloc: Global,
    crew: &C,
    edited: &Edited<'_>,
    places: &[usize],
    meter: &mut Meter,
) -> Result<Schedule, Refusal>
    requires crew { IsCrew (λ v. v.items) (C.pre crew.now) (C.post crew.now) }
    requires places { (p : ℕ) → is_among places.now p ≡ true → p < length edited.now.new.now.objects.resources }
    requires few { length places.now ≤ length edited.now.new.now.objects.resources }
    requires indexed { IsIndexOf edited.now.tie edited.now.new.now.objects.events edited.now.indexes.now }
    requires seated { AreSeatedBut edited.now.tie edited.now.new.now.objects places.now edited.now.schedule.now }
    requires begun { meter.old ≡ 0 }
    ensures seated { IfOk result (AreSeatedFor edited.now.tie edited.now.new.now.objects) }
    ensures least { OnOk result (meter.new ≤ sum_by (most_reseated_at edited.now.new.now.objects edited.now.schedule.now) places.now) }
    ensures refusal { OnlyNoMemory result }
{
    edited.new.book_laws();
    let same = edited.schedule.copy()?;
    if places.is_empty() {
        return Ok(same);
    }
    let keys = Audiences::of(alloc, edited.new.objects())?;
    let basis = Basis {
        tie: edited.tie,
        old: edited.new,
        new: edited.new,
        keys: &keys,
        indexes: edited.indexes,
    };
    reseated_all(alloc, crew, &basis, same, places, meter)
}

/// The schedule after the program is changed to this one.
fn after_change<C: Fn(&Indexes, &[RepairJob]) -> Result<Vec<Done>, Refusal>>(
    alloc: Global,
    crew: &C,
    edited: &Edited<'_>,
    program: &Program,
    meter: &mut Meter,
) -> Result<Schedule, Refusal>
    requires crew { IsCrew (λ v. v.items) (C.pre crew.now) (C.post crew.now) }
    requires there { is_some (program_by edited.now.old.now.objects program.now.id) ≡ true }
    requires made { edited.now.new.now.objects ≡ with_program edited.now.old.now.objects program.now }
    requires edited { IsEdited edited.now }
    requires begun { meter.old ≡ 0 }
    ensures seated { IfOk result (AreSeatedFor edited.now.tie edited.now.new.now.objects) }
    ensures least { OnOk result (meter.new ≤ most_compared_in edited.now.new.now.objects (touches edited.now.old.now.objects edited.now.new.now.objects)) }
    ensures refusal { OnlyNoMemory result }
{
    edited.old.book_laws();
    edited.new.book_laws();
    let Some(was) = edited.old.program(&program.id) else {
        unreachable!();
    };
    let marks = marks_of(alloc, edited.old, edited.keys, was, program)?;
    let places = marked(alloc, marks.as_slice())?;
    let after = reseated(alloc, crew, edited, places.as_slice(), meter)?;
    Ok(after)
}

/// The schedule after the object, which is a program, is changed to this one.
fn after_object<C: Fn(&Indexes, &[RepairJob]) -> Result<Vec<Done>, Refusal>>(
    alloc: Global,
    crew: &C,
    edited: &Edited<'_>,
    object: &Object,
    meter: &mut Meter,
) -> Result<Schedule, Refusal>
    requires crew { IsCrew (λ v. v.items) (C.pre crew.now) (C.post crew.now) }
    requires program { kind_of object.now ≡ program_kind }
    requires change { edited.now.edit.now ≡ change_to object.now }
    requires edited { IsEdited edited.now }
    requires begun { meter.old ≡ 0 }
    ensures seated { IfOk result (AreSeatedFor edited.now.tie edited.now.new.now.objects) }
    ensures least { OnOk result (meter.new ≤ most_compared_in edited.now.new.now.objects (touches edited.now.old.now.objects edited.now.new.now.objects)) }
    ensures refusal { OnlyNoMemory result }
{
    match object {
        Object::Program(program) => {
            let program = program.get();
            after_change(alloc, crew, edited, program, meter)
        }
        _ => unreachable!(),
    }
}

/// The schedule after an edit of a program. One that comes or goes is named by no event. One that changes may have its
/// events apply to other resources: each resource to which one of them comes, or from which it goes, gets the writes of
/// the events that apply to it now: see `Schedule::rewritten`.
///
/// Cost: a look at each event, and for those of a program that changes two queries of the keys; where places differ,
/// the keys of the new book, and for each such place a query of them and `Schedule::rewritten`.
///
/// # Errors
///
/// `NoMemory` where there is no room.
pub fn after_program<C: Fn(&Indexes, &[RepairJob]) -> Result<Vec<Done>, Refusal>>(
    alloc: Global,
    crew: &C,
    edited: &Edited<'_>,
    meter: &mut Meter,
) -> Result<Schedule, Refusal>
    requires crew { IsCrew (λ v. v.items) (C.pre crew.now) (C.post crew.now) }
    requires program { kind_of_edit edited.now.edit.now ≡ program_kind }
    requires edited { IsEdited edited.now }
    requires begun { meter.old ≡ 0 }
    ensures seated { IfOk result (AreSeatedFor edited.now.tie edited.now.new.now.objects) }
    ensures least { OnOk result (meter.new ≤ most_compared_in edited.now.new.now.objects (touches edited.now.old.now.objects edited.now.new.now.objects)) }
    ensures refusal { OnlyNoMemory result }
{
    edited.old.book_laws();
    match edited.edit {
        Edit::Create(_) => Ok(edited.schedule.copy()?),
        Edit::Change(object) => after_object(alloc, crew, edited, object, meter),
        Edit::Remove(_, _) => Ok(edited.schedule.copy()?),
    }
}
