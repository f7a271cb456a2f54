//! The answers to the four queries, printed from any calendar.
ghost use Rattle.std.specs.Prelude.{◌≡◌, ◌++◌, [], OnOk, IfOk, codes, flat_map};
ghost use Rattle.std.specs.Fmt.{decimal};
ghost use Rattle.std.specs.Option.{option_and_then, option_map_or};
ghost use Rattle.std.specs.List.{slice_get};
ghost use Rattle.adr_refusal.specs.Answer.{Answers, OnlyNoMemory, result_map};
ghost use Rattle.adr_value.specs.Payload.{name_of};
ghost use Rattle.adr_calendar.specs.Governed.{state_at};
ghost use Rattle.adr_calendar.specs.Segments.{line_of_segment};
ghost use Rattle.adr_model.specs.Answer.{at, shown, shown_of as shown_by, state_text, until};
ghost use Rattle.adr_model.specs.Queries.{in_lines, list, roll, roll_line, type_text, types};

use crate::calendar::{Calendar, State};
use crate::events::LastEvent;
use crate::last_state::LastState;
use crate::lines::{cut, put_segment, put_state, put_type, put_version};
use crate::moments::LastMoment;
use crate::printing::put;
use crate::shown::{shown_by_winner, shown_in};
use adr_book::Book;
use adr_model::Segment;
use adr_object::{Id, IdText, Kind};
use adr_time::Moment;
use adr_timeline::timeline_laws;
use adr_value::{PayloadType, Refusal};
use std::alloc::Global;

/// How long the line of a segment or of a state mostly is at most.
const LINE: usize = 96;

/// What governs the resource for the type at the moment, and until when. Cost: a look-up of the resource, and that of
/// the calendar's state.
///
/// # Errors
///
/// `UnknownResource` where the book has no such resource; `NoMemory` where there is no room for the answer, in place of
/// any.
#[tactic(auto, using(crate::proofs::Places::state_answered))]
pub fn governor<C: Calendar>(
    calendar: &C,
    id: IdText<'_>,
    payload_type: &PayloadType,
    moment: Moment,
) -> Result<State, Refusal>
    ensures { Answers result (state_at (C.tie calendar.now) (C.objects calendar.now) id.entry payload_type.now moment) }
{
    match calendar.book().resource_place(id) {
        Some(place) => calendar.state(place, payload_type, moment),
        None => Err(Refusal::UnknownResource),
    }
}

/// The bytes of the answer to `at`.
fn text_of_state(
    alloc: Global,
    book: &Book,
    payload_type: &PayloadType,
    state: State,
) -> Result<Vec<u8>, Refusal>
    ensures ok { IfOk result (λ v. v.items ≡ codes "version " ++ decimal book.now.objects.version ++ codes " " ++ state_text (option_and_then (shown_by book.now.objects payload_type.now) state.governor) state.until ++ codes "\n") }
    ensures memory { OnlyNoMemory result }
{
    let shown = shown_by_winner(book, payload_type, state.governor);
    let mut out = Vec::with_capacity(alloc, LINE)?;
    put_version(&mut out, book.version())?;
    put(&mut out, b" ")?;
    put_state(&mut out, shown, state.until)?;
    put(&mut out, b"\n")?;
    Ok(out)
}

/// The answer to `at`: what governs the resource for the type at the moment, and until when. Cost: a look-up of the
/// resource, and that of the calendar's state.
///
/// # Errors
///
/// `UnknownResource` where the book has no such resource; `NoMemory` where there is no room for the answer, in place of
/// any.
#[tactic(auto, unfolding(adr_model::specs::Answer::at))]
pub fn at<C: Calendar>(
    alloc: Global,
    calendar: &C,
    id: &Id,
    payload_type: &PayloadType,
    moment: Moment,
) -> Result<Vec<u8>, Refusal>
    ensures { Answers (result_map (λ v. v.items) result) (at (C.tie calendar.now) (C.objects calendar.now) id.now payload_type.now moment) }
{
    let state = governor(calendar, id.lent(), payload_type, moment)?;
    text_of_state(alloc, calendar.book(), payload_type, state)
}

/// Appends the line of the segment.
fn put_line(
    out: &mut Vec<u8>,
    last_event: &mut LastEvent<'_>,
    last_moment: &mut LastMoment,
    payload_type: &PayloadType,
    to: Moment,
    segment: &Segment,
) -> Result<(), Refusal>
    ensures objects { last_event.new.objects.now ≡ last_event.old.objects.now }
    ensures ok { OnOk result (out.new.items ≡ out.old.items ++ line_of_segment last_event.old.objects.now payload_type.now to segment.now) }
    ensures memory { OnlyNoMemory result }
{
    let Some(event) = last_event.turn_to(segment.winner.written)? else {
        return Ok(());
    };
    let Some(shown) = shown_in(payload_type, segment.winner.place, event) else {
        return Ok(());
    };
    let end = cut(to, segment.end);
    put_segment(
        out,
        last_moment,
        segment.start,
        end,
        shown,
        last_event.naming(),
    )
}

/// Appends the lines of the segments.
fn put_lines(
    alloc: Global,
    out: &mut Vec<u8>,
    book: &Book,
    payload_type: &PayloadType,
    to: Moment,
    segments: &[Segment],
) -> Result<(), Refusal>
    ensures ok { OnOk result (out.new.items ≡ out.old.items ++ flat_map (line_of_segment book.now.objects payload_type.now to) segments.now) }
    ensures memory { OnlyNoMemory result }
{
    out.reserve(segments.len().saturating_mul(LINE))?;
    let mut last_event = LastEvent::none(alloc, book.objects());
    let mut last_moment = LastMoment::none(alloc);
    for segment in segments {
        put_line(
            out,
            &mut last_event,
            &mut last_moment,
            payload_type,
            to,
            segment,
        )?;
    }
    Ok(())
}

/// The bytes of the answer to `list`.
fn text_of_list(
    alloc: Global,
    book: &Book,
    payload_type: &PayloadType,
    to: Moment,
    segments: &[Segment],
) -> Result<Vec<u8>, Refusal>
    ensures ok { IfOk result (λ v. v.items ≡ in_lines book.now.objects (flat_map (line_of_segment book.now.objects payload_type.now to) segments.now)) }
    ensures memory { OnlyNoMemory result }
{
    let mut out = Vec::new(alloc);
    put_version(&mut out, book.version())?;
    put(&mut out, b"\n")?;
    put_lines(alloc, &mut out, book, payload_type, to, segments)?;
    put(&mut out, b".\n")?;
    Ok(out)
}

/// The answer to `list`: the segments of the window, each with what governs there. Cost: a look-up of the resource, and
/// that of the calendar's segments, and their bytes.
///
/// # Errors
///
/// `BadWindow` where the window doesn't begin before it ends, else `UnknownResource` where the book has no such
/// resource; `NoMemory` where there is no room for the answer, in place of any.
#[tactic(auto, unfolding(adr_model::specs::Queries::list))]
pub fn list<C: Calendar>(
    alloc: Global,
    calendar: &C,
    id: &Id,
    payload_type: &PayloadType,
    from: Moment,
    to: Moment,
) -> Result<Vec<u8>, Refusal>
    ensures { Answers (result_map (λ v. v.items) result) (list (C.tie calendar.now) (C.objects calendar.now) id.now payload_type.now from to) }
{
    if to.nanoseconds() <= from.nanoseconds() {
        return Err(Refusal::BadWindow);
    }
    let Some(place) = calendar.book().resource_place(id.lent()) else {
        return Err(Refusal::UnknownResource);
    };
    timeline_laws();
    let segments = calendar.segments(place, payload_type, from, to)?;
    text_of_list(
        alloc,
        calendar.book(),
        payload_type,
        to,
        segments.as_slice(),
    )
}

/// Appends a resource's id and state.
fn put_roll_line(
    out: &mut Vec<u8>,
    last: &mut LastState<'_>,
    id: &Id,
    state: State,
) -> Result<(), Refusal>
    ensures book { last.new.book.now ≡ last.old.book.now }
    ensures payload_type { last.new.payload_type.now ≡ last.old.payload_type.now }
    ensures ok { OnOk result (out.new.items ≡ out.old.items ++ (id.now ++ codes " " ++ state_text (option_and_then (shown_by last.old.book.now.objects last.old.payload_type.now) state.governor) state.until ++ codes "\n")) }
    ensures memory { OnlyNoMemory result }
{
    put(out, id.text().as_bytes())?;
    put(out, b" ")?;
    last.put(out, state)?;
    put(out, b"\n")
}

/// Appends the line of the resource at the place, if there is one.
fn put_roll_line_at<C: Calendar>(
    out: &mut Vec<u8>,
    last: &mut LastState<'_>,
    calendar: &C,
    place: usize,
    payload_type: &PayloadType,
    moment: Moment,
) -> Result<(), Refusal>
    requires book { last.old.book.now.objects ≡ C.objects calendar.now }
    requires payload_type { last.old.payload_type.now ≡ payload_type.now }
    ensures book { last.new.book.now ≡ last.old.book.now }
    ensures payload_type { last.new.payload_type.now ≡ last.old.payload_type.now }
    ensures ok { OnOk result (out.new.items ≡ out.old.items ++ option_map_or (λ r. roll_line (C.tie calendar.now) (C.objects calendar.now) payload_type.now moment r.id) (slice_get (C.objects calendar.now).resources place) []) }
    ensures memory { OnlyNoMemory result }
{
    let Some(resource) = calendar.book().resource_at(place) else {
        return Ok(());
    };
    let state = calendar.state(place, payload_type, moment)?;
    put_roll_line(out, last, &resource.id, state)
}

/// Appends the lines of all resources, in order of creation.
fn put_roll_lines<C: Calendar>(
    out: &mut Vec<u8>,
    calendar: &C,
    payload_type: &PayloadType,
    moment: Moment,
) -> Result<(), Refusal>
    ensures ok { OnOk result (out.new.items ≡ out.old.items ++ flat_map (λ r. roll_line (C.tie calendar.now) (C.objects calendar.now) payload_type.now moment r.id) (C.objects calendar.now).resources) }
    ensures memory { OnlyNoMemory result }
{
    let mut last = LastState::none(*out.allocator(), calendar.book(), payload_type);
    for place in 0..calendar.book().count(Kind::Resource) {
        put_roll_line_at(out, &mut last, calendar, place, payload_type, moment)?;
    }
    Ok(())
}

/// The bytes of the answer to `roll`.
fn text_of_roll<C: Calendar>(
    alloc: Global,
    calendar: &C,
    payload_type: &PayloadType,
    moment: Moment,
) -> Result<Vec<u8>, Refusal>
    ensures ok { IfOk result (λ v. v.items ≡ in_lines (C.objects calendar.now) (flat_map (λ r. roll_line (C.tie calendar.now) (C.objects calendar.now) payload_type.now moment r.id) (C.objects calendar.now).resources)) }
    ensures memory { OnlyNoMemory result }
{
    let lines = calendar.book().count(Kind::Resource).saturating_add(1);
    let mut out = Vec::with_capacity(alloc, lines.saturating_mul(LINE))?;
    put_version(&mut out, calendar.book().version())?;
    put(&mut out, b"\n")?;
    put_roll_lines(&mut out, calendar, payload_type, moment)?;
    put(&mut out, b".\n")?;
    Ok(out)
}

/// The answer to `roll`: the state of each resource, in order of creation. Cost: that of the calendar's state for each
/// resource by its place, and their bytes.
///
/// # Errors
///
/// `NoMemory` where there is no room for the answer.
#[tactic(auto, unfolding(adr_model::specs::Queries::roll))]
pub fn roll<C: Calendar>(
    alloc: Global,
    calendar: &C,
    payload_type: &PayloadType,
    moment: Moment,
) -> Result<Vec<u8>, Refusal>
    ensures { Answers (result_map (λ v. v.items) result) (roll (C.tie calendar.now) (C.objects calendar.now) payload_type.now moment) }
{
    text_of_roll(alloc, calendar, payload_type, moment)
}

/// Appends the line of a type.
fn put_type_line(out: &mut Vec<u8>, payload_type: &PayloadType) -> Result<(), Refusal>
    ensures ok { OnOk result (out.new.items ≡ out.old.items ++ (type_text (name_of payload_type.now) ++ codes "\n")) }
    ensures memory { OnlyNoMemory result }
{
    put_type(out, payload_type.name())?;
    put(out, b"\n")
}

/// Appends the lines of the types.
fn put_type_lines(out: &mut Vec<u8>, types: &[PayloadType]) -> Result<(), Refusal>
    ensures ok { OnOk result (out.new.items ≡ out.old.items ++ flat_map (λ kind. type_text (name_of kind) ++ codes "\n") types.now) }
    ensures memory { OnlyNoMemory result }
{
    for payload_type in types {
        put_type_line(out, payload_type)?;
    }
    Ok(())
}

/// The bytes of the answer to `types`.
fn text_of_types(alloc: Global, book: &Book, types: &[PayloadType]) -> Result<Vec<u8>, Refusal>
    ensures ok { IfOk result (λ v. v.items ≡ in_lines book.now.objects (flat_map (λ kind. type_text (name_of kind) ++ codes "\n") types.now)) }
    ensures memory { OnlyNoMemory result }
{
    let mut out = Vec::with_capacity(alloc, LINE)?;
    put_version(&mut out, book.version())?;
    put(&mut out, b"\n")?;
    put_type_lines(&mut out, types)?;
    put(&mut out, b".\n")?;
    Ok(out)
}

/// The answer to `types`: the payload types that govern the resource at some moment. Cost: a look-up of the resource,
/// and that of the calendar's types, and their bytes.
///
/// # Errors
///
/// `UnknownResource` where the book has no such resource; `NoMemory` where there is no room for the answer, in place of
/// any.
#[tactic(auto, unfolding(adr_model::specs::Queries::types))]
pub fn types<C: Calendar>(alloc: Global, calendar: &C, id: &Id) -> Result<Vec<u8>, Refusal>
    ensures { Answers (result_map (λ v. v.items) result) (types (C.tie calendar.now) (C.objects calendar.now) id.now) }
{
    let Some(place) = calendar.book().resource_place(id.lent()) else {
        return Err(Refusal::UnknownResource);
    };
    let types = calendar.types(place)?;
    text_of_types(alloc, calendar.book(), types.as_slice())
}
