//! The touches of edits, listed at once and resource by resource.
use crate::receipts::{MOST_RESOURCES, hours};
use adr_desk::{Desk, EditTouches, Receipt, Touched};
use adr_model::{Tie, Touch};
use adr_test_values::lines::edit;
use adr_test_values::telling::{tell_call, tell_want, told};
use adr_time::{End, Moment};
use adr_value::Refusal;
use std::alloc::Global;
use std::io;

fn tell_endless<R: Print>(rt: &R, resource: &str, name: &str, start: i128) -> io::Result<()> {
    println!(rt; "  ordinary: touches {resource} {name} {start} endless")
}

fn tell_window<R: Print>(
    rt: &R,
    resource: &str,
    name: &str,
    start: Moment,
    end: Moment,
) -> io::Result<()> {
    println!(rt;
        "  ordinary: touches {resource} {name} {} {}",
        hours(start),
        hours(end)
    )
}

/// The touch, in hours from 1970 on.
fn tell_touch<R: Print>(rt: &R, touch: &Touch) -> io::Result<()> {
    let (resource, name, start) = (touch.resource.text(), touch.kind.name(), touch.window.start);
    match touch.window.end {
        End::At(end) => tell_window(rt, resource, name, start, end),
        End::Endless => tell_endless(rt, resource, name, hours(start)),
    }
}

fn tell_count<R: Print>(rt: &R, count: usize) -> io::Result<()> {
    println!(rt; "  ordinary: {count} touches")
}

fn tell_touches<R: Print>(rt: &R, touches: &[Touch]) -> io::Result<()> {
    tell_count(rt, touches.len())?;
    for touch in touches {
        tell_touch(rt, touch)?;
    }
    Ok(())
}

fn tell_list<R: Print>(rt: &R, list: Result<Vec<Touch>, Refusal>) -> io::Result<()> {
    let list = told(list)?;
    let touches = tell_touches(rt, list.as_slice());
    drop(list);
    touches
}

/// Lists the touches at once, again where there was no memory.
fn list_at_once<R: AllocGlobal + Print>(
    rt: &R,
    touched: &Touched,
    number: usize,
) -> io::Result<()> {
    tell_call(rt, "touches at once", number)?;
    match touched.to_vec(rt.alloc()) {
        Err(Refusal::NoMemory) => {
            tell_want(rt)?;
            tell_list(rt, touched.to_vec(rt.alloc()))
        }
        list => tell_list(rt, list),
    }
}

/// The touches of the next resource, if there is one, asked for again where there was no memory.
fn next<R: Print>(rt: &R, left: &mut EditTouches) -> io::Result<Option<Vec<Touch>>> {
    match left.next_resource() {
        Err(Refusal::NoMemory) => {
            tell_want(rt)?;
            told(left.next_resource())
        }
        next => told(next),
    }
}

/// Lists the touches of the next resource, if there is one.
fn list_next<R: Print>(rt: &R, left: &mut EditTouches, number: usize) -> io::Result<bool> {
    tell_call(rt, "touches of the next resource", number)?;
    match next(rt, left)? {
        Some(list) => {
            tell_list(rt, Ok(list))?;
            Ok(true)
        }
        None => {
            tell_count(rt, 0)?;
            Ok(false)
        }
    }
}

fn list_all<R: Print>(rt: &R, left: &mut EditTouches, number: usize) -> io::Result<()> {
    for place in 0..MOST_RESOURCES {
        let call = number.wrapping_mul(MOST_RESOURCES).wrapping_add(place);
        if !list_next(rt, left, call)? {
            return Ok(());
        }
    }
    told(Err(Refusal::TooMany))
}

/// The touches that are to be listed by resource, made ready again where there was no memory.
fn ready<'a, R: AllocGlobal + Print>(rt: &R, touched: &'a Touched) -> io::Result<EditTouches<'a>> {
    match touched.by_resource(rt.alloc()) {
        Err(Refusal::NoMemory) => {
            tell_want(rt)?;
            told(touched.by_resource(rt.alloc()))
        }
        left => told(left),
    }
}

/// Lists the touches resource by resource.
fn list_by_resource<R: AllocGlobal + Print>(
    rt: &R,
    touched: &Touched,
    number: usize,
) -> io::Result<()> {
    tell_call(rt, "touches by resource", number)?;
    let mut left = ready(rt, touched)?;
    let listed = list_all(rt, &mut left, number);
    drop(left);
    listed
}

fn made(alloc: Global, desk: &mut Desk, line: &str) -> Result<Receipt, Refusal> {
    let edit = edit(alloc, line)?;
    desk.apply(edit)
}

/// Makes the edit of the line, and lists what it touched in both ways.
fn list_both<R: AllocGlobal + Print>(
    rt: &R,
    desk: &mut Desk,
    number: usize,
    line: &str,
) -> io::Result<()> {
    let receipt = told(made(rt.alloc(), desk, line))?;
    let at_once = list_at_once(rt, &receipt.touched, number);
    let by_resource = list_by_resource(rt, &receipt.touched, number);
    drop(receipt);
    at_once?;
    by_resource
}

fn list_each<R: AllocGlobal + Print>(rt: &R, desk: &mut Desk, lines: &str) -> io::Result<()> {
    for (number, line) in lines.lines().enumerate() {
        list_both(rt, desk, number, line)?;
    }
    Ok(())
}

/// Makes the edits of the lines on a new desk, and lists what each of them touched, at once and resource by resource.
pub(crate) fn list_touches<R: AllocGlobal + Print>(
    rt: &R,
    tie: Tie,
    lines: &str,
) -> io::Result<()> {
    let mut desk = told(Desk::new(rt.alloc(), tie))?;
    let listed = list_each(rt, &mut desk, lines);
    drop(desk);
    listed
}
