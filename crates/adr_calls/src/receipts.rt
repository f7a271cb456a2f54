//! What the receipts of edits tell.
use adr_desk::{Desk, EditTouches, NoGate, Receipt, Touched};
use adr_model::{Tie, Touch};
use adr_test_values::bodies::any_edit;
use adr_test_values::lines::word;
use adr_test_values::telling::{tell_same, told};
use adr_time::{End, Moment};
use adr_value::Refusal;
use std::alloc::{AllocError, Global};
use std::io;
use std::thread::Threads;

/// How many resources a desk of the lines has at most.
pub(crate) const MOST_RESOURCES: usize = 16;

/// What a receipt tells: a line for each touch, and how many ranks were compared.
#[derive(Drop, PartialEq)]
struct ToldReceipt {
    touches: String,
    compares: u128,
}

/// The hours from 1970 on.
pub(crate) fn hours(moment: Moment) -> i128 {
    moment.nanoseconds() / 3_600_000_000_000
}

fn hours_to(end: End) -> Option<i128> {
    match end {
        End::At(end) => Some(hours(end)),
        End::Endless => None,
    }
}

fn window_text(alloc: Global, start: i128, end: Option<i128>) -> Result<String, AllocError> {
    match end {
        Some(end) => format!(in alloc; "{start} {end}"),
        None => format!(in alloc; "{start} endless"),
    }
}

/// Adds the line `RESOURCE TYPE START END` of the touch, in hours from 1970 on.
fn add_touch(alloc: Global, text: &mut String, touch: &Touch) -> Result<(), AllocError> {
    let start = hours(touch.window.start);
    let window = window_text(alloc, start, hours_to(touch.window.end))?;
    for part in [
        "  touches ",
        touch.resource.text(),
        " ",
        touch.kind.name(),
        " ",
    ] {
        text.push_str(part)?;
    }
    text.push_str(window.as_str())?;
    text.push('\n')
}

fn add_touches(alloc: Global, text: &mut String, touches: &[Touch]) -> Result<(), AllocError> {
    for touch in touches {
        add_touch(alloc, text, touch)?;
    }
    Ok(())
}

/// The touches, listed at once.
fn text_of(alloc: Global, touched: &Touched) -> Result<String, Refusal> {
    let mut text = String::new(alloc);
    let touches = touched.to_vec(alloc)?;
    let added = add_touches(alloc, &mut text, touches.as_slice());
    drop(touches);
    added?;
    Ok(text)
}

/// Adds the touches of the next resource, if there is one.
fn add_next(alloc: Global, text: &mut String, left: &mut EditTouches) -> Result<bool, Refusal> {
    let Some(touches) = left.next_resource()? else {
        return Ok(false);
    };
    let added = add_touches(alloc, text, touches.as_slice());
    drop(touches);
    added?;
    Ok(true)
}

/// The touches, listed resource by resource.
fn text_by_resource(alloc: Global, touched: &Touched) -> Result<String, Refusal> {
    let mut text = String::new(alloc);
    let mut left = touched.by_resource(alloc)?;
    for _ in 0..MOST_RESOURCES {
        if !add_next(alloc, &mut text, &mut left)? {
            return Ok(text);
        }
    }
    Err(Refusal::TooMany)
}

/// Makes the edit of the line by so many workers, or by `apply` where there are none.
fn apply<R: Threads + Sync>(
    rt: &R,
    alloc: Global,
    desk: &mut Desk,
    workers: usize,
    line: &str,
) -> Result<Receipt, Refusal> {
    let edit = any_edit(alloc, line)?;
    match workers {
        0 => desk.apply(edit),
        _ => desk.apply_with(rt, workers, &NoGate, edit),
    }
}

/// What is told of the edit; of workers' receipts the touches are listed resource by resource.
fn receipt_of<R: Threads + Sync>(
    rt: &R,
    alloc: Global,
    desk: &mut Desk,
    workers: usize,
    line: &str,
) -> Result<ToldReceipt, Refusal> {
    let receipt = apply(rt, alloc, desk, workers, line)?;
    let touches = match workers {
        0 => text_of(alloc, &receipt.touched),
        _ => text_by_resource(alloc, &receipt.touched),
    };
    let compares = receipt.compares;
    drop(receipt);
    Ok(ToldReceipt {
        touches: touches?,
        compares,
    })
}

/// What the receipt of the edit tells that is made of a copy of the desk.
fn told_beside<R: Threads + Sync>(
    rt: &R,
    alloc: Global,
    desk: &Desk,
    workers: usize,
    line: &str,
) -> Result<ToldReceipt, Refusal> {
    let mut copy = desk.copy()?;
    let told = receipt_of(rt, alloc, &mut copy, workers, line);
    drop(copy);
    told
}

/// Whether one worker, two and 64 tell the same of the edit.
fn is_told_by_all<R: Threads + Sync>(
    rt: &R,
    alloc: Global,
    desk: &Desk,
    line: &str,
    told: &ToldReceipt,
) -> Result<bool, Refusal> {
    for workers in [1, 2, 64] {
        if told_beside(rt, alloc, desk, workers, line)? != *told {
            return Ok(false);
        }
    }
    Ok(true)
}

/// Whether the number is in the range, `LEAST..` or `LEAST..MOST`.
fn is_within(range: &str, number: u128) -> bool {
    let (least, most) = range.split_once("..").unwrap_or((range, range));
    let least = least.parse::<u64>().unwrap_or(u64::MAX);
    let most = most.parse::<u64>().unwrap_or(u64::MAX);
    u128::from(least) <= number && number <= u128::from(most)
}

fn tell_receipt<R: Print>(rt: &R, line: &str) -> io::Result<()> {
    println!(rt; "receipt: {line}")
}

fn tell_compares<R: Print>(rt: &R, range: &str, number: u128) -> io::Result<()> {
    if is_within(range, number) {
        println!(rt; "  compares {range}")
    } else {
        println!(rt; "  compares {number}, which is not {range}")
    }
}

/// What the receipt tells, and whether all workers tell the same.
fn tell_told<R: Print>(rt: &R, range: &str, told: &ToldReceipt, is_same: bool) -> io::Result<()> {
    print!(rt; "{}", told.touches)?;
    tell_compares(rt, range, told.compares)?;
    tell_same(rt, is_same)
}

/// Makes the edit of the line, and tells its touches and whether it compares as many ranks as the range says.
fn tell<R: Print + Threads + Sync>(
    rt: &R,
    alloc: Global,
    desk: &Desk,
    range: &str,
    line: &str,
) -> io::Result<()> {
    let receipt = told(told_beside(rt, alloc, desk, 0, line))?;
    let is_same = is_told_by_all(rt, alloc, desk, line, &receipt);
    tell_told(rt, range, &receipt, is_same == Ok(true))
}

fn make(alloc: Global, desk: &mut Desk, line: &str) -> Result<(), Refusal> {
    let receipt = desk.apply(any_edit(alloc, line)?)?;
    drop(receipt);
    Ok(())
}

fn try_line<R: AllocGlobal + Print + Threads + Sync>(
    rt: &R,
    desk: &mut Desk,
    line: &str,
) -> io::Result<()> {
    match word(line) {
        ("tell", line) => {
            let (range, line) = word(line);
            tell_receipt(rt, line)?;
            tell(rt, rt.alloc(), desk, range, line)
        }
        _ => told(make(rt.alloc(), desk, line)),
    }
}

fn try_lines<R: AllocGlobal + Print + Threads + Sync>(
    rt: &R,
    desk: &mut Desk,
    lines: &str,
) -> io::Result<()> {
    for line in lines.lines() {
        try_line(rt, desk, line)?;
    }
    Ok(())
}

/// Makes the edits of the lines on a new desk under each rule for ties. A line may begin with `tell` and a range: then
/// a copy of the desk is edited, and the receipt is told; by one worker, two and 64 it must be the same.
pub(crate) fn tell_receipts<R: AllocGlobal + Print + Threads + Sync>(
    rt: &R,
    lines: &str,
) -> io::Result<()> {
    for tie in [Tie::Newest, Tie::LatestStart] {
        let mut desk = told(Desk::new(rt.alloc(), tie))?;
        let tried = try_lines(rt, &mut desk, lines);
        drop(desk);
        tried?;
    }
    Ok(())
}
