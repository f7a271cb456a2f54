//! Edits of a desk: how many ranks their repairs compare, and how long they take.
use adr_desk::Desk;
use adr_model::Tie;
use adr_object::Edit;
use adr_refusal::Refusal;
use adr_test_values::bodies::edit;
use adr_test_values::telling::{since, taken, told};
use std::alloc::Global;
use std::io;
use std::rt::Clock;
use std::thread::Threads;
use std::time::Instant;

fn print_cost<R: Print>(rt: &R, compares: u128, nanoseconds: io::Result<u128>) -> io::Result<()> {
    println!(rt; "{compares} {}", nanoseconds?)
}

/// Makes the edit, and prints how many ranks its repair compares, and the nanoseconds that it takes.
fn print_edit<R: Print + Clock>(rt: &R, desk: &mut Desk, edit: Edit) -> io::Result<()> {
    let start = Instant::now(rt);
    let receipt = desk.apply(edit);
    let nanoseconds = since(rt, start);
    let receipt = told(receipt)?;
    let compares = receipt.compares;
    drop(receipt);
    print_cost(rt, compares, nanoseconds)
}

/// A line is an edit, or `seal`, which closes the open batch.
fn print_each<R: AllocGlobal + Print + Clock>(
    rt: &R,
    desk: &mut Desk,
    lines: &str,
) -> io::Result<()> {
    for line in lines.lines() {
        if line == "seal" {
            told(desk.seal())?;
        } else {
            let edit = told(edit(rt.alloc(), line))?;
            print_edit(rt, desk, edit)?;
        }
    }
    Ok(())
}

/// Makes the edits of the lines on a new desk, and prints what each compares and how long it takes.
pub(crate) fn print_edits<R: AllocGlobal + Print + Clock>(rt: &R, lines: &str) -> io::Result<()> {
    let mut desk = told(Desk::new(rt.alloc(), Tie::Newest))?;
    let printed = print_each(rt, &mut desk, lines);
    drop(desk);
    printed
}

fn edits_of(alloc: Global, lines: &str) -> Result<Vec<Edit>, Refusal> {
    let mut edits = Vec::new(alloc);
    for line in lines.lines() {
        let edit = edit(alloc, line)?;
        edits.push(edit)?;
    }
    Ok(edits)
}

fn print_time<R: Print>(rt: &R, nanoseconds: io::Result<u128>) -> io::Result<()> {
    println!(rt; "{}", nanoseconds?)
}

/// Prints the nanoseconds in which a desk is loaded with the edits of the lines at once.
pub(crate) fn print_load<R: AllocGlobal + Print + Clock + Threads + Sync>(
    rt: &R,
    lines: &str,
) -> io::Result<()> {
    let edits = told(edits_of(rt.alloc(), lines))?;
    let start = Instant::now(rt);
    let loaded = Desk::load(rt, rt.alloc(), edits, Tie::Newest);
    print_time(rt, taken(rt, start, loaded))
}
