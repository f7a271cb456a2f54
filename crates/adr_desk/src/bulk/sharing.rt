//! Which resources share a group: those to which the same events apply.
ghost use Rattle.std.specs.Prelude.{◌≡◌, ◌<◌, ◌≤◌, ◌+◌, ◌-◌, ℕ, List, Some, length, slice_get, IfOk, IfSome, OnOk};
ghost use Rattle.adr_refusal.specs.Answer.{OnlyNoMemory};
ghost use Rattle.adr_audience.specs.Keys.{AreKeysOf};
ghost use Rattle.adr_model.specs.Book.{Book as the_book};
ghost use Rattle.adr_desk.specs.Bulk.{AreFoundAt, ArePlanned, AreWritesFrom};

use adr_audience::Audiences;
use adr_book::Book;
use adr_group::Writes;
use adr_object::Kind;
use adr_regroup::writes_of;
use adr_value::Refusal;
use indexmap::IndexMap;
use rayon::prelude::*;
use std::alloc::Global;
use std::thread::Threads;

/// A thread asks for the writes of no fewer resources at once.
const LEAST_ASKED: usize = 32;

/// The writes of so many resources are there at once, each with all its numbers, before equal ones share a slot.
const MOST_ASKED: usize = 1024;

/// The slot of each resource in order of creation, and the writes that stand in each slot.
#[derive(Drop)]
pub(crate) struct Plan {
    pub(crate) slots: Vec<usize>,
    pub(crate) jobs: Vec<Writes>,
}

/// A number that equal writes have in common, and others mostly not.
fn fingerprint(numbers: &[u64]) -> u64 {
    let mut print: u64 = 0;
    let mut rest = numbers;
    'rest: while let Some((number, more)) = rest.split_first() {
        print = (print ^ *number).wrapping_mul(0x9E37_79B9_7F4A_7C15);
        print ^= print >> 29;
        rest = more;
    }
    print
}

/// The slot where those writes stand, if the one that was seen with their fingerprint has them.
fn slot_with(
    seen: &IndexMap<u64, usize>,
    jobs: &[Writes],
    print: u64,
    writes: &Writes,
) -> Option<usize>
    ensures { IfSome result (λ slot. slice_get jobs.now slot ≡ Some writes.now) }
{
    let slot = *seen.get(&print)?;
    match jobs.get(slot) {
        Some(job) if job.same(writes) => Some(slot),
        _ => None,
    }
}

/// The slot where those writes stand: one that there is, or a new one.
fn slot_for(
    seen: &mut IndexMap<u64, usize>,
    jobs: &mut Vec<Writes>,
    writes: Writes,
) -> Result<usize, Refusal>
    ensures slot { IfOk result (λ slot. slice_get jobs.new.items slot ≡ Some writes) }
    ensures kept { OnOk result ((slot : ℕ) (numbers : List ℕ) → slice_get jobs.old.items slot ≡ Some numbers → slice_get jobs.new.items slot ≡ Some numbers) }
    ensures refusal { OnlyNoMemory result }
{
    let print = fingerprint(writes.numbers());
    if let Some(slot) = slot_with(seen, jobs.as_slice(), print, &writes) {
        return Ok(slot);
    }
    let slot = jobs.len();
    seen.insert(print, slot)?;
    jobs.push(writes)?;
    Ok(slot)
}

/// The writes of the resources from one place up to another, asked by as many threads as there are processors.
fn writes_between<R: Threads + Sync>(
    rt: &R,
    alloc: Global,
    book: &Book,
    keys: &Audiences,
    start: usize,
    end: usize,
) -> Result<Vec<Writes>, Refusal>
    requires end { end ≤ length book.now.objects.resources }
    requires keys { AreKeysOf book.now.objects keys.now }
    ensures writes { IfOk result (λ writes. AreWritesFrom book.now.objects start (end - start) writes.items) }
    ensures refusal { OnlyNoMemory result }
{
    (start..end)
        .into_par_iter()
        .with_min_len(LEAST_ASKED)
        .map(
            |place: usize| -> Result<Writes, Refusal>
                requires { (place < length book.now.objects.resources) × AreKeysOf book.now.objects keys.now }
                ensures { AreFoundAt book.entry.now.objects place result }
            { writes_of(book, keys, place) },
        )
        .collect::<Result<Vec<Writes>, Refusal>>(rt, alloc)?
}

/// Gives slots to the writes of the next resources, in order.
fn give_slots(
    seen: &mut IndexMap<u64, usize>,
    slots: &mut Vec<usize>,
    jobs: &mut Vec<Writes>,
    all: Vec<Writes>,
) -> Result<(), Refusal>
    ensures planned { (book : the_book) → ArePlanned book (length slots.old.items) slots.old.items jobs.old.items → AreWritesFrom book (length slots.old.items) (length all.items) all.items
        → OnOk result (ArePlanned book (length slots.old.items + length all.items) slots.new.items jobs.new.items) }
    ensures refusal { OnlyNoMemory result }
{
    for writes in all {
        let slot = slot_for(seen, jobs, writes)?;
        slots.push(slot)?;
    }
    Ok(())
}

/// The slots of all resources of the book, and their writes. Those of a part of the resources are there at once.
pub(crate) fn plan_all<R: Threads + Sync>(
    rt: &R,
    alloc: Global,
    book: &Book,
    keys: &Audiences,
) -> Result<Plan, Refusal>
    requires keys { AreKeysOf book.now.objects keys.now }
    ensures planned { IfOk result (λ plan. ArePlanned book.now.objects (length book.now.objects.resources) plan.slots.items plan.jobs.items) }
    ensures refusal { OnlyNoMemory result }
{
    let mut seen = IndexMap::new(alloc);
    let mut slots = Vec::new(alloc);
    let mut jobs = Vec::new(alloc);
    let count = book.count(Kind::Resource);
    'rest: while slots.len() < count {
        let start = slots.len();
        let end = count.min(start + MOST_ASKED);
        let all = writes_between(rt, alloc, book, keys, start, end)?;
        give_slots(&mut seen, &mut slots, &mut jobs, all)?;
    }
    Ok(Plan { slots, jobs })
}
