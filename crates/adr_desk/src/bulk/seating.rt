//! All groups of a book, built by many threads.
ghost use Rattle.std.specs.Prelude.{IfOk};
ghost use Rattle.std.specs.List.{AllZip};
ghost use Rattle.adr_refusal.specs.Answer.{OnlyNoMemory};
ghost use Rattle.adr_audience.specs.Keys.{AreKeysOf};
ghost use Rattle.adr_schedule.specs.Seating.{AreSeatedFor};
ghost use Rattle.adr_desk.specs.Bulk.{IsBuilt, IsGroupFor};

use crate::bulk::grouping::group_for;
use crate::bulk::sharing::plan_all;
use adr_audience::Audiences;
use adr_book::Book;
use adr_group::{Group, Writes};
use adr_model::Tie;
use adr_schedule::Schedule;
use adr_value::Refusal;
use rayon::prelude::*;
use std::alloc::Global;
use std::thread::Threads;

/// The groups of all writes, in order, from as many threads as there are processors.
fn build_all<R: Threads + Sync>(
    rt: &R,
    alloc: Global,
    tie: Tie,
    book: &Book,
    jobs: &[Writes],
) -> Result<Vec<Group>, Refusal>
    ensures groups { IfOk result (λ groups. AllZip (IsGroupFor tie book.now.objects.events) jobs.now groups.items) }
    ensures refusal { OnlyNoMemory result }
{
    jobs.par_iter()
        .with_min_len(1)
        .map(
            |writes: &Writes| -> Result<Group, Refusal>
                ensures { IsBuilt tie book.entry.now.objects.events writes.now result }
            { group_for(alloc, tie, book, writes) },
        )
        .collect::<Result<Vec<Group>, Refusal>>(rt, alloc)?
}

/// The groups of all resources of the book, each built once from nothing by one of many threads, whatever the number of
/// resources that share it. Which events apply to a resource is asked by many threads before. `NoMemory` where there is
/// no room.
///
/// Cost: for each resource that of `Audiences::numbers_for`; for each group an index of the entries of its own events,
/// and a timeline of them for each of their types.
pub(crate) fn seat_all<R: Threads + Sync>(
    rt: &R,
    alloc: Global,
    tie: Tie,
    book: &Book,
    keys: &Audiences,
) -> Result<Schedule, Refusal>
    requires keys { AreKeysOf book.now.objects keys.now }
    ensures seated { IfOk result (AreSeatedFor tie book.now.objects) }
    ensures refusal { OnlyNoMemory result }
{
    let plan = plan_all(rt, alloc, book, keys)?;
    let groups = build_all(rt, alloc, tie, book, plan.jobs.as_slice())?;
    let schedule = Schedule::of(alloc, plan.slots.as_slice(), groups.as_slice())?;
    Ok(schedule)
}
