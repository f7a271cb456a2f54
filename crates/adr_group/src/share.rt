//! Which jobs a worker has, and how the workers do theirs.
ghost use Rattle.std.specs.Prelude.{◌≡◌, ◌≤◌, ◌<◌, ◌+◌, ◌*◌, ◌/◌, length, take, slice_range, IfOk};
ghost use denote.Param.Send.{IsSync};
ghost use Rattle.adr_refusal.specs.Answer.{OnlyNoMemory};
ghost use Rattle.adr_group.specs.Jobs.{AreDone};

use crate::gate::Gate;
use crate::job::{Done, RepairJob, do_jobs};
use adr_lines::Indexes;
use adr_refusal::Refusal;
use std::alloc::Global;
use std::thread::{Threads, join};

/// Where the jobs of a worker begin, and those of the worker before it end.
fn bound(count: usize, workers: usize, worker: usize) -> usize
    requires { (worker ≤ workers) × (1 ≤ workers) × (workers ≤ 64) }
    ensures { result ≡ worker * count / workers }
{
    let product = worker as u128 * count as u128;
    (product / workers as u128) as usize
}

/// The jobs of one worker.
fn chunk(jobs: &[RepairJob], workers: usize, worker: usize) -> &[RepairJob]
    requires { (worker < workers) × (workers ≤ 64) }
    ensures part { result.now ≡ slice_range jobs.now (worker * length jobs.now / workers) ((worker + 1) * length jobs.now / workers) }
{
    let from = bound(jobs.len(), workers, worker);
    let until = bound(jobs.len(), workers, worker + 1);
    &jobs[from..until]
}

/// Does the jobs of the first workers, those of the last in a thread of its own, or in this one where none can be
/// made. A worker with no jobs needs no thread. Worker 0 is this thread.
#[cycle(workers)]
fn do_first<R: Threads + Sync, G: Gate + Sync>(
    rt: &R,
    alloc: Global,
    indexes: &Indexes,
    gate: &G,
    jobs: &[RepairJob],
    workers: usize,
    count: usize,
) -> Result<Vec<Done>, Refusal>
    requires count { (1 ≤ count) × (count ≤ workers) × (workers ≤ 64) }
    ensures done { IfOk result (λ done. AreDone indexes.now (take (count * length jobs.now / workers) jobs.now) done.items) }
    ensures refusal { OnlyNoMemory result }
{
    let worker = count - 1;
    let part = chunk(jobs, workers, worker);
    if worker == 0 {
        return do_jobs(alloc, indexes, gate, worker, part);
    }
    if part.len() == 0 {
        return do_first(rt, alloc, indexes, gate, jobs, workers, worker);
    }
    let last = || -> Result<Vec<Done>, Refusal>
        requires { IsSync G.row }
        ensures done { IfOk result (λ done. AreDone indexes.entry.now part.entry.now done.items) }
        ensures refusal { OnlyNoMemory result }
    { do_jobs(alloc, indexes, gate, worker, part) };
    let others = || -> Result<Vec<Done>, Refusal>
        requires { IsSync R.row × IsSync G.row × (1 ≤ worker) × (worker ≤ workers) × (workers ≤ 64) }
        ensures done { IfOk result (λ done. AreDone indexes.entry.now (take (worker * length jobs.entry.now / workers) jobs.entry.now) done.items) }
        ensures refusal { OnlyNoMemory result }
    { do_first(rt, alloc, indexes, gate, jobs, workers, worker) };
    let (theirs, ours) = join(rt, last, others);
    let mut all = ours?;
    let mut rest = theirs?;
    all.append(&mut rest)?;
    Ok(all)
}

/// Does the jobs by so many workers, 1 to 64, who share them out: of `n` jobs in order worker `i` of `w` has those from
/// `floor(i n / w)` to before `floor((i + 1) n / w)`, and passes the gate before each. Worker 0 is the calling thread;
/// jobs of a worker that can't be started are done by it too. Of fewer workers than one there is one, and of more than
/// 64 there are 64.
///
/// # Errors
///
/// `NoMemory` where there is no room for what the jobs build.
pub fn do_all<R: Threads + Sync, G: Gate + Sync>(
    rt: &R,
    alloc: Global,
    indexes: &Indexes,
    workers: usize,
    gate: &G,
    jobs: &[RepairJob],
) -> Result<Vec<Done>, Refusal>
    ensures done { IfOk result (λ done. AreDone indexes.now jobs.now done.items) }
    ensures refusal { OnlyNoMemory result }
{
    let count = workers.clamp(1, 64);
    let done = do_first(rt, alloc, indexes, gate, jobs, count, count)?;
    Ok(done)
}
