//! The work of a repair, in jobs that may be done apart.
ghost use Rattle.std.specs.Prelude.{◌≡◌, ◌+◌, ◌<◌, ◌≤◌, ◌++◌, ◌∷◌, [], position, IfOk, OnOk};
ghost use Rattle.adr_refusal.specs.Answer.{OnlyNoMemory};
ghost use Rattle.adr_lines.specs.Grouped.{HaveOwnTypes};
ghost use Rattle.adr_value.specs.Same.{same_type};
ghost use Rattle.adr_group.specs.Jobs.{most_done, AreAlike, AreDone, AreGathered, IsAfter, IsDone};

use crate::exchange::exchanged_line;
use crate::gate::Gate;
use crate::repair::line_repaired;
use crate::writes::Writes;
use adr_lines::{Indexes, TypeEntries};
use adr_model::Entry;
use adr_rule::Meter;
use adr_shared::Shared;
use adr_timeline::Timeline;
use adr_value::{PayloadType, Refusal};
use std::alloc::Global;

/// What a job needs that lays an event over a timeline, or takes one out where it governs: what the timeline shows where
/// the entries of the event that comes lie, as entries by rank; how many of the job's windows are entries of the event
/// that goes, the others being those of the one that comes; and the number of the event that goes.
pub struct Held {
    /// What the timeline shows where the entries that come lie, in turn, by the ranks of its winners.
    pub shown: Vec<Entry>,
    /// How many of the job's windows, the first ones, are entries of the event that goes.
    pub leaving: usize,
    /// The number of the write of the event that goes; None where none does.
    pub gone: Option<u64>,
}

// A function of its own, so that callers that let a value go need not look into it.
impl Drop for Held {
    fn drop(self) {
        let Held {
            shown,
            leaving: _,
            gone: _,
        } = self;
        drop(shown);
    }
}

/// One payload type of a group: its timeline, the windows in which it changes, and the writes of the group after that.
/// Where something is held, an event is laid over the timeline, or another goes, or both; else what the writes show is
/// built inside the windows.
pub struct RepairJob {
    /// The writes of the group after the job.
    pub writes: Shared<Writes>,
    /// The payload type of the line, and the windows in which it changes.
    pub windows: Shared<TypeEntries>,
    /// The group's timeline of that type before the job; an empty one where it has none.
    pub line: Timeline,
    /// What is known of an event that is laid or goes; None where what the writes show is built in all windows.
    pub held: Option<Held>,
}

// A function of its own, so that callers that let a value go need not look into it.
impl Drop for RepairJob {
    fn drop(self) {
        let RepairJob {
            writes,
            windows,
            line,
            held,
        } = self;
        drop(writes);
        drop(windows);
        drop(line);
        drop(held);
    }
}

/// The timeline of the job's type after it, and how often the job compared.
pub struct Done {
    /// The timeline after the job.
    pub line: Timeline,
    /// How often the job compared two ranks.
    pub compared: u128,
}

// A function of its own, so that callers that let a value go need not look into it.
impl Drop for Done {
    fn drop(self) {
        let Done { line, compared: _ } = self;
        drop(line);
    }
}

/// The timeline of the job's type after it.
fn line_after(
    alloc: Global,
    indexes: &Indexes,
    job: &RepairJob,
    meter: &mut Meter,
) -> Result<Timeline, Refusal>
    ensures after { IfOk result (IsAfter indexes.now job.now) }
    ensures compared { meter.new ≤ meter.old + most_done indexes.now job.now }
    ensures refusal { OnlyNoMemory result }
{
    let windows = job.windows.get();
    let writes = job.writes.get();
    match &job.held {
        Some(held) => exchanged_line(alloc, indexes, &job.line, windows, held, writes, meter),
        None => {
            let entries = windows.entries.as_slice();
            line_repaired(
                alloc,
                &job.line,
                indexes,
                &windows.payload_type,
                entries,
                writes,
                meter,
            )
        }
    }
}

/// Does a job, with a count of its own.
fn do_job(alloc: Global, indexes: &Indexes, job: &RepairJob) -> Result<Done, Refusal>
    ensures done { IfOk result (IsDone indexes.now job.now) }
    ensures compared { IfOk result (λ done. done.compared ≤ most_done indexes.now job.now) }
    ensures refusal { OnlyNoMemory result }
{
    let mut meter = Meter::new();
    let line = line_after(alloc, indexes, job, &mut meter)?;
    Ok(Done {
        line,
        compared: meter.count(),
    })
}

/// Does the jobs of one worker, one after the other: it passes the gate before each. Cost: for each job that builds and
/// each of its windows a search of the index and a timeline of the entries that meet it, and one splice; for each that
/// lays some steps for each entry that comes and each segment that it meets, and one splice; and where an event goes that
/// of the windows in which it governs.
///
/// # Errors
///
/// `NoMemory` where there is no room for what they make.
pub fn do_jobs<G: Gate>(
    alloc: Global,
    indexes: &Indexes,
    gate: &G,
    worker: usize,
    jobs: &[RepairJob],
) -> Result<Vec<Done>, Refusal>
    ensures done { IfOk result (λ done. AreDone indexes.now jobs.now done.items) }
    ensures refusal { OnlyNoMemory result }
{
    let mut done = Vec::with_capacity(alloc, jobs.len())?;
    let mut rest = jobs;
    'rest: while let Some((job, more)) = rest.split_first() {
        gate.pass(worker);
        done.push(do_job(alloc, indexes, job)?)?;
        rest = more;
    }
    Ok(done)
}

/// Where the windows of the type stand.
fn place_of(types: &[TypeEntries], payload_type: &PayloadType) -> Option<usize>
    ensures { result ≡ position (λ g. same_type g.payload_type payload_type.now) types.now }
{
    types
        .iter()
        .position(|own| own.payload_type.name() == payload_type.name())
}

/// Adds the windows of a type, behind those of the same type where there are such.
fn gather(alloc: Global, types: &mut Vec<TypeEntries>, group: &TypeEntries) -> Result<(), Refusal>
    requires own { HaveOwnTypes types.old.items }
    ensures own { OnOk result (HaveOwnTypes types.new.items) }
    ensures alike { OnOk result (AreAlike types.new.items (types.old.items ++ group.now ∷ [])) }
    ensures refusal { OnlyNoMemory result }
{
    if let Some(place) = place_of(types.as_slice(), &group.payload_type) {
        types[place]
            .entries
            .extend_from_slice(group.entries.as_slice())?;
        return Ok(());
    }
    let entries = Vec::from_slice(alloc, group.entries.as_slice())?;
    let payload_type = group.payload_type.copy()?;
    types.push(TypeEntries {
        payload_type,
        entries,
    })?;
    Ok(())
}

/// Adds the windows of each type.
fn gather_all(
    alloc: Global,
    types: &mut Vec<TypeEntries>,
    windows: &[TypeEntries],
) -> Result<(), Refusal>
    requires own { HaveOwnTypes types.old.items }
    ensures own { OnOk result (HaveOwnTypes types.new.items) }
    ensures alike { OnOk result (AreAlike types.new.items (types.old.items ++ windows.now)) }
    ensures refusal { OnlyNoMemory result }
{
    let mut rest = windows;
    'rest: while let Some((group, more)) = rest.split_first() {
        gather(alloc, types, group)?;
        rest = more;
    }
    Ok(())
}

/// The windows of each type, to be shared by jobs.
fn share_each(alloc: Global, types: Vec<TypeEntries>) -> Result<Vec<Shared<TypeEntries>>, Refusal>
    ensures same { IfOk result (λ shared. shared.items ≡ types.items) }
    ensures refusal { OnlyNoMemory result }
{
    let mut shared = Vec::with_capacity(alloc, types.len())?;
    for group in types {
        shared.push(Shared::new(alloc, group)?)?;
    }
    Ok(shared)
}

/// The windows of both lists by type, each type once, to be shared by jobs: of each type those of the first list and then
/// those of the second. Cost: a copy of the windows, and for each type a look at those before it.
///
/// # Errors
///
/// `NoMemory` where there is no room for them.
pub fn shared_windows(
    alloc: Global,
    windows: &[TypeEntries],
    more: &[TypeEntries],
) -> Result<Vec<Shared<TypeEntries>>, Refusal>
    ensures gathered { IfOk result (λ shared. AreGathered shared.items (windows.now ++ more.now)) }
    ensures refusal { OnlyNoMemory result }
{
    let mut types = Vec::new(alloc);
    gather_all(alloc, &mut types, windows)?;
    gather_all(alloc, &mut types, more)?;
    let shared = share_each(alloc, types)?;
    Ok(shared)
}
