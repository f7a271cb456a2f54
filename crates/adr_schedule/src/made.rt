//! The groups that are made of drafts.
ghost use Rattle.std.specs.Prelude.{◌≡◌, ◌≤◌, ◌<◌, ◌+◌, ◌∷◌, Some, [], flat_map, length, sum_by, IfOk};
ghost use Rattle.std.specs.List.{AllZip};
ghost use Rattle.std.specs.Option.{option_copied, option_map};
ghost use Rattle.adr_refusal.specs.Answer.{OnlyNoMemory};
ghost use Rattle.adr_value.specs.Same.{same_type};
ghost use Rattle.adr_shared.specs.Map.{put};
ghost use Rattle.adr_model.specs.Lists.{In};
ghost use Rattle.adr_lines.specs.Grouped.{entries_under, HaveOwnTypes};
ghost use Rattle.adr_lines.specs.declared.indexes.Indexes.{Indexes as AllIndexes};
ghost use Rattle.adr_group.specs.Jobs.{AreDone, IsCrew, IsJobOf, IsTaskDone};
ghost use Rattle.adr_group.specs.Repair.{most_repaired};
ghost use Rattle.adr_schedule.specs.declared.draft.Draft.{Draft as AnyDraft};
ghost use Rattle.adr_schedule.specs.Draft.{most_drafted, tasks_of, AreDraftsOf, AreMadeOf, IsDraftOf, IsMadeOf};
ghost use Rattle.adr_schedule.specs.Shift.{entries_in, IsLaidBy};

use crate::change::{Change, Side};
use crate::draft::{Draft, leaving, number};
use adr_group::{Done, Group, RepairJob};
use adr_lines::{Indexes, TypeEntries};
use adr_rule::Meter;
use adr_shared::{Shared, SharedMap};
use adr_timeline::Ranks;
use adr_value::{PayloadType, Refusal};
use std::alloc::Global;

/// Whether the entries are of the type.
fn is_of(entries: &TypeEntries, payload_type: &PayloadType) -> bool
    ensures { result ≡ same_type entries.now.payload_type payload_type.now }
{
    entries.payload_type.name() == payload_type.name()
}

/// How many entries there are under the type, where they are no more than so many.
fn count_under(types: &[TypeEntries], payload_type: &PayloadType, most: usize) -> usize
    ensures { length (entries_under types.now payload_type.now) ≤ most → result ≡ length (entries_under types.now payload_type.now) }
{
    let mut count: usize = 0;
    let mut rest = types;
    'rest: while let Some((entries, more)) = rest.split_first() {
        if is_of(entries, payload_type) {
            count = count.saturating_add(entries.entries.len());
        }
        rest = more;
    }
    count.min(most)
}

/// How many of the windows are entries of the event that goes: the first ones.
fn count_leaving(gone: Option<&Side>, windows: &TypeEntries) -> usize
    ensures { length (entries_under (entries_in (option_copied gone.entry)) windows.now.payload_type) ≤ length windows.now.entries.items → result ≡ length (entries_under (entries_in (option_copied gone.entry)) windows.now.payload_type) }
{
    match gone {
        Some(gone) => {
            let types = gone.entries.as_slice();
            count_under(types, &windows.payload_type, windows.entries.len())
        }
        None => 0,
    }
}

/// The job of one type of the draft, where there are ranks.
fn exchange_job<R: Ranks>(
    alloc: Global,
    indexes: &Indexes,
    draft: &Draft,
    windows: &Shared<TypeEntries>,
    change: &Change,
    ranks: &R,
) -> Result<RepairJob, Refusal>
    requires draft { IsDraftOf change.now draft.now.group draft.now }
    requires own { In windows.now draft.now.windows.items }
    ensures job { IfOk result (λ job. IsLaidBy (Some (R.rank ranks.now)) indexes.now change.now → IsJobOf indexes.now (record { group = draft.now.group; writes = draft.now.writes; windows = windows.now }) job) }
    ensures refusal { OnlyNoMemory result }
{
    let gone = leaving(draft.group.writes(), &change.gone);
    let first = count_leaving(gone, windows.get());
    draft.group.exchange_job(
        alloc,
        indexes,
        &draft.writes,
        windows,
        first,
        number(gone),
        ranks,
    )
}

/// The jobs of a draft that build what its writes show inside its windows.
fn built_jobs(alloc: Global, draft: &Draft) -> Result<Vec<RepairJob>, Refusal>
    ensures jobs { IfOk result (λ jobs. (indexes : AllIndexes) → AllZip (IsJobOf indexes) (tasks_of draft.now) jobs.items) }
    ensures refusal { OnlyNoMemory result }
{
    let mut jobs = Vec::new(alloc);
    let mut rest = draft.windows.get().as_slice();
    'rest: while let Some((windows, more)) = rest.split_first() {
        let job = draft.group.job(alloc, &draft.writes, windows)?;
        jobs.push(job)?;
        rest = more;
    }
    Ok(jobs)
}

/// The jobs of a draft that exchange events.
fn exchange_jobs<R: Ranks>(
    alloc: Global,
    indexes: &Indexes,
    draft: &Draft,
    change: &Change,
    ranks: &R,
) -> Result<Vec<RepairJob>, Refusal>
    requires draft { IsDraftOf change.now draft.now.group draft.now }
    ensures jobs { IfOk result (λ jobs. IsLaidBy (Some (R.rank ranks.now)) indexes.now change.now → AllZip (IsJobOf indexes.now) (tasks_of draft.now) jobs.items) }
    ensures refusal { OnlyNoMemory result }
{
    let mut jobs = Vec::new(alloc);
    let mut rest = draft.windows.get().as_slice();
    'rest: while let Some((windows, more)) = rest.split_first() {
        let job = exchange_job(alloc, indexes, draft, windows, change, ranks)?;
        jobs.push(job)?;
        rest = more;
    }
    Ok(jobs)
}

/// The jobs of a draft: they exchange events where there are ranks.
fn jobs_of<R: Ranks>(
    alloc: Global,
    indexes: &Indexes,
    draft: &Draft,
    change: &Change,
    ranks: Option<&R>,
) -> Result<Vec<RepairJob>, Refusal>
    requires draft { IsDraftOf change.now draft.now.group draft.now }
    ensures jobs { IfOk result (λ jobs. IsLaidBy (option_map R.rank (option_copied ranks.entry)) indexes.now change.now → AllZip (IsJobOf indexes.now) (tasks_of draft.now) jobs.items) }
    ensures refusal { OnlyNoMemory result }
{
    match ranks {
        Some(ranks) => exchange_jobs(alloc, indexes, draft, change, ranks),
        None => built_jobs(alloc, draft),
    }
}

/// The jobs of all drafts, in order.
fn all_jobs<R: Ranks>(
    alloc: Global,
    indexes: &Indexes,
    drafts: &[Draft],
    change: &Change,
    ranks: Option<&R>,
) -> Result<Vec<RepairJob>, Refusal>
    requires drafts { AreDraftsOf change.now drafts.now }
    ensures jobs { IfOk result (λ jobs. IsLaidBy (option_map R.rank (option_copied ranks.entry)) indexes.now change.now → AllZip (IsJobOf indexes.now) (flat_map tasks_of drafts.now) jobs.items) }
    ensures refusal { OnlyNoMemory result }
{
    let mut jobs = Vec::new(alloc);
    let mut rest = drafts;
    'rest: while let Some((draft, more)) = rest.split_first() {
        let mut own = jobs_of(alloc, indexes, draft, change, ranks)?;
        jobs.append(&mut own)?;
        rest = more;
    }
    Ok(jobs)
}

/// Counts what was compared for all.
fn count(meter: &mut Meter, done: &[Done])
    ensures { meter.new ≤ meter.old + sum_by (λ d. d.compared) done.now }
{
    let mut rest = done;
    'rest: while let Some((first, more)) = rest.split_first() {
        meter.add(first.compared);
        rest = more;
    }
}

/// Groups that were made, each in its slot.
pub(crate) struct MadeGroups {
    pub(crate) groups: SharedMap<u64, Group>,
}

// A function of its own, so that callers that let a value go need not look into it.
impl Drop for MadeGroups {
    fn drop(self) {
        let MadeGroups { groups } = self;
        drop(groups);
    }
}

impl MadeGroups {
    /// No group.
    pub(crate) fn new() -> MadeGroups
        ensures { result.groups ≡ [] }
    {
        MadeGroups {
            groups: SharedMap::new(),
        }
    }

    /// These groups with this one in the slot.
    pub(crate) fn with(&self, alloc: Global, slot: u64, group: Group) -> Result<MadeGroups, Refusal>
        ensures groups { IfOk result (λ made. made.groups ≡ put (slot ∷ []) group self.now.groups) }
        ensures refusal { OnlyNoMemory result }
    {
        let groups = self.groups.put(alloc, slot, group)?;
        Ok(MadeGroups { groups })
    }
}

/// The group of the draft, of what was done for it.
fn made_of(alloc: Global, draft: &Draft, done: &[Done]) -> Result<Group, Refusal>
    requires own { HaveOwnTypes draft.now.windows.items }
    ensures made { IfOk result (λ made. (indexes : AllIndexes) → AllZip (IsTaskDone indexes) (tasks_of draft.now) done.now → IsMadeOf indexes draft.now made) }
    ensures refusal { OnlyNoMemory result }
{
    let windows = draft.windows.get().as_slice();
    let made = draft.group.with_done(alloc, &draft.writes, windows, done)?;
    Ok(made)
}

/// The groups of the drafts, each in its slot, of what was done for them.
fn made_each(alloc: Global, drafts: &[Draft], done: &[Done]) -> Result<MadeGroups, Refusal>
    requires own { (d : AnyDraft) → In d drafts.now → HaveOwnTypes d.windows.items }
    ensures made { IfOk result (λ made. (indexes : AllIndexes) → AllZip (IsTaskDone indexes) (flat_map tasks_of drafts.now) done.now → AreMadeOf indexes drafts.now made.groups) }
    ensures refusal { OnlyNoMemory result }
{
    let mut made = MadeGroups::new();
    let mut left = done;
    let mut rest = drafts;
    'rest: while let Some((draft, more)) = rest.split_first() {
        let windows = draft.windows.get().as_slice();
        let jobs = windows.len();
        if left.len() < jobs {
            return Ok(made);
        }
        let (own, others) = left.split_at(jobs);
        let group = made_of(alloc, draft, own)?;
        made = made.with(alloc, draft.slot, group)?;
        left = others;
        rest = more;
    }
    Ok(made)
}

/// Has the crew do the jobs.
fn done_by<C: Fn(&Indexes, &[RepairJob]) -> Result<Vec<Done>, Refusal>>(
    indexes: &Indexes,
    crew: &C,
    jobs: &[RepairJob],
) -> Result<Vec<Done>, Refusal>
    requires crew { IsCrew (λ v. v.items) (C.pre crew.now) (C.post crew.now) }
    ensures done { IfOk result (λ done. AreDone indexes.now jobs.now done.items) }
    ensures refusal { OnlyNoMemory result }
{
    crew(indexes, jobs)
}

/// The group of one draft: the crew builds what its writes show inside its windows, one job for each payload type.
/// `NoMemory` where there is no room.
pub(crate) fn one_made_by<C: Fn(&Indexes, &[RepairJob]) -> Result<Vec<Done>, Refusal>>(
    alloc: Global,
    indexes: &Indexes,
    crew: &C,
    draft: &Draft,
    meter: &mut Meter,
) -> Result<Group, Refusal>
    requires own { HaveOwnTypes draft.now.windows.items }
    requires crew { IsCrew (λ v. v.items) (C.pre crew.now) (C.post crew.now) }
    ensures made { IfOk result (IsMadeOf indexes.now draft.now) }
    ensures compared { meter.new ≤ meter.old + most_repaired draft.now.windows.items draft.now.writes indexes.now }
    ensures refusal { OnlyNoMemory result }
{
    let jobs = built_jobs(alloc, draft)?;
    let done = done_by(indexes, crew, jobs.as_slice())?;
    count(meter, done.as_slice());
    let made = made_of(alloc, draft, done.as_slice())?;
    Ok(made)
}

/// The groups of all drafts of the change, each in its slot: the crew does their jobs, which exchange events where there
/// are ranks. `NoMemory` where there is no room.
pub(crate) fn made_by<C: Fn(&Indexes, &[RepairJob]) -> Result<Vec<Done>, Refusal>, R: Ranks>(
    alloc: Global,
    indexes: &Indexes,
    crew: &C,
    drafts: &[Draft],
    change: &Change,
    ranks: Option<&R>,
    meter: &mut Meter,
) -> Result<SharedMap<u64, Group>, Refusal>
    requires drafts { AreDraftsOf change.now drafts.now }
    requires laid { IsLaidBy (option_map R.rank (option_copied ranks)) indexes.now change.now }
    requires crew { IsCrew (λ v. v.items) (C.pre crew.now) (C.post crew.now) }
    ensures made { IfOk result (AreMadeOf indexes.now drafts.now) }
    ensures compared { meter.new ≤ meter.old + most_drafted indexes.now drafts.now }
    ensures refusal { OnlyNoMemory result }
{
    let jobs = all_jobs(alloc, indexes, drafts, change, ranks)?;
    let done = done_by(indexes, crew, jobs.as_slice())?;
    count(meter, done.as_slice());
    let made = made_each(alloc, drafts, done.as_slice())?;
    let groups = made.groups.copy()?;
    Ok(groups)
}
