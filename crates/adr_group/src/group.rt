//! The timelines of resources to which the same events apply.
ghost use Rattle.std.specs.Prelude.{◌≡◌, ◌≢◌, ◌+◌, ◌++◌, ◌<◌, ◌≤◌, ℤ, List, [], None, drop, length, option_map, slice_get, IfOk, IfSome, if◌then◌else◌};
ghost use Rattle.std.specs.List.{AllZip};
ghost use Rattle.std.specs.Option.{option_copied, option_map_or};
ghost use Rattle.adr_refusal.specs.Answer.{OnlyNoMemory};
ghost use Rattle.adr_refusal.specs.Copy.{IsCopyOf};
ghost use Rattle.adr_value.specs.Payload.{name_of};
ghost use Rattle.adr_value.specs.declared.payload.PayloadType.{PayloadType as AnyType};
ghost use Rattle.adr_shared.specs.Map.{IsAscending};
ghost use Rattle.adr_model.specs.declared.entry.Tie.{Tie};
ghost use Rattle.adr_model.specs.declared.written.Written.{Written};
ghost use Rattle.adr_model.specs.Governor.{winner_at};
ghost use Rattle.adr_model.specs.Timeline.{shows, IsCanonical};
ghost use Rattle.adr_lines.specs.Grouped.{any_covers_at, entries_under, HaveOwnTypes};
ghost use Rattle.adr_lines.specs.Right.{written_in};
ghost use Rattle.adr_lines.specs.declared.indexes.Indexes.{Indexes as AllIndexes};
ghost use Rattle.adr_lines.specs.Exchange.{IsIndexOf};
ghost use Rattle.adr_lines.specs.Indexes.{under};
ghost use Rattle.adr_group.specs.Group.{shown_in, AgreeOutside, AllShow, AreWindowsOf, IsRightOf};
ghost use Rattle.adr_group.specs.Laid.{IsMet};
ghost use Rattle.adr_group.specs.Jobs.{tasks_for, IsTaskDone};
ghost use Rattle.adr_group.specs.Repair.{most_repaired};

use crate::exchange::held_of;
use crate::job::{Done, RepairJob};
use crate::repair::{repaired, together};
use crate::timelines::Timelines;
use crate::writes::Writes;
use adr_lines::{Indexes, TypeEntries};
use adr_rule::Meter;
use adr_shared::Shared;
use adr_timeline::{Ranks, Timeline};
use adr_value::{PayloadType, Refusal, TryClone};
use std::alloc::Global;
use std::marker::Model;

/// Resources to which the same events apply share these: the numbers of the writes of those events, and a timeline for
/// each payload type of which something governs at some instant. Copies share both.
pub struct Group {
    writes: Shared<Writes>,
    lines: Timelines,
}

// A function of its own, so that callers that let a value go need not look into it.
impl Drop for Group {
    fn drop(self) {
        let Group { writes, lines } = self;
        drop(writes);
        drop(lines);
    }
}

impl Model for Group {
    ghost use Rattle.adr_group.specs.Group.{Lines};

    ghost Value = { Lines };

    ghost view = { λ g. record { writes = g.writes; lines = g.lines } };
}

impl Group {
    /// The group of no events, which is right of any.
    ///
    /// # Errors
    ///
    /// `NoMemory` where there is no room for it.
    pub fn new(alloc: Global) -> Result<Group, Refusal>
        ensures empty { IsCopyOf result (record { writes = []; lines = [] }) }
        ensures right { IfOk result (λ group. (tie : Tie) (events : List Written) → IsRightOf tie events group) }
    {
        Ok(Group {
            writes: Shared::new(alloc, Writes::new(alloc))?,
            lines: Timelines::new(),
        })
    }

    /// The numbers of the writes of the events that apply.
    pub fn writes(&self) -> &Writes
        ensures { result.now ≡ self.now.writes }
    {
        self.writes.get()
    }

    /// The timeline of the payload type, which is not empty; None where nothing of the type governs at any instant.
    /// Cost: for n types about log n look-ups by place.
    pub fn timeline(&self, payload_type: &PayloadType) -> Option<&Timeline>
        ensures shows { (t : ℤ) → option_map_or (λ l. shows l t) (option_copied result) None ≡ shown_in self.now.lines payload_type.now t }
        ensures canonical { IfSome result (λ l. IsCanonical l.now) }
        ensures lasts { IfSome result (λ l. l.now ≢ []) }
    {
        self.lines.timeline(payload_type)
    }

    /// How many types there are of which something governs at some instant.
    pub fn types(&self) -> usize
        ensures { result ≡ length self.now.lines }
    {
        self.lines.len()
    }

    /// The type and its timeline at a place, from 0, in the order of the types' names.
    pub fn line_at(&self, place: usize) -> Option<(&PayloadType, &Timeline)>
        ensures { option_map (λ l. (name_of l.0.now, l.1.now)) result ≡ slice_get self.now.lines place }
    {
        self.lines.at(place)
    }

    /// The laws of the lines: each shows something, so that a type is among them just where something of it governs at
    /// some instant, and the names of the types ascend, so that each is there once.
    pub fn line_laws(&self)
        ensures show { AllShow self.now.lines }
        ensures order { IsAscending self.now.lines }
    {
        self.lines.line_laws();
    }

    /// One more owner of the same writes and timelines, whatever their number.
    ///
    /// # Errors
    ///
    /// `NoMemory` only where the count of the owners is full.
    pub fn copy(&self) -> Result<Group, Refusal>
        ensures { IsCopyOf result self.now }
    {
        Ok(Group {
            writes: self.writes.copy()?,
            lines: self.lines.copy()?,
        })
    }

    /// The group of those writes, made of this one by repair inside the windows of both lists: if this one is right of
    /// the events that are indexed, and the windows hold the entries of each event on which the writes differ, then the
    /// new one is right of them too. So it is where events come and go, and the new ones are indexed: then the windows
    /// hold the entries of those that go and of those that come. Timelines of other types are shared.
    ///
    /// Ranks are compared by `before` alone, which counts each comparison. Cost: for each window a search of the index
    /// and a timeline of the entries of those writes that meet it, and for each type of a list one splice where its
    /// windows stand in order and apart, else one for each window.
    ///
    /// # Errors
    ///
    /// `NoMemory` where there is no room.
    pub fn repaired(
        &self,
        alloc: Global,
        indexes: &Indexes,
        windows: &[TypeEntries],
        more: &[TypeEntries],
        writes: Writes,
        meter: &mut Meter,
    ) -> Result<Group, Refusal>
        ensures writes { IfOk result (λ group. group.writes ≡ writes) }
        ensures lines { IfOk result (λ group. (k : AnyType) (t : ℤ) → shown_in group.lines k t ≡ (if any_covers_at (entries_under (windows.now ++ more.now) k) t then winner_at (written_in writes (under indexes.now k)) t else shown_in self.now.lines k t)) }
        ensures right { IfOk result (λ group. (tie : Tie) (events : List Written) → IsIndexOf tie events indexes.now → AreWindowsOf events self.now.writes writes (entries_under (windows.now ++ more.now)) → IsRightOf tie events self.now → IsRightOf tie events group) }
        ensures moves { IfOk result (λ group. (tie : Tie) (old new : List Written) → IsIndexOf tie new indexes.now → AgreeOutside old new self.now.writes writes (entries_under (windows.now ++ more.now)) → IsRightOf tie old self.now → IsRightOf tie new group) }
        ensures compared { meter.new ≤ meter.old + most_repaired (windows.now ++ more.now) writes indexes.now }
        ensures memory { OnlyNoMemory result }
    {
        let lines = repaired(alloc, &self.lines, indexes, windows, &writes, meter)?;
        let lines = repaired(alloc, &lines, indexes, more, &writes, meter)?;
        let writes = Shared::new(alloc, writes)?;
        Ok(Group { writes, lines })
    }

    /// The timeline of the payload type; an empty one where nothing of the type governs at any instant.
    fn line_of(&self, alloc: Global, payload_type: &PayloadType) -> Result<Timeline, Refusal>
        ensures shows { IfOk result (λ line. (t : ℤ) → shows line t ≡ shown_in self.now.lines payload_type.now t) }
        ensures memory { OnlyNoMemory result }
    {
        match self.lines.timeline(payload_type) {
            Some(line) => line.copy(),
            None => Ok(Timeline::new(alloc)),
        }
    }

    /// The job that makes the timeline of the windows' type for a group of those writes: what they show is built inside
    /// the windows. It shares what it is made of. Cost: a copy of the table of the timeline's chunks.
    ///
    /// # Errors
    ///
    /// `NoMemory` where there is no room.
    pub fn job(
        &self,
        alloc: Global,
        writes: &Shared<Writes>,
        windows: &Shared<TypeEntries>,
    ) -> Result<RepairJob, Refusal>
        ensures writes { IfOk result (λ job. job.writes ≡ writes.now) }
        ensures windows { IfOk result (λ job. job.windows ≡ windows.now) }
        ensures line { IfOk result (λ job. (t : ℤ) → shows job.line t ≡ shown_in self.now.lines windows.now.payload_type t) }
        ensures held { IfOk result (λ job. job.held ≡ None) }
        ensures memory { OnlyNoMemory result }
    {
        let line = self.line_of(alloc, &windows.get().payload_type)?;
        Ok(RepairJob {
            writes: writes.copy()?,
            windows: windows.copy()?,
            line,
            held: None,
        })
    }

    /// A job where one event goes and another comes: so many of the windows, the first ones, are entries of the event that
    /// goes, which has that number, and the others are those of the one that comes. These are laid over the timeline,
    /// and compete with what it shows by the ranks of its winners; then what the writes show is built in those windows in
    /// which the event that goes governs. Where the entries that come don't come in turn, or meet so many segments that
    /// laying them might compare more than building may, what the writes show is built in all windows.
    ///
    /// Cost: that of `Group::job`, that of `Timeline::met`, and a rank for each segment that is met.
    ///
    /// # Errors
    ///
    /// `NoMemory` where there is no room.
    pub fn exchange_job<R: Ranks>(
        &self,
        alloc: Global,
        indexes: &Indexes,
        writes: &Shared<Writes>,
        windows: &Shared<TypeEntries>,
        leaving: usize,
        gone: Option<u64>,
        ranks: &R,
    ) -> Result<RepairJob, Refusal>
        ensures writes { IfOk result (λ job. job.writes ≡ writes.now) }
        ensures windows { IfOk result (λ job. job.windows ≡ windows.now) }
        ensures line { IfOk result (λ job. (t : ℤ) → shows job.line t ≡ shown_in self.now.lines windows.now.payload_type t) }
        ensures leaving { IfOk result (λ job. IfSome job.held (λ h. h.leaving ≡ leaving)) }
        ensures gone { IfOk result (λ job. IfSome job.held (λ h. h.gone ≡ gone)) }
        ensures met { IfOk result (λ job. IfSome job.held (λ h. IsMet (R.rank ranks.now) writes.now (under indexes.now windows.now.payload_type) job.line (drop leaving windows.now.entries.items) h.shown.items)) }
        ensures memory { OnlyNoMemory result }
    {
        let line = self.line_of(alloc, &windows.get().payload_type)?;
        let held = held_of(
            alloc,
            indexes,
            &line,
            writes.get(),
            windows.get(),
            leaving,
            gone,
            ranks,
        )?;
        Ok(RepairJob {
            writes: writes.copy()?,
            windows: windows.copy()?,
            line,
            held,
        })
    }

    /// The group of those writes, put together of this one and of what was done for the types of the windows: if each
    /// timeline is that which the type's job makes of this group's, then the new group is right as `Group::repaired` makes
    /// it. It compares nothing. Cost: for each type one path of a tree.
    ///
    /// # Errors
    ///
    /// `NoMemory` where there is no room.
    pub fn with_done(
        &self,
        alloc: Global,
        writes: &Shared<Writes>,
        windows: &[Shared<TypeEntries>],
        done: &[Done],
    ) -> Result<Group, Refusal>
        ensures writes { IfOk result (λ group. group.writes ≡ writes.now) }
        ensures right { IfOk result (λ group. (indexes : AllIndexes) → HaveOwnTypes windows.now → AllZip (IsTaskDone indexes) (tasks_for self.now writes.now windows.now) done.now → (tie : Tie) (events : List Written) → IsIndexOf tie events indexes → AreWindowsOf events self.now.writes writes.now (entries_under windows.now) → IsRightOf tie events self.now → IsRightOf tie events group) }
        ensures memory { OnlyNoMemory result }
    {
        let lines = together(alloc, &self.lines, windows, done)?;
        let writes = writes.copy()?;
        Ok(Group { writes, lines })
    }
}

impl TryClone for Group {
    fn try_clone(&self) -> Result<Group, Refusal> {
        self.copy()
    }
}
