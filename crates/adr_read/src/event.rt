//! Events.
ghost use Rattle.std.specs.Prelude.{◌≡◌, ◌++◌, codes, ℤ, Option, None, List, [], option_map, pos, unwrap_or};
ghost use Rattle.serde_json.specs.Data.{Data, null};
ghost use Rattle.adr_refusal.specs.Faults.{Gives};
ghost use Rattle.adr_refusal.specs.declared.refusal.Refusal.{Refusal};
ghost use Rattle.adr_read.specs.Looking.{member_at};
ghost use Rattle.adr_read.specs.Members.{Holds};
ghost use Rattle.adr_read.specs.Sets.{required, optional, list_faults, list_in};
ghost use Rattle.adr_read.specs.Values.{text_faults, id_faults, text_in, priority_faults, priority_in, targets_faults, targets_in};
ghost use Rattle.adr_read.specs.Periods.{period_faults, period_in, interval_faults, interval_in};
ghost use Rattle.adr_read.specs.Objects.{event_faults, event_in};

use crate::members::Member;
use crate::name::MemberName;
use crate::object::{CommonMembers, Targets, check_line, common_members, targets_of};
use adr_object::{Event, Id, Interval, Period};
use adr_value::limits::MOST_INTERVALS;
use adr_value::{BoundedVec, Refusal, Text, both};
use std::alloc::Global;

pub(crate) type Intervals = BoundedVec<Interval, MOST_INTERVALS>;

/// The program, the name and the priority of an event.
pub(crate) type HeadMembers = ((Member<Id>, Member<Text>), Member<u32>);

/// The default period and the intervals of an event.
pub(crate) type TailMembers = (Member<Period>, Member<Intervals>);

pub(crate) type EventMembers = (CommonMembers, (HeadMembers, TailMembers));

/// The members of an event, none of which was met yet.
pub(crate) fn event_members() -> EventMembers
    ensures common { (result.0.0.0.name ≡ MemberName.ObjectType) × (result.0.0.1.name ≡ MemberName.Id) × (result.0.1.name ≡ MemberName.Targets) }
    ensures names { (result.1.0.0.0.name ≡ MemberName.ProgramId) × (result.1.0.0.1.name ≡ MemberName.EventName) × (result.1.0.1.name ≡ MemberName.Priority)
        × (result.1.1.0.name ≡ MemberName.IntervalPeriod) × (result.1.1.1.name ≡ MemberName.Intervals) }
    ensures common_values { (result.0.0.0.value ≡ None) × (result.0.0.1.value ≡ None) × (result.0.1.value ≡ None) }
    ensures values { (result.1.0.0.0.value ≡ None) × (result.1.0.0.1.value ≡ None) × (result.1.0.1.value ≡ None)
        × (result.1.1.0.value ≡ None) × (result.1.1.1.value ≡ None) }
{
    let program_id = Member::named(MemberName::ProgramId);
    let event_name = Member::named(MemberName::EventName);
    let head = (
        (program_id, event_name),
        Member::named(MemberName::Priority),
    );
    let interval_period = Member::named(MemberName::IntervalPeriod);
    let tail = (interval_period, Member::named(MemberName::Intervals));
    (common_members(), (head, tail))
}

/// The program, the name and the priority of an event, after the check of its line.
fn head_of(
    line: Result<(), Refusal>,
    members: HeadMembers,
) -> Result<((((), Id), Option<Text>), Option<u32>), Refusal>
    ensures { (fs : List Refusal) (p n r : Option Data) → Gives line fs tt → Holds id_faults text_in members.0.0.value p
        → Holds text_faults text_in members.0.1.value n → Holds priority_faults priority_in members.1.value r
        → Gives result (fs ++ required id_faults p ++ optional text_faults n ++ optional priority_faults r)
        (((tt, text_in (unwrap_or p null)), option_map text_in n), option_map priority_in r) }
{
    let ((program_id, event_name), priority) = members;
    let names = both(both(line, program_id.required()), event_name.optional());
    both(names, priority.optional())
}

/// The targets, the default period and the intervals of an event.
fn tail_of(
    alloc: Global,
    targets: Member<Targets>,
    members: TailMembers,
) -> Result<((Targets, Option<Period>), Intervals), Refusal>
    ensures { (moment : ℤ) (t p s : Option Data) → Holds targets_faults targets_in targets.value t
        → Holds period_faults (period_in moment) members.0.value p
        → Holds (list_faults MOST_INTERVALS interval_faults) (list_in (λ place. interval_in moment (pos place))) members.1.value s
        → Gives result (optional targets_faults t ++ optional period_faults p ++ required (list_faults MOST_INTERVALS interval_faults) s)
        ((unwrap_or (option_map targets_in t) [], option_map (period_in moment) p), list_in (λ place. interval_in moment (pos place)) (unwrap_or s null)) }
{
    let (period, intervals) = members;
    let targets = both(targets_of(alloc, targets), period.optional());
    both(targets, intervals.required())
}

/// The event that these members are.
#[tactic(auto, unfolding(crate::specs::Objects::event_faults_by, crate::specs::Objects::event_in))]
pub(crate) fn event(alloc: Global, id: &Id, members: EventMembers) -> Result<Event, Refusal>
    ensures { (moment : ℤ) (d : Data) → Holds text_faults text_in members.0.0.0.value (member_at (codes "objectType") d)
        → Holds text_faults text_in members.0.0.1.value (member_at (codes "id") d)
        → Holds targets_faults targets_in members.0.1.value (member_at (codes "targets") d)
        → Holds id_faults text_in members.1.0.0.0.value (member_at (codes "programID") d)
        → Holds text_faults text_in members.1.0.0.1.value (member_at (codes "eventName") d)
        → Holds priority_faults priority_in members.1.0.1.value (member_at (codes "priority") d)
        → Holds period_faults (period_in moment) members.1.1.0.value (member_at (codes "intervalPeriod") d)
        → Holds (list_faults MOST_INTERVALS interval_faults) (list_in (λ place. interval_in moment (pos place))) members.1.1.1.value (member_at (codes "intervals") d)
        → Gives result (event_faults id.now d) (event_in moment id.now d) }
{
    let (((body_kind, body_id), targets), (head, tail)) = members;
    let line = check_line(id, "EVENT", body_kind, body_id);
    let head = head_of(line, head);
    let tail = tail_of(alloc, targets, tail);
    let ((((_, program_id), event_name), priority), ((targets, interval_period), intervals)) = both(
        head, tail,
    )?;
    Ok(Event {
        id: id.copy()?,
        program_id,
        event_name,
        priority,
        targets,
        interval_period,
        intervals,
    })
}
