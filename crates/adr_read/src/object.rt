//! Programs, vens and resources, and what all objects share.
ghost use Rattle.std.specs.Prelude.{◌≡◌, ◌++◌, codes, Option, None, [], option_map, unwrap_or};
ghost use Rattle.serde_json.specs.Data.{Data, null};
ghost use Rattle.adr_refusal.specs.Faults.{Gives};
ghost use Rattle.adr_refusal.specs.declared.refusal.Refusal.TheVariants.{WrongKind, IdMismatch};
ghost use Rattle.adr_read.specs.Looking.{member_at};
ghost use Rattle.adr_read.specs.Members.{Holds};
ghost use Rattle.adr_read.specs.Sets.{required, optional};
ghost use Rattle.adr_read.specs.Values.{text_faults, name_faults, id_faults, equal_faults, text_in, targets_faults, targets_in};
ghost use Rattle.adr_read.specs.Objects.{program_faults, program_in, ven_faults, ven_in, resource_faults, resource_in};

use crate::members::Member;
use crate::name::MemberName;
use adr_object::{Id, Program, Resource, Target, Ven};
use adr_value::{BoundedVec, Name, Refusal, Text, both};
use std::alloc::Global;

pub(crate) type Targets = BoundedVec<Target, 64>;

/// The kind, the id and the targets.
pub(crate) type CommonMembers = ((Member<Text>, Member<Text>), Member<Targets>);

/// None of them was met yet.
pub(crate) fn common_members() -> CommonMembers
    ensures names { (result.0.0.name ≡ MemberName.ObjectType) × (result.0.1.name ≡ MemberName.Id) × (result.1.name ≡ MemberName.Targets) }
    ensures values { (result.0.0.value ≡ None) × (result.0.1.value ≡ None) × (result.1.value ≡ None) }
{
    let kind = Member::named(MemberName::ObjectType);
    let id = Member::named(MemberName::Id);
    ((kind, id), Member::named(MemberName::Targets))
}

/// Whether a text is the wanted one where it is there.
fn check_equal(member: Member<Text>, wanted: &str, refusal: Refusal) -> Result<(), Refusal>
    ensures { (o : Option Data) → Holds text_faults text_in member.value o
        → Gives result (optional (equal_faults wanted.now refusal) o) tt }
{
    let Some(text) = member.optional()? else {
        return Ok(());
    };
    if text.as_str() == wanted {
        Ok(())
    } else {
        Err(refusal)
    }
}

/// The targets of an object, which may have none.
pub(crate) fn targets_of(alloc: Global, member: Member<Targets>) -> Result<Targets, Refusal>
    ensures { (o : Option Data) → Holds targets_faults targets_in member.value o
        → Gives result (optional targets_faults o) (unwrap_or (option_map targets_in o) []) }
{
    let targets = member.optional()?;
    Ok(targets.unwrap_or(BoundedVec::new(alloc)))
}

/// The kind and the id that a body may name, which have to be those of its line.
pub(crate) fn check_line(
    id: &Id,
    kind: &str,
    body_kind: Member<Text>,
    body_id: Member<Text>,
) -> Result<(), Refusal>
    ensures { (k i : Option Data) → Holds text_faults text_in body_kind.value k → Holds text_faults text_in body_id.value i
        → Gives result (optional (equal_faults kind.now WrongKind) k ++ optional (equal_faults id.now IdMismatch) i) tt }
{
    let kind = check_equal(body_kind, kind, Refusal::WrongKind);
    let id = check_equal(body_id, id.text(), Refusal::IdMismatch);
    both(kind, id)?;
    Ok(())
}

/// The members of a program or a ven.
pub(crate) type NamedMembers = (CommonMembers, Member<Name>);

/// The name and the targets of an object, and whether the body's kind and id are those of its line.
fn named_of(
    alloc: Global,
    id: &Id,
    kind: &str,
    members: NamedMembers,
) -> Result<(((), Name), Targets), Refusal>
    ensures { (k i t n : Option Data) → Holds text_faults text_in members.0.0.0.value k → Holds text_faults text_in members.0.0.1.value i
        → Holds targets_faults targets_in members.0.1.value t → Holds name_faults text_in members.1.value n
        → Gives result (optional (equal_faults kind.now WrongKind) k ++ optional (equal_faults id.now IdMismatch) i
        ++ required name_faults n ++ optional targets_faults t)
        ((tt, text_in (unwrap_or n null)), unwrap_or (option_map targets_in t) []) }
{
    let (((body_kind, body_id), targets), name) = members;
    let line = check_line(id, kind, body_kind, body_id);
    both(both(line, name.required()), targets_of(alloc, targets))
}

/// The program that these members are.
#[tactic(auto, unfolding(crate::specs::Objects::program_faults, crate::specs::Objects::program_in))]
pub(crate) fn program(alloc: Global, id: &Id, members: NamedMembers) -> Result<Program, Refusal>
    ensures { (d : Data) → Holds text_faults text_in members.0.0.0.value (member_at (codes "objectType") d)
        → Holds text_faults text_in members.0.0.1.value (member_at (codes "id") d)
        → Holds targets_faults targets_in members.0.1.value (member_at (codes "targets") d)
        → Holds name_faults text_in members.1.value (member_at (codes "programName") d)
        → Gives result (program_faults id.now d) (program_in id.now d) }
{
    let ((_, program_name), targets) = named_of(alloc, id, "PROGRAM", members)?;
    Ok(Program {
        id: id.copy()?,
        program_name,
        targets,
    })
}

/// The ven that these members are.
#[tactic(auto, unfolding(crate::specs::Objects::ven_faults, crate::specs::Objects::ven_in))]
pub(crate) fn ven(alloc: Global, id: &Id, members: NamedMembers) -> Result<Ven, Refusal>
    ensures { (d : Data) → Holds text_faults text_in members.0.0.0.value (member_at (codes "objectType") d)
        → Holds text_faults text_in members.0.0.1.value (member_at (codes "id") d)
        → Holds targets_faults targets_in members.0.1.value (member_at (codes "targets") d)
        → Holds name_faults text_in members.1.value (member_at (codes "venName") d)
        → Gives result (ven_faults id.now d) (ven_in id.now d) }
{
    let ((_, ven_name), targets) = named_of(alloc, id, "VEN", members)?;
    Ok(Ven {
        id: id.copy()?,
        ven_name,
        targets,
    })
}

/// The members of a resource: its name and its ven's id beside the common ones.
pub(crate) type ResourceMembers = (CommonMembers, (Member<Name>, Member<Id>));

/// The names and the targets of a resource, and whether the body's kind and id are those of its line.
fn resource_parts(
    alloc: Global,
    id: &Id,
    members: ResourceMembers,
) -> Result<((((), Name), Id), Targets), Refusal>
    ensures { (k i t n v : Option Data) → Holds text_faults text_in members.0.0.0.value k → Holds text_faults text_in members.0.0.1.value i
        → Holds targets_faults targets_in members.0.1.value t → Holds name_faults text_in members.1.0.value n → Holds id_faults text_in members.1.1.value v
        → Gives result (optional (equal_faults (codes "RESOURCE") WrongKind) k ++ optional (equal_faults id.now IdMismatch) i
        ++ required name_faults n ++ required id_faults v ++ optional targets_faults t)
        (((tt, text_in (unwrap_or n null)), text_in (unwrap_or v null)), unwrap_or (option_map targets_in t) []) }
{
    let (((body_kind, body_id), targets), (name, ven_id)) = members;
    let line = check_line(id, "RESOURCE", body_kind, body_id);
    let names = both(both(line, name.required()), ven_id.required());
    both(names, targets_of(alloc, targets))
}

/// The resource that these members are.
#[tactic(auto, unfolding(crate::specs::Objects::resource_faults, crate::specs::Objects::resource_in))]
pub(crate) fn resource(
    alloc: Global,
    id: &Id,
    members: ResourceMembers,
) -> Result<Resource, Refusal>
    ensures { (d : Data) → Holds text_faults text_in members.0.0.0.value (member_at (codes "objectType") d)
        → Holds text_faults text_in members.0.0.1.value (member_at (codes "id") d)
        → Holds targets_faults targets_in members.0.1.value (member_at (codes "targets") d)
        → Holds name_faults text_in members.1.0.value (member_at (codes "resourceName") d)
        → Holds id_faults text_in members.1.1.value (member_at (codes "venID") d)
        → Gives result (resource_faults id.now d) (resource_in id.now d) }
{
    let (((_, resource_name), ven_id), targets) = resource_parts(alloc, id, members)?;
    Ok(Resource {
        id: id.copy()?,
        resource_name,
        ven_id,
        targets,
    })
}
