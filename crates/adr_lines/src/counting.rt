//! How many entries groups have under a type.
ghost use Rattle.std.specs.Prelude.{◌≡◌, length, IfSome};
ghost use Rattle.adr_lines.specs.Grouped.{entries_under};
ghost use Rattle.adr_lines.specs.Indexes.{own_entries, wanted_under};

use crate::TypeEntries;
use adr_value::PayloadType;

/// How many of the group's entries are under the type.
fn own_count(group: &TypeEntries, payload_type: &PayloadType) -> usize
    ensures { result ≡ length (own_entries group.now payload_type.now) }
{
    if group.payload_type.name() == payload_type.name() {
        group.entries.len()
    } else {
        0
    }
}

/// How many entries the groups have under the type, unless that is past all numbers.
fn count_under(groups: &[TypeEntries], payload_type: &PayloadType) -> Option<usize>
    ensures { IfSome result (λ count. count ≡ length (entries_under groups.now payload_type.now)) }
{
    let mut count: usize = 0;
    let mut rest = groups;
    'rest: while let Some((group, more)) = rest.split_first() {
        count = count.checked_add(own_count(group, payload_type))?;
        rest = more;
    }
    Some(count)
}

/// How many entries go and come under the type, unless that is past all numbers.
pub(crate) fn wanted(
    gone: &[TypeEntries],
    come: &[TypeEntries],
    payload_type: &PayloadType,
) -> Option<usize>
    ensures { IfSome result (λ count. count ≡ wanted_under gone.now come.now payload_type.now) }
{
    let leaving = count_under(gone, payload_type)?;
    let entering = count_under(come, payload_type)?;
    leaving.checked_add(entering)
}
