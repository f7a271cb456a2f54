//! Groups whose slots get what was made for them.
ghost use Rattle.std.specs.Prelude.{◌≡◌, ◌==◌, ℕ, IfOk, if◌then◌else◌};
ghost use Rattle.std.specs.Option.{option_or};
ghost use Rattle.adr_refusal.specs.Answer.{OnlyNoMemory};
ghost use Rattle.adr_schedule.specs.Moves.{is_among};
ghost use Rattle.adr_schedule.specs.Slots.{in_slot};

use adr_group::Group;
use adr_shared::SharedMap;
use adr_value::Refusal;
use std::alloc::Global;

/// The groups with what was made for the slot in it, if something was.
fn exchanged_in(
    alloc: Global,
    groups: &SharedMap<u64, Group>,
    slot: u64,
    made: &SharedMap<u64, Group>,
) -> Result<SharedMap<u64, Group>, Refusal>
    ensures groups { IfOk result (λ after. (s : ℕ) → in_slot after s ≡ (if slot == s then option_or (in_slot made.now s) (in_slot groups.now s) else in_slot groups.now s)) }
    ensures refusal { OnlyNoMemory result }
{
    match made.get(&slot) {
        Some(group) => {
            let after = groups.put(alloc, slot, group.copy()?)?;
            Ok(after)
        }
        None => groups.copy(),
    }
}

/// The groups with what was made for these slots in them.
pub(crate) fn exchanged(
    alloc: Global,
    groups: &SharedMap<u64, Group>,
    slots: &[u64],
    made: &SharedMap<u64, Group>,
) -> Result<SharedMap<u64, Group>, Refusal>
    ensures groups { IfOk result (λ after. (s : ℕ) → in_slot after s ≡ (if is_among slots.now s then option_or (in_slot made.now s) (in_slot groups.now s) else in_slot groups.now s)) }
    ensures refusal { OnlyNoMemory result }
{
    let mut after = groups.copy()?;
    let mut rest = slots;
    'rest: while let Some((slot, more)) = rest.split_first() {
        after = exchanged_in(alloc, &after, *slot, made)?;
        rest = more;
    }
    Ok(after)
}
