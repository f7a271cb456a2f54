//! What is to be made of the groups of some places, before any place moves.
ghost use Rattle.std.specs.Prelude.{◌≡◌, ◌≤◌, ◌+◌, ◌++◌, ◌∷◌, ℕ, List, true, false, Some, None, slice_get, sum_by, IfOk, IfSome, OnOk, MatchOption};
ghost use Rattle.std.specs.Bool.{MatchBool};
ghost use Rattle.std.specs.Option.{option_copied, option_map_or};
ghost use Rattle.adr_refusal.specs.Answer.{OnlyNoMemory};
ghost use Rattle.adr_model.specs.Lists.{In};
ghost use Rattle.adr_lines.specs.declared.indexes.Indexes.{Indexes as AllIndexes};
ghost use Rattle.adr_group.specs.Jobs.{AreGathered};
ghost use Rattle.adr_schedule.specs.declared.draft.Draft.{Draft as AnyDraft};
ghost use Rattle.adr_schedule.specs.Draft.{most_drafted, AreDraftsIn, AreDraftsOf, AreSeen, AreWindowsFor, IsDraftOf, IsSame, IsSeen};
ghost use Rattle.adr_schedule.specs.Moves.{asked_at, is_among};
ghost use Rattle.adr_schedule.specs.Shift.{kept_side, most_shifted, number_in, sides_for, AreTwo};
ghost use Rattle.adr_schedule.specs.Slots.{in_slot, HasSlot};
ghost use Rattle.adr_schedule.specs.Tally.{AreAllOf, HasSeen, IsTallied};

use crate::change::{Change, Side};
use crate::tally::SlotTally;
use adr_group::{Group, Writes, shared_windows};
use adr_lines::TypeEntries;
use adr_seats::Seats;
use adr_shared::{Shared, SharedMap};
use adr_value::Refusal;
use std::alloc::Global;

/// Windows of each type, which drafts and jobs share.
type SharedWindows = Shared<Vec<Shared<TypeEntries>>>;

/// What is to be made of the group in a slot: its writes after the change, and the windows of each type in which its
/// timeline is to be repaired.
#[derive(Drop)]
pub(crate) struct Draft {
    pub(crate) slot: u64,
    pub(crate) group: Group,
    pub(crate) writes: Shared<Writes>,
    pub(crate) windows: SharedWindows,
}

/// The windows of the event that goes, of the one that comes, and of both: each as soon as a group asks for them.
#[derive(Drop)]
struct Windows {
    gone: Option<SharedWindows>,
    come: Option<SharedWindows>,
    both: Option<SharedWindows>,
}

/// The event that goes, where it is one of the writes.
pub(crate) fn leaving<'a>(writes: &Writes, side: &'a Option<Side>) -> Option<&'a Side>
    ensures { option_copied result ≡ kept_side true writes.now side.now }
{
    match side {
        Some(side) if writes.has(side.written) => Some(side),
        _ => None,
    }
}

/// The event that comes, where it is not yet one of the writes.
pub(crate) fn joining<'a>(writes: &Writes, side: &'a Option<Side>) -> Option<&'a Side>
    ensures { option_copied result ≡ kept_side false writes.now side.now }
{
    match side {
        Some(side) if !writes.has(side.written) => Some(side),
        _ => None,
    }
}

pub(crate) fn number(side: Option<&Side>) -> Option<u64>
    ensures { result ≡ number_in (option_copied side.entry) }
{
    match side {
        Some(side) => Some(side.written),
        None => None,
    }
}

/// The windows of both lists, shared.
fn shared_list(
    alloc: Global,
    windows: &[TypeEntries],
    more: &[TypeEntries],
) -> Result<SharedWindows, Refusal>
    ensures alike { IfOk result (λ shared. AreGathered shared.items (windows.now ++ more.now)) }
    ensures refusal { OnlyNoMemory result }
{
    let windows = shared_windows(alloc, windows, more)?;
    let shared = Shared::new(alloc, windows)?;
    Ok(shared)
}

/// The windows of both lists, made where they are not known yet.
fn known_list(
    alloc: Global,
    known: &mut Option<SharedWindows>,
    windows: &[TypeEntries],
    more: &[TypeEntries],
) -> Result<SharedWindows, Refusal>
    requires known { IfSome known.old (λ w. AreGathered w.items (windows.now ++ more.now)) }
    ensures known { IfSome known.new (λ w. AreGathered w.items (windows.now ++ more.now)) }
    ensures alike { IfOk result (λ w. AreGathered w.items (windows.now ++ more.now)) }
    ensures refusal { OnlyNoMemory result }
{
    if let Some(known) = known {
        return known.copy();
    }
    let made = shared_list(alloc, windows, more)?;
    *known = Some(made.copy()?);
    Ok(made)
}

impl Windows {
    /// Nothing was asked for yet.
    fn none() -> Windows
        ensures gone { result.gone ≡ None }
        ensures come { result.come ≡ None }
        ensures both { result.both ≡ None }
    {
        Windows {
            gone: None,
            come: None,
            both: None,
        }
    }

    /// The windows of the sides that make a difference to a group of those writes, if one does. `NoMemory` where there is
    /// no room for them. Cost: a copy of the entries, where no group before asked for the same.
    fn of(
        &mut self,
        alloc: Global,
        change: &Change,
        writes: &Writes,
    ) -> Result<Option<SharedWindows>, Refusal>
        requires { AreWindowsFor change.now self.old }
        ensures kept { OnOk result (AreWindowsFor change.now self.new) }
        ensures windows { IfOk result (λ found. MatchOption found ((kept_side true writes.now change.now.gone ≡ None) × (kept_side false writes.now change.now.come ≡ None)) (λ w. AreGathered w.items (sides_for change.now writes.now))) }
        ensures refusal { OnlyNoMemory result }
    {
        let gone = leaving(writes, &change.gone);
        let come = joining(writes, &change.come);
        let windows = match (gone, come) {
            (Some(gone), Some(come)) => {
                let (gone, come) = (gone.entries.as_slice(), come.entries.as_slice());
                known_list(alloc, &mut self.both, gone, come)?
            }
            (Some(gone), None) => {
                known_list(alloc, &mut self.gone, gone.entries.as_slice(), &[])?
            }
            (None, Some(come)) => {
                known_list(alloc, &mut self.come, &[], come.entries.as_slice())?
            }
            (None, None) => return Ok(None),
        };
        Ok(Some(windows))
    }
}

/// The draft of the group in the slot; None where the change makes no difference to it.
fn draft_of(
    alloc: Global,
    slot: u64,
    group: &Group,
    change: &Change,
    windows: &mut Windows,
) -> Result<Option<Draft>, Refusal>
    requires { AreWindowsFor change.now windows.old }
    ensures kept { OnOk result (AreWindowsFor change.now windows.new) }
    ensures draft { IfOk result (λ made. MatchOption made (IsSame change.now group.now) (λ d. (d.slot ≡ slot) × IsDraftOf change.now group.now d)) }
    ensures refusal { OnlyNoMemory result }
{
    let Some(windows) = windows.of(alloc, change, group.writes())? else {
        return Ok(None);
    };
    let gone = number(leaving(group.writes(), &change.gone));
    let come = number(joining(group.writes(), &change.come));
    let writes = group.writes().changed(gone, come)?;
    Ok(Some(Draft {
        slot,
        group: group.copy()?,
        writes: Shared::new(alloc, writes)?,
        windows,
    }))
}

/// The draft of the group in the slot, for it to have those writes: it is repaired inside these windows. `NoMemory` where
/// there is no room for it. Cost: a copy of the writes, and one of the windows.
pub(crate) fn draft_with(
    alloc: Global,
    slot: u64,
    group: &Group,
    writes: &Writes,
    windows: &[TypeEntries],
) -> Result<Draft, Refusal>
    ensures group { IfOk result (λ draft. draft.group ≡ group.now) }
    ensures writes { IfOk result (λ draft. draft.writes ≡ writes.now) }
    ensures windows { IfOk result (λ draft. AreGathered draft.windows.items windows.now) }
    ensures refusal { OnlyNoMemory result }
{
    let windows = shared_list(alloc, &[], windows)?;
    let writes = Shared::new(alloc, writes.copy()?)?;
    Ok(Draft {
        slot,
        group: group.copy()?,
        writes,
        windows,
    })
}

/// The drafts of the groups of some places, each group's once, and the slots of those places, where they are all that have
/// one of them.
#[derive(Drop)]
pub(crate) struct Drafted {
    pub(crate) list: Vec<Draft>,
    pub(crate) slots: Option<Vec<u64>>,
}

/// The drafts of some slots, those slots, each under its own number, and counted, that of the last place, and the windows
/// that were asked for.
#[derive(Drop)]
struct Drafts {
    list: Vec<Draft>,
    seen: SharedMap<u64, u64>,
    last: Option<u64>,
    tally: SlotTally,
    windows: Windows,
}

/// Adds the draft of the slot, if its group is to change.
fn add(
    alloc: Global,
    groups: &SharedMap<u64, Group>,
    slot: u64,
    change: &Change,
    windows: &mut Windows,
    list: &mut Vec<Draft>,
) -> Result<(), Refusal>
    requires windows { AreWindowsFor change.now windows.old }
    requires two { AreTwo change.now }
    requires drafts { AreDraftsIn change.now groups.now list.old.items }
    ensures windows { OnOk result (AreWindowsFor change.now windows.new) }
    ensures drafts { OnOk result (AreDraftsIn change.now groups.now list.new.items) }
    ensures own { OnOk result (AreDraftsOf change.now list.old.items → AreDraftsOf change.now list.new.items) }
    ensures grows { OnOk result ((d : AnyDraft) → In d list.old.items → In d list.new.items) }
    ensures seen { OnOk result (IsSeen change.now groups.now list.new.items slot) }
    ensures least { OnOk result ((indexes : AllIndexes) → most_drafted indexes list.new.items ≤ most_drafted indexes list.old.items + option_map_or (most_shifted change.now indexes) (in_slot groups.now slot) 0) }
    ensures refusal { OnlyNoMemory result }
{
    let Some(group) = groups.get(&slot) else {
        return Ok(());
    };
    if let Some(draft) = draft_of(alloc, slot, group, change, windows)? {
        list.push(draft)?;
    }
    Ok(())
}

/// Whether the slot was looked at: that of the place before mostly is the same.
fn is_seen(drafts: &Drafts, slot: u64) -> bool
    requires { IfSome drafts.now.last (HasSlot drafts.now.seen) }
    ensures { MatchBool result (HasSlot drafts.now.seen slot) (in_slot drafts.now.seen slot ≡ None) }
{
    if drafts.last == Some(slot) {
        return true;
    }
    drafts.seen.get(&slot).is_some()
}

/// Adds the draft of the place's slot, unless that was looked at.
fn add_place(
    alloc: Global,
    seats: &Seats,
    groups: &SharedMap<u64, Group>,
    place: usize,
    change: &Change,
    drafts: &mut Drafts,
) -> Result<(), Refusal>
    requires windows { AreWindowsFor change.now drafts.old.windows }
    requires two { AreTwo change.now }
    requires drafts { AreDraftsIn change.now groups.now drafts.old.list.items }
    requires known { AreSeen change.now groups.now drafts.old.list.items drafts.old.seen }
    requires last { IfSome drafts.old.last (HasSlot drafts.old.seen) }
    ensures last { OnOk result (IfSome drafts.new.last (HasSlot drafts.new.seen)) }
    ensures windows { OnOk result (AreWindowsFor change.now drafts.new.windows) }
    ensures drafts { OnOk result (AreDraftsIn change.now groups.now drafts.new.list.items) }
    ensures own { OnOk result (AreDraftsOf change.now drafts.old.list.items → AreDraftsOf change.now drafts.new.list.items) }
    ensures known { OnOk result (AreSeen change.now groups.now drafts.new.list.items drafts.new.seen) }
    ensures grows { OnOk result ((d : AnyDraft) → In d drafts.old.list.items → In d drafts.new.list.items) }
    ensures seen { OnOk result ((slot : ℕ) → slice_get seats.now place ≡ Some slot → IsSeen change.now groups.now drafts.new.list.items slot) }
    ensures least { OnOk result ((indexes : AllIndexes) → most_drafted indexes drafts.new.list.items ≤ most_drafted indexes drafts.old.list.items + asked_at (most_shifted change.now indexes) seats.now groups.now place) }
    ensures tally { OnOk result ((places more : List ℕ) → HasSeen drafts.old.seen drafts.old.tally → IsTallied places (place ∷ more) seats.now drafts.old.tally → IsTallied places more seats.now drafts.new.tally) }
    ensures slots { OnOk result (HasSeen drafts.old.seen drafts.old.tally → HasSeen drafts.new.seen drafts.new.tally) }
    ensures refusal { OnlyNoMemory result }
{
    let Some(slot) = seats.slot(place) else {
        drafts.tally.left = None;
        return Ok(());
    };
    if is_seen(drafts, slot) {
        drafts.last = Some(slot);
        return Ok(());
    }
    let Drafts { list, windows, .. } = drafts;
    add(alloc, groups, slot, change, windows, list)?;
    drafts.seen = drafts.seen.put(alloc, slot, slot)?;
    drafts.last = Some(slot);
    drafts.tally.add(seats, slot)?;
    Ok(())
}

/// The drafts of the groups of the places, each group's once, in the order in which the places come to them. `NoMemory`
/// where there is no room for them.
pub(crate) fn drafts_of(
    alloc: Global,
    seats: &Seats,
    groups: &SharedMap<u64, Group>,
    places: &[usize],
    change: &Change,
) -> Result<Drafted, Refusal>
    requires two { AreTwo change.now }
    ensures drafts { IfOk result (λ drafted. AreDraftsIn change.now groups.now drafted.list.items) }
    ensures own { IfOk result (λ drafted. AreDraftsOf change.now drafted.list.items) }
    ensures seen { IfOk result (λ drafted. (place slot : ℕ) → is_among places.now place ≡ true → slice_get seats.now place ≡ Some slot → IsSeen change.now groups.now drafted.list.items slot) }
    ensures least { IfOk result (λ drafted. (indexes : AllIndexes) → most_drafted indexes drafted.list.items ≤ sum_by (asked_at (most_shifted change.now indexes) seats.now groups.now) places.now) }
    ensures all { IfOk result (λ drafted. IfSome drafted.slots (λ slots. AreAllOf seats.now places.now slots.items)) }
    ensures refusal { OnlyNoMemory result }
{
    let mut drafts = Drafts {
        list: Vec::new(alloc),
        seen: SharedMap::new(),
        last: None,
        tally: SlotTally::new(alloc, places.len()),
        windows: Windows::none(),
    };
    let mut rest = places;
    'rest: while let Some((place, more)) = rest.split_first() {
        add_place(alloc, seats, groups, *place, change, &mut drafts)?;
        rest = more;
    }
    let Drafts { list, tally, .. } = drafts;
    let slots = tally.all(seats, places);
    Ok(Drafted { list, slots })
}
