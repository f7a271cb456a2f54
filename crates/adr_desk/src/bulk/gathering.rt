//! The entries of the events of some writes.
ghost use Rattle.std.specs.Prelude.{◌≡◌, ◌++◌, [], map, position, IfOk, OnOk};
ghost use Rattle.std.specs.List.Sorted.{IsStrictlyIncreasing};
ghost use Rattle.adr_refusal.specs.Answer.{OnlyNoMemory};
ghost use Rattle.adr_value.specs.Same.{same_type};
ghost use Rattle.adr_value.specs.declared.payload.PayloadType.{PayloadType as AnyType};
ghost use Rattle.adr_model.specs.Rank.{ranked};
ghost use Rattle.adr_index.specs.Index.{AreNew};
ghost use Rattle.adr_lines.specs.Grouped.{entries_under, HaveOwnTypes};
ghost use Rattle.adr_lines.specs.Right.{all_of, HaveSame};
ghost use Rattle.adr_lines.specs.declared.indexes.Indexes.{Indexes as AnyIndexes};
ghost use Rattle.adr_lines.specs.Exchange.{IsIndexOf};
ghost use Rattle.adr_lines.specs.Indexes.{own_entries, under};
ghost use Rattle.adr_group.specs.Group.{AreWindowsOf};
ghost use Rattle.adr_desk.specs.Bulk.{chosen, numbered};

use adr_book::Book;
use adr_group::Writes;
use adr_lines::{Indexes, TypeEntries, event_entries, filling_laws};
use adr_model::Tie;
use adr_object::Kind;
use adr_value::{PayloadType, Refusal};
use std::alloc::Global;

/// Where the entries of the type stand.
fn place_of(types: &[TypeEntries], payload_type: &PayloadType) -> Option<usize>
    ensures { result ≡ position (λ g. same_type g.payload_type payload_type.now) types.now }
{
    types
        .iter()
        .position(|own| own.payload_type.name() == payload_type.name())
}

/// Adds the entries of the group, behind those of the same type where there are such.
fn add_group(types: &mut Vec<TypeEntries>, mut group: TypeEntries) -> Result<(), Refusal>
    requires { HaveOwnTypes types.old.items }
    ensures entries { OnOk result ((k : AnyType) → entries_under types.new.items k ≡ entries_under types.old.items k ++ own_entries group k) }
    ensures types { OnOk result (HaveOwnTypes types.new.items) }
    ensures refusal { OnlyNoMemory result }
{
    if let Some(place) = place_of(types.as_slice(), &group.payload_type) {
        types[place].entries.append(&mut group.entries)?;
        return Ok(());
    }
    types.push(group)?;
    Ok(())
}

/// Adds the entries of each group.
fn add_groups(types: &mut Vec<TypeEntries>, groups: Vec<TypeEntries>) -> Result<(), Refusal>
    requires { HaveOwnTypes types.old.items }
    ensures entries { OnOk result ((k : AnyType) → entries_under types.new.items k ≡ entries_under types.old.items k ++ entries_under groups.items k) }
    ensures types { OnOk result (HaveOwnTypes types.new.items) }
    ensures refusal { OnlyNoMemory result }
{
    for group in groups {
        add_group(types, group)?;
    }
    Ok(())
}

/// Adds the entries of the event of that number, where there is one.
fn add_event(
    alloc: Global,
    tie: Tie,
    book: &Book,
    number: u64,
    types: &mut Vec<TypeEntries>,
) -> Result<(), Refusal>
    requires { HaveOwnTypes types.old.items }
    ensures entries { OnOk result ((k : AnyType) → entries_under types.new.items k ≡ entries_under types.old.items k ++ map (ranked tie) (all_of (numbered book.now.objects.events number) k)) }
    ensures types { OnOk result (HaveOwnTypes types.new.items) }
    ensures refusal { OnlyNoMemory result }
{
    let Some(event) = book.event_by(number) else {
        return Ok(());
    };
    let groups = event_entries(alloc, tie, event, number)?;
    add_groups(types, groups)?;
    Ok(())
}

/// The entries of the events of the numbers, each payload type once.
pub(crate) fn gather(
    alloc: Global,
    tie: Tie,
    book: &Book,
    numbers: &[u64],
) -> Result<Vec<TypeEntries>, Refusal>
    requires order { IsStrictlyIncreasing numbers.now }
    ensures types { IfOk result (λ types. HaveOwnTypes types.items) }
    ensures fresh { IfOk result (λ types. (k : AnyType) → AreNew (entries_under types.items k) []) }
    ensures indexed { IfOk result (λ types. (indexes : AnyIndexes) → ((k : AnyType) → HaveSame (under indexes k) (entries_under types.items k)) → IsIndexOf tie (chosen book.now.objects.events numbers.now) indexes) }
    ensures windows { IfOk result (λ types. AreWindowsOf book.now.objects.events [] numbers.now (entries_under types.items)) }
    ensures refusal { OnlyNoMemory result }
{
    book.book_laws();
    filling_laws();
    let mut types = Vec::new(alloc);
    let mut rest = numbers;
    'rest: while let Some((number, more)) = rest.split_first() {
        add_event(alloc, tie, book, *number, &mut types)?;
        rest = more;
    }
    Ok(types)
}

/// The numbers of the writes of all events, in order of the events.
fn all_numbers(alloc: Global, book: &Book) -> Result<Vec<u64>, Refusal>
    ensures ok { IfOk result (λ numbers. numbers.items ≡ map (λ w. w.written) book.now.objects.events) }
    ensures refusal { OnlyNoMemory result }
{
    let mut numbers = Vec::new(alloc);
    for place in 0..book.count(Kind::Event) {
        let Some(number) = book.written_at(place) else {
            unreachable!();
        };
        numbers.push(number)?;
    }
    Ok(numbers)
}

/// The entries of all events of the book, by payload type. `NoMemory` where there is no room. Cost: each event is laid
/// out once, its types are looked for among those so far, and the index of each type is filled at once.
pub(crate) fn index_all(alloc: Global, tie: Tie, book: &Book) -> Result<Indexes, Refusal>
    ensures indexed { IfOk result (IsIndexOf tie book.now.objects.events) }
    ensures refusal { OnlyNoMemory result }
{
    let numbers = all_numbers(alloc, book)?;
    let writes = Writes::of(numbers);
    let types = gather(alloc, tie, book, writes.numbers())?;
    let indexes = Indexes::of(alloc, types)?;
    Ok(indexes)
}
