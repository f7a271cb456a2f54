//! The elements of a list, one after the other.
ghost use Rattle.std.specs.Prelude.{◌≡◌, ◌≤◌, ◌∷◌, ◌++◌, [], ℕ, ℤ, pos, List, length, MatchOption, None, Some, OnOk, IfOk, IfErr, IfSome, nat_lt, min, ◌+◌, if◌then◌else◌};
ghost use Rattle.json.specs.Json.{items, value, after_end_array};
ghost use Rattle.serde_json.specs.Data.{Data, array};
ghost use Rattle.serde_json.specs.Read.{of_items, converted};
ghost use Rattle.serde_json.specs.View.{items_of};
ghost use Rattle.adr_refusal.specs.Faults.{Gives};
ghost use Rattle.adr_read.specs.Listed.{AreOf};
ghost use Rattle.adr_read.specs.Sets.{list_faults, list_in};
ghost use Rattle.adr_read.specs.Tokens.{token_of, IsSound};

use crate::from_value::{Context, Read};
use crate::tokens::{Token, Tokens};
use adr_time::Moment;
use adr_value::{BoundedVec, Faults, Refusal};
use std::alloc::Global;

/// Where the element behind these stands, where none had a fault so far.
pub(crate) fn next_context<T: Read, const LIMIT: usize>(
    items: &BoundedVec<T, LIMIT>,
    moment: Moment,
) -> Context
    ensures { result ≡ record { moment = moment; place = pos (length items.now) } }
{
    Context {
        moment,
        place: items.len() as i64,
    }
}

/// Keeps a value, where there is a place for it.
fn keep<T: Read, const LIMIT: usize>(
    alloc: Global,
    items: &mut BoundedVec<T, LIMIT>,
    item: T,
) -> Result<(), Refusal>
    ensures items { OnOk result (items.new ≡ (if nat_lt (length items.old) LIMIT then items.old ++ item ∷ [] else items.old)) }
    ensures memory { IfErr result (λ f. f ≡ Refusal.NoMemory) }
{
    if items.len() < LIMIT {
        items.push(alloc, item)?;
    }
    Ok(())
}

/// How many elements of a list were read so far, and the least of their faults. Their values stand beside it.
#[derive(Drop)]
pub(crate) struct Elements<const LIMIT: usize> {
    faults: Faults,
    /// How many there were, up to the limit.
    count: usize,
}

impl<const LIMIT: usize> Elements<LIMIT> {
    /// None so far.
    pub(crate) fn none<T: Read>() -> Elements<LIMIT>
        ensures { (stands_for : ℕ → Data → T) → AreOf LIMIT T.faults stands_for [] result.count result.faults [] }
    {
        Elements {
            faults: Faults::new(),
            count: 0,
        }
    }

    /// Counts one more element, which is at fault above the limit.
    fn count_one(&mut self) -> Result<(), Refusal>
        ensures count { OnOk result (self.new.count ≡ (if nat_lt self.old.count LIMIT then self.old.count + 1 else self.old.count)) }
        ensures faults { OnOk result (self.new.faults ≡ (if nat_lt self.old.count LIMIT then self.old.faults else min self.old.faults 18)) }
        ensures memory { IfErr result (λ f. f ≡ Refusal.NoMemory) }
    {
        if self.count < LIMIT {
            self.count += 1;
            Ok(())
        } else {
            self.faults.note(Refusal::TooMany)
        }
    }

    /// Adds what the next element is read as, and its value to those so far.
    pub(crate) fn add<T: Read>(
        &mut self,
        alloc: Global,
        items: &mut BoundedVec<T, LIMIT>,
        element: Result<T, Refusal>,
    ) -> Result<(), Refusal>
        ensures added { OnOk result ((moment : ℤ) (ds : List Data) (d : Data)
            → AreOf LIMIT T.faults (λ n. T.stands_for (record { moment = moment; place = pos n }))
            items.old self.old.count self.old.faults ds
            → Gives element (T.faults d) (T.stands_for (record { moment = moment; place = pos (length items.old) }) d)
            → AreOf LIMIT T.faults (λ n. T.stands_for (record { moment = moment; place = pos n }))
            items.new self.new.count self.new.faults (ds ++ d ∷ [])) }
        ensures memory { IfErr result (λ f. f ≡ Refusal.NoMemory) }
    {
        self.count_one()?;
        match element {
            Ok(item) => keep(alloc, items, item),
            Err(refusal) => self.faults.note(refusal),
        }
    }

    /// The whole list of these values, with no room to spare, or its least fault.
    pub(crate) fn answer<T: Read>(
        self,
        items: BoundedVec<T, LIMIT>,
    ) -> Result<BoundedVec<T, LIMIT>, Refusal>
        ensures { (moment : ℤ) (ds : List Data)
            → AreOf LIMIT T.faults (λ n. T.stands_for (record { moment = moment; place = pos n })) items self.entry.count self.entry.faults ds
            → Gives result (list_faults LIMIT T.faults (array (items_of ds)))
            (list_in (λ n. T.stands_for (record { moment = moment; place = pos n })) (array (items_of ds))) }
    {
        let Elements { faults, .. } = self;
        let mut items = faults.answer(items)?;
        items.shrink_to_fit();
        Ok(items)
    }
}

/// The token that the next element begins with, or nothing at the list's end.
pub(crate) fn next_element<'a>(reader: &mut Tokens<'a>) -> Result<Option<Token<'a>>, Refusal>
    ensures found { IfOk result (λ r. MatchOption r (after_end_array reader.old ≡ Some reader.new)
        (λ t. (after_end_array reader.old ≡ None) × (reader.old ≡ token_of t ∷ reader.new))) }
    ensures sound { IfOk result (λ r. IfSome r IsSound) }
    ensures bad { IfErr result (λ f. (f ≡ Refusal.BadJson)
        × ((depth n : ℕ) → converted of_items (items (value depth) n reader.old) ≡ None)) }
{
    if reader.take_end_array() {
        return Ok(None);
    }
    match reader.next() {
        Some(token) => Ok(Some(token)),
        None => Err(Refusal::BadJson),
    }
}
