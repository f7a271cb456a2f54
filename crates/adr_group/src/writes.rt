//! The numbers of the edits that wrote events.
ghost use Rattle.std.specs.Prelude.{◌≡◌, ◌==◌, ◌||◌, ◌↔◌, ℕ, [], true, filter, IsTrue, IfOk, OnOk};
ghost use Rattle.std.specs.List.Sorted.{IsStrictlyIncreasing};
ghost use Rattle.adr_refusal.specs.Answer.{OnlyNoMemory};
ghost use Rattle.adr_refusal.specs.Copy.{IsCopyOf};
ghost use Rattle.adr_lines.specs.Right.{has_number};
ghost use Rattle.adr_group.specs.Writes.{changed_number, is_number, stays};

use adr_index::Wanted;
use adr_value::Refusal;
use std::alloc::Global;
use std::marker::Model;

/// The numbers of the writes of the events that apply to some resources, ascending, each once.
pub struct Writes {
    numbers: Vec<u64>,
}

// A function of its own, so that callers that let a value go need not look into it.
impl Drop for Writes {
    fn drop(self) {
        let Writes { numbers } = self;
        drop(numbers);
    }
}

impl Model for Writes {
    ghost use Rattle.std.specs.Prelude.{ℕ, List};
    ghost use Rattle.std.specs.List.Sorted.{IsStrictlyIncreasing};

    ghost Value = { List ℕ };

    ghost view = { λ w. w.numbers.items };

    ghost invariant = { λ w. IsStrictlyIncreasing w.numbers.items };
}

impl Wanted for Writes {
    ghost use Rattle.adr_lines.specs.Right.{has_number};

    ghost is_wanted = { has_number };

    fn wants(&self, written: u64) -> bool {
        self.has(written)
    }
}

/// The numbers but for the one that goes, with room for one more.
fn staying(alloc: Global, numbers: &[u64], gone: Option<u64>) -> Result<Vec<u64>, Refusal>
    ensures ok { IfOk result (λ kept. kept.items ≡ filter (stays gone) numbers.now) }
    ensures memory { OnlyNoMemory result }
{
    let mut kept = Vec::with_capacity(alloc, numbers.len() + 1)?;
    let mut rest = numbers;
    'rest: while let Some((number, more)) = rest.split_first() {
        if gone != Some(*number) {
            kept.push(*number)?;
        }
        rest = more;
    }
    Ok(kept)
}

/// Puts the number that comes into its place, unless it is there or none comes.
fn put(numbers: &mut Vec<u64>, come: Option<u64>) -> Result<(), Refusal>
    requires { IsStrictlyIncreasing numbers.old.items }
    ensures order { OnOk result (IsStrictlyIncreasing numbers.new.items) }
    ensures has { OnOk result ((n : ℕ) → has_number numbers.new.items n ≡ (is_number come n || has_number numbers.old.items n)) }
    ensures memory { OnlyNoMemory result }
{
    let Some(number) = come else {
        return Ok(());
    };
    if let Err(place) = numbers.binary_search(&number) {
        numbers.insert(place, number)?;
    }
    Ok(())
}

/// Whether each of the numbers is above the one before it.
fn ascend(numbers: &[u64]) -> bool
    ensures { result ≡ true → IsStrictlyIncreasing numbers.now }
{
    numbers.is_sorted_by(|before, number| before < number)
}

impl Writes {
    /// No numbers. It takes no memory.
    pub fn new(alloc: Global) -> Writes
        ensures { result ≡ [] }
    {
        Writes {
            numbers: Vec::new(alloc),
        }
    }

    /// These numbers, in any order, each as often as it comes. Cost: that of a sort, or where they ascend a pass over
    /// them.
    pub fn of(numbers: Vec<u64>) -> Writes
        ensures { (n : ℕ) → has_number result n ≡ has_number numbers.items n }
    {
        if ascend(&numbers) {
            return Writes { numbers };
        }
        let mut numbers = numbers;
        numbers.sort_unstable();
        numbers.dedup();
        Writes { numbers }
    }

    /// Whether the number stands where it would if the numbers had no gaps, as those of events that were written one
    /// after the other.
    fn has_in_turn(&self, number: u64) -> bool
        ensures { result ≡ true → has_number self.now number ≡ true }
    {
        let Some(first) = self.numbers.first() else {
            return false;
        };
        match number.checked_sub(*first) {
            Some(place) => self.numbers.get(place as usize) == Some(&number),
            None => false,
        }
    }

    /// Whether the number is among them, by a binary search.
    fn is_found(&self, number: u64) -> bool
        ensures { result ≡ has_number self.now number }
    {
        self.numbers.binary_search(&number).is_ok()
    }

    /// Whether the number is among them: by one look where they have no gaps before it, else by a binary search.
    pub fn has(&self, number: u64) -> bool
        ensures { result ≡ has_number self.now number }
    {
        self.has_in_turn(number) || self.is_found(number)
    }

    /// The numbers, ascending.
    pub fn numbers(&self) -> &[u64]
        ensures numbers { result.now ≡ self.now }
        ensures order { IsStrictlyIncreasing self.now }
    {
        self.numbers.as_slice()
    }

    /// Whether both have the same numbers.
    pub fn same(&self, other: &Writes) -> bool
        ensures { IsTrue result ↔ (self.now ≡ other.now) }
    {
        self.numbers.as_slice() == other.numbers.as_slice()
    }

    /// A copy with the numbers in memory of its own.
    ///
    /// # Errors
    ///
    /// `NoMemory` where there is no room for them.
    pub fn copy(&self) -> Result<Writes, Refusal>
        ensures { IsCopyOf result self.now }
    {
        let alloc = *self.numbers.allocator();
        Ok(Writes {
            numbers: Vec::from_slice(alloc, &self.numbers)?,
        })
    }

    /// The numbers without the one that goes and with the one that comes, where there are such. Cost: one copy of the
    /// numbers.
    ///
    /// # Errors
    ///
    /// `NoMemory` where there is no room for them.
    pub fn changed(&self, gone: Option<u64>, come: Option<u64>) -> Result<Writes, Refusal>
        ensures numbers { IfOk result (λ writes. (n : ℕ) → has_number writes n ≡ changed_number gone come self.now n) }
        ensures memory { OnlyNoMemory result }
    {
        let mut numbers = staying(*self.numbers.allocator(), self.numbers.as_slice(), gone)?;
        put(&mut numbers, come)?;
        Ok(Writes { numbers })
    }
}
