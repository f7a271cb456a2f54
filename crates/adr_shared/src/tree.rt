//! Balanced trees whose copies share their nodes.
ghost use Rattle.std.specs.Prelude.{◌≡◌, ◌+◌, ◌/◌, ◌^◌, ◌≤◌, max, [], ◌∷◌, ◌++◌, length, slice_get, option_map, ◌-◌, ◌<◌, MatchResult};
ghost use Rattle.std.specs.Arc.{arc_value};
ghost use Rattle.std.specs.Option.{option_copied};
ghost use Rattle.adr_refusal.specs.Copy.{IsCopyOf};
ghost use Rattle.adr_refusal.specs.declared.refusal.Refusal.TheVariants.{NoMemory};
ghost use Rattle.adr_shared.specs.Map.{IsAscending, lookup, put, without, place_of};
ghost use Rattle.adr_shared.specs.Tree.{IsEdited, IsBalanced, IsSplit};
ghost use Rattle.adr_shared.specs.Sides.{DifferByAtMost};

use crate::entry::MapEntry;
use crate::key::{Itself, MapKey, Sought};
use adr_refusal::{Refusal, TryClone};
use std::alloc::Global;
use std::cmp::Ordering;
use std::marker::Model;
use std::sync::Arc;

/// A balanced tree, seen as its entries in order and its height. An empty one takes no memory.
#[cycle(tree)]
#[derive(Drop)]
pub struct Tree<K: MapKey, V: TryClone> {
    root: Root<K, V>,
}

// The root's node. The height and the count stand beside its pointer, so that whoever holds a tree knows them without
// a look at the node; before the pointer they take no room of their own.
#[cycle(tree)]
#[derive(Drop)]
enum Root<K: MapKey, V: TryClone> {
    Empty,
    Fork {
        height: u8,
        count: u32,
        node: Arc<Node<K, V>>,
    },
}

// An entry between the entries below it and those above it. What a look-up reads comes first: the sides, and the
// entry's lead.
#[cycle(tree)]
#[derive(Drop)]
struct Node<K: MapKey, V: TryClone> {
    left: Tree<K, V>,
    right: Tree<K, V>,
    entry: MapEntry<K, V>,
}

impl<K: MapKey, V: TryClone> Model for Tree<K, V> {
    ghost use Rattle.std.specs.Prelude.{ℕ, List, length};

    ghost Value = { List (List ℕ × V) × ℕ };

    ghost use Rattle.adr_shared.specs.Node.{entries_and_height, IsRoot};

    ghost view = { λ t. entries_and_height t.root };

    ghost invariant = { λ t. IsRoot t.root };

    ghost size = { λ d. length d.0 };

    ghost use Rattle.std.proofs.Common.{arith, length-append};

    ghost size_decreases = { λ a h. Prim.grind (arith, length-append) };
}

impl<K: MapKey, V: TryClone> Tree<K, V> {
    /// The tree without entries.
    pub fn new() -> Tree<K, V>
        ensures { result ≡ ([], 0) }
    {
        Tree { root: Root::Empty }
    }

    /// How many nodes the longest path has: at most 65.
    pub fn height(&self) -> u8
        ensures value { result ≡ self.now.1 }
        ensures limit { result ≤ 65 }
    {
        match &self.root {
            Root::Empty => 0,
            Root::Fork { height, .. } => *height,
        }
    }

    /// How many entries there are. The height is at least the logarithm of one more, and at most twice that.
    #[inline(always)]
    pub fn count(&self) -> u32
        ensures value { result ≡ length self.now.0 }
        ensures low { 2 ^ (self.now.1 / 2) ≤ length self.now.0 + 1 }
        ensures high { length self.now.0 < 2 ^ self.now.1 }
    {
        match &self.root {
            Root::Empty => 0,
            Root::Fork { count, .. } => *count,
        }
    }

    /// One more owner of the same nodes.
    ///
    /// # Errors
    ///
    /// `NoMemory` only where the count of the root's owners is full.
    pub fn copy(&self) -> Result<Tree<K, V>, Refusal>
        ensures { IsCopyOf result self.now }
    {
        match &self.root {
            Root::Empty => Ok(Tree::new()),
            Root::Fork {
                height,
                count,
                node,
            } => Ok(Tree {
                root: Root::Fork {
                    height: *height,
                    count: *count,
                    node: node.clone()?,
                },
            }),
        }
    }

    /// The value at a key.
    #[inline(always)]
    pub fn get<Q: Sought<K>>(&self, key: &Q) -> Option<&V>
        requires { IsAscending self.now.0 }
        ensures { option_copied result ≡ lookup (Q.code key.now) self.now.0 }
    {
        let lead = key.lead();
        let mut rest = self;
        'path: while let Root::Fork { node, .. } = &rest.root {
            let node: &Node<K, V> = node;
            rest = match node.entry.order_of(key, lead) {
                Ordering::Less => &node.left,
                Ordering::Equal => return Some(node.entry.value()),
                Ordering::Greater => &node.right,
            };
        }
        None
    }

    /// The value at a place.
    pub fn at(&self, place: usize) -> Option<&V>
        ensures { option_copied result ≡ option_map (λ e. e.1) (slice_get self.now.0 place) }
    {
        Some(self.entry_at(place)?.value())
    }

    /// The key at a place.
    pub fn key_at(&self, place: usize) -> Option<&K>
        ensures { option_map K.code (option_copied result) ≡ option_map (λ e. e.0) (slice_get self.now.0 place) }
    {
        Some(self.entry_at(place)?.key())
    }

    // The entry at a place.
    #[inline(always)]
    fn entry_at(&self, place: usize) -> Option<&MapEntry<K, V>>
        ensures { option_copied result ≡ slice_get self.now.0 place }
    {
        let mut rest = self;
        let mut offset = place;
        'path: while let Root::Fork { node, .. } = &rest.root {
            let node: &Node<K, V> = node;
            let before = node.left.count() as usize;
            if offset < before {
                rest = &node.left;
            } else if offset > before {
                offset -= before + 1;
                rest = &node.right;
            } else {
                return Some(&node.entry);
            }
        }
        None
    }

    /// The place of a key.
    pub fn place(&self, key: &K) -> Option<usize>
        requires { IsAscending self.now.0 }
        ensures { result ≡ place_of (K.code key.now) self.now.0 }
    {
        let lead = key.lead();
        let _count = self.count();
        let mut rest = self;
        let mut passed = 0;
        'path: while let Root::Fork { node, .. } = &rest.root {
            let node: &Node<K, V> = node;
            match node.entry.order_of(&Itself { key }, lead) {
                Ordering::Less => rest = &node.left,
                Ordering::Equal => return Some(passed + node.left.count() as usize),
                Ordering::Greater => {
                    passed += node.left.count() as usize + 1;
                    rest = &node.right;
                }
            }
        }
        None
    }

    /// The tree with this value at the key, in place of the key's old value if it has one.
    ///
    /// # Errors
    ///
    /// `NoMemory` where there is no room for the nodes of the path or what they copy, and where the count of the
    /// entries or of a node's owners is full.
    pub fn put(&self, alloc: Global, key: K, value: V) -> Result<Tree<K, V>, Refusal>
        requires { IsAscending self.now.0 }
        ensures { IsEdited result (put (K.code key) value self.now.0) self.now.1 (self.now.1 + 1) }
    {
        self.put_entry(alloc, MapEntry::new(key, value))
    }

    // As `put`, of an entry.
    fn put_entry(&self, alloc: Global, entry: MapEntry<K, V>) -> Result<Tree<K, V>, Refusal>
        requires { IsAscending self.now.0 }
        ensures { IsEdited result (put entry.0 entry.1 self.now.0) self.now.1 (self.now.1 + 1) }
    {
        match &self.root {
            Root::Empty => fork(alloc, Tree::new(), entry, Tree::new()),
            Root::Fork { node: shared, .. } => {
                let node: &Node<K, V> = shared;
                match node.entry.order_of_entry(&entry) {
                    Ordering::Less => node.with_left(alloc, node.left.put_entry(alloc, entry)?),
                    Ordering::Equal => with_entry(alloc, shared, entry),
                    Ordering::Greater => {
                        node.with_right(alloc, node.right.put_entry(alloc, entry)?)
                    }
                }
            }
        }
    }

    /// The tree without the key, if it has it.
    ///
    /// # Errors
    ///
    /// `NoMemory` where there is no room for the nodes of the path or what they copy, and where the count of a node's
    /// owners is full.
    pub fn without(&self, alloc: Global, key: &K) -> Result<Tree<K, V>, Refusal>
        requires { IsAscending self.now.0 }
        ensures { IsEdited result (without (K.code key.now) self.now.0) (self.now.1 - 1) self.now.1 }
    {
        self.without_led(alloc, key, key.lead())
    }

    // As `without`, of a key whose lead is at hand.
    fn without_led(&self, alloc: Global, key: &K, lead: u64) -> Result<Tree<K, V>, Refusal>
        requires ascends { IsAscending self.now.0 }
        requires led { lead ≡ K.lead_of key.now }
        ensures { IsEdited result (without (K.code key.now) self.now.0) (self.now.1 - 1) self.now.1 }
    {
        match &self.root {
            Root::Empty => Ok(Tree::new()),
            Root::Fork { node, .. } => {
                let node: &Node<K, V> = node;
                match node.entry.order_of(&Itself { key }, lead) {
                    Ordering::Less => {
                        node.with_left(alloc, node.left.without_led(alloc, key, lead)?)
                    }
                    Ordering::Equal => join(alloc, &node.left, &node.right),
                    Ordering::Greater => {
                        node.with_right(alloc, node.right.without_led(alloc, key, lead)?)
                    }
                }
            }
        }
    }

    // The least entry and the rest, where there is an entry.
    fn split_first(&self, alloc: Global) -> Result<Option<First<K, V>>, Refusal>
        ensures { MatchResult result (IsSplit self.now) (λ refusal. refusal ≡ NoMemory) }
    {
        let Root::Fork { node, .. } = &self.root else {
            return Ok(None);
        };
        let node: &Node<K, V> = node;
        match node.left.split_first(alloc)? {
            None => Ok(Some(First {
                entry: node.entry.copy()?,
                rest: node.right.copy()?,
            })),
            Some(first) => Ok(Some(First {
                entry: first.entry,
                rest: node.with_left(alloc, first.rest)?,
            })),
        }
    }
}

// A tree's least entry, and the tree of the others.
#[derive(Drop)]
struct First<K: MapKey, V: TryClone> {
    entry: MapEntry<K, V>,
    rest: Tree<K, V>,
}

impl<K: MapKey, V: TryClone> Node<K, V> {
    // The tree with this node's entry and right side, and another left side.
    fn with_left(&self, alloc: Global, left: Tree<K, V>) -> Result<Tree<K, V>, Refusal>
        requires { DifferByAtMost 2 left.1 self.now.right.1 }
        ensures { IsBalanced result left self.now.entry self.now.right }
    {
        let entry = self.entry.copy()?;
        balance(alloc, left, entry, self.right.copy()?)
    }

    // The tree with this node's entry and left side, and another right side.
    fn with_right(&self, alloc: Global, right: Tree<K, V>) -> Result<Tree<K, V>, Refusal>
        requires { DifferByAtMost 2 self.now.left.1 right.1 }
        ensures { IsBalanced result self.now.left self.now.entry right }
    {
        let entry = self.entry.copy()?;
        balance(alloc, self.left.copy()?, entry, right)
    }

    // The tree of this node's entry between two other sides, whose heights differ by at most one.
    fn fork(
        &self,
        alloc: Global,
        left: Tree<K, V>,
        right: Tree<K, V>,
    ) -> Result<Tree<K, V>, Refusal>
        requires { DifferByAtMost 1 left.1 right.1 }
        ensures { IsCopyOf result (left.0 ++ self.now.entry ∷ right.0, max left.1 right.1 + 1) }
    {
        fork(alloc, left, self.entry.copy()?, right)
    }

    // As `fork`, with its own right side.
    fn fork_left(&self, alloc: Global, left: Tree<K, V>) -> Result<Tree<K, V>, Refusal>
        requires { DifferByAtMost 1 left.1 self.now.right.1 }
        ensures { IsCopyOf result (left.0 ++ self.now.entry ∷ self.now.right.0, max left.1 self.now.right.1 + 1) }
    {
        self.fork(alloc, left, self.right.copy()?)
    }

    // As `fork`, with its own left side.
    fn fork_right(&self, alloc: Global, right: Tree<K, V>) -> Result<Tree<K, V>, Refusal>
        requires { DifferByAtMost 1 self.now.left.1 right.1 }
        ensures { IsCopyOf result (self.now.left.0 ++ self.now.entry ∷ right.0, max self.now.left.1 right.1 + 1) }
    {
        self.fork(alloc, self.left.copy()?, right)
    }

    // The tree of another entry between a left side and this node's.
    fn fork_before(
        &self,
        alloc: Global,
        left: Tree<K, V>,
        entry: MapEntry<K, V>,
    ) -> Result<Tree<K, V>, Refusal>
        requires { DifferByAtMost 1 left.1 self.now.left.1 }
        ensures { IsCopyOf result (left.0 ++ entry ∷ self.now.left.0, max left.1 self.now.left.1 + 1) }
    {
        fork(alloc, left, entry, self.left.copy()?)
    }

    // The tree of another entry between this node's right side and another.
    fn fork_after(
        &self,
        alloc: Global,
        entry: MapEntry<K, V>,
        right: Tree<K, V>,
    ) -> Result<Tree<K, V>, Refusal>
        requires { DifferByAtMost 1 self.now.right.1 right.1 }
        ensures { IsCopyOf result (self.now.right.0 ++ entry ∷ right.0, max self.now.right.1 right.1 + 1) }
    {
        fork(alloc, self.right.copy()?, entry, right)
    }
}

// The tree with a node's sides and another entry. The node may have other owners, so it stays as it is.
fn with_entry<K: MapKey, V: TryClone>(
    alloc: Global,
    node: &Arc<Node<K, V>>,
    entry: MapEntry<K, V>,
) -> Result<Tree<K, V>, Refusal>
    requires { DifferByAtMost 1 (arc_value node.now).left.1 (arc_value node.now).right.1 }
    ensures { IsCopyOf result ((arc_value node.now).left.0 ++ entry ∷ (arc_value node.now).right.0, max (arc_value node.now).left.1 (arc_value node.now).right.1 + 1) }
{
    fork(alloc, node.left.copy()?, entry, node.right.copy()?)
}

// The tree of an entry between two sides whose heights differ by at most one.
fn fork<K: MapKey, V: TryClone>(
    alloc: Global,
    left: Tree<K, V>,
    entry: MapEntry<K, V>,
    right: Tree<K, V>,
) -> Result<Tree<K, V>, Refusal>
    requires { DifferByAtMost 1 left.1 right.1 }
    ensures { IsCopyOf result (left.0 ++ entry ∷ right.0, max left.1 right.1 + 1) }
{
    let Some(count) = left.count().checked_add(right.count()) else {
        return Err(Refusal::NoMemory);
    };
    let Some(count) = count.checked_add(1) else {
        return Err(Refusal::NoMemory);
    };
    let height = left.height().max(right.height()) + 1;
    let node = Node { left, right, entry };
    Ok(Tree {
        root: Root::Fork {
            height,
            count,
            node: Arc::new(alloc, node)?,
        },
    })
}

// The tree of an entry between two sides whose heights differ by at most two.
fn balance<K: MapKey, V: TryClone>(
    alloc: Global,
    left: Tree<K, V>,
    entry: MapEntry<K, V>,
    right: Tree<K, V>,
) -> Result<Tree<K, V>, Refusal>
    requires { DifferByAtMost 2 left.1 right.1 }
    ensures { IsBalanced result left entry right }
{
    if left.height() > right.height() + 1 {
        lean_left(alloc, &left, entry, right)
    } else if right.height() > left.height() + 1 {
        lean_right(alloc, left, entry, &right)
    } else {
        fork(alloc, left, entry, right)
    }
}

// The tree of an entry between two sides, the left of which is two higher.
fn lean_left<K: MapKey, V: TryClone>(
    alloc: Global,
    left: &Tree<K, V>,
    entry: MapEntry<K, V>,
    right: Tree<K, V>,
) -> Result<Tree<K, V>, Refusal>
    requires { left.now.1 ≡ right.1 + 2 }
    ensures { IsBalanced result left.now entry right }
{
    let Root::Fork { node: outer, .. } = &left.root else {
        unreachable!()
    };
    let outer: &Node<K, V> = outer;
    if outer.left.height() >= outer.right.height() {
        let side = outer.fork_after(alloc, entry, right)?;
        return outer.fork_right(alloc, side);
    }
    let Root::Fork { node: inner, .. } = &outer.right.root else {
        unreachable!()
    };
    let inner: &Node<K, V> = inner;
    let above = inner.fork_after(alloc, entry, right)?;
    let below = outer.fork_right(alloc, inner.left.copy()?)?;
    inner.fork(alloc, below, above)
}

// The tree of an entry between two sides, the right of which is two higher.
fn lean_right<K: MapKey, V: TryClone>(
    alloc: Global,
    left: Tree<K, V>,
    entry: MapEntry<K, V>,
    right: &Tree<K, V>,
) -> Result<Tree<K, V>, Refusal>
    requires { right.now.1 ≡ left.1 + 2 }
    ensures { IsBalanced result left entry right.now }
{
    let Root::Fork { node: outer, .. } = &right.root else {
        unreachable!()
    };
    let outer: &Node<K, V> = outer;
    if outer.right.height() >= outer.left.height() {
        let side = outer.fork_before(alloc, left, entry)?;
        return outer.fork_left(alloc, side);
    }
    let Root::Fork { node: inner, .. } = &outer.left.root else {
        unreachable!()
    };
    let inner: &Node<K, V> = inner;
    let below = inner.fork_before(alloc, left, entry)?;
    let above = outer.fork_left(alloc, inner.right.copy()?)?;
    inner.fork(alloc, below, above)
}

// The tree of the entries of two sides whose heights differ by at most one.
fn join<K: MapKey, V: TryClone>(
    alloc: Global,
    left: &Tree<K, V>,
    right: &Tree<K, V>,
) -> Result<Tree<K, V>, Refusal>
    requires { DifferByAtMost 1 left.now.1 right.now.1 }
    ensures { IsEdited result (left.now.0 ++ right.now.0) (max left.now.1 right.now.1) (max left.now.1 right.now.1 + 1) }
{
    match right.split_first(alloc)? {
        None => left.copy(),
        Some(first) => balance(alloc, left.copy()?, first.entry, first.rest),
    }
}
