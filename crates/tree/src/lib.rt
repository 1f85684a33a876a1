// The tree over leaves in bit order. The digests of an inner node's two children are kept in a slot: the node stands between the two
// leaves between which it splits its range, and so does its slot. A path is then written without hashing anything.
//
// Each side of the root has as many slots as leaves, of which the last is spare.
#![tactic(auto)]

ghost use Rattle.std.specs.Prelude.{◌≡◌, true, cond, [], ◌+◌, ◌≤◌, length, take};
ghost use Rattle.paper.specs.Strings as S;
ghost use Rattle.paper.specs.Tree as T;
ghost use Rattle.paper.specs.Level.{entry_leaf, rising};
ghost use Rattle.leaf_row.specs.Row.{as_nodes};
ghost use Rattle.tree.specs.Stored.{Sorted, Range, Part, Cut, Forked, BelowLaid, SideLaid, Laid, Kept, Lent};

use bits::{first_difference, label_bit, prefix_of};
use leaf_row::{Leaf, are_leaves, label_of};
use nodes::{inner, leaf, nothing};
use ranges::digest_at;
use words::read32;

// A slot: the digests of an inner node's two children.
#[derive(Clone, Copy)]
pub struct Children {
    pub left: [u8; 32],
    pub right: [u8; 32],
}

impl Children {
    // The sibling of a label's step: the digest of the side that the label does not take, where it lies in the slot.
    pub fn sibling(&self, right: bool) -> &[u8; 32]
        ensures value { result.now ≡ cond right self.now.left self.now.right }
        ensures block { result.ref_ptr.0 ≡ self.entry.ref_ptr.0 }
        ensures offset { result.ref_ptr.1 ≡ self.entry.ref_ptr.1 + cond right 0 32 }
    {
        if right { &self.left } else { &self.right }
    }
}

// The root's two sides: the first `split` leaves are on the left, the others on the right, and each side has a digest.
#[derive(Clone, Copy)]
pub struct Sides {
    pub split: usize,
    pub children: Children,
}

// A stored tree: its leaves in bit order, their slots, and the root's sides.
#[derive(Clone, Copy)]
pub struct StoredTree<'a> {
    pub leaves: &'a [Leaf],
    pub slots: &'a [Children],
    pub sides: Sides,
}

impl<'a> StoredTree<'a> {
    // Stores the tree over leaves, in as many slots.
    pub fn store(leaves: &'a [Leaf], slots: &'a mut [Children]) -> StoredTree<'a>
        requires { (rising (as_nodes leaves.now) ≡ true) × (length slots.old ≡ length leaves.now) }
        ensures tree { Kept result }
        ensures leaves { result.leaves.now ≡ leaves.now }
        ensures laid { Laid (as_nodes leaves.now) slots.old result.slots.now result.sides }
    {
        are_leaves(leaves);
        let sides = store(leaves, slots);
        StoredTree {
            leaves,
            slots,
            sides,
        }
    }

    // "The root has prefix length 0 and is always an inner node.": the node over the two sides, and of a tree as `store` leaves it the root.
    pub fn root(&self) -> [u8; 32]
        ensures over { result ≡ T.digest (S.inner [] self.now.sides.children.left self.now.sides.children.right) }
        ensures kept { Lent self.now → result ≡ T.root_digest (as_nodes self.now.leaves.now) }
    {
        are_leaves(self.leaves);
        let Children { left, right } = self.sides.children;
        inner(0, &[0u8; 32], &left, &right)
    }
}

// Where leaves part: the length of their longest common prefix, and how many of them go left behind it.
#[derive(Clone, Copy)]
pub struct Fork {
    pub length: usize,
    pub left: usize,
}

// "one label gives its leaf": its digest.
fn leaf_digest(one: &Leaf) -> [u8; 32]
    ensures { result ≡ T.digest (entry_leaf one.now) }
{
    let label = digest_at(one, 0);
    let commitment = digest_at(one, 32);
    leaf(&label, &commitment, read32(one, 64))
}

// "the bit after the prefix sends each label left (0) or right (1)": how many of the leaves, which share k bits, go left at bit k. In
// bit order those stand first.
pub fn split(leaves: &[Leaf], k: usize) -> usize
    requires { (rising (as_nodes leaves.now) ≡ true) × Range k (as_nodes leaves.now) }
    ensures { Cut k (as_nodes leaves.now) result }
{
    leaves.partition_point(|leaf| !label_bit(label_of(leaf), k))
}

// Where two or more leaves part: how many bits they share, and how many of them go left at the next one.
pub fn fork_of(leaves: &[Leaf]) -> Fork
    requires { (2 ≤ length leaves.now) × (rising (as_nodes leaves.now) ≡ true) }
    ensures { Forked (as_nodes leaves.now) result.length result.left }
{
    let last = leaves.len() - 1;
    let length = first_difference(label_of(&leaves[0]), label_of(&leaves[last]));
    Fork {
        length,
        left: split(leaves, length),
    }
}

// The inner node over leaves that share k bits, of which one is given.
fn fork_digest(one: &Leaf, k: usize, children: &Children) -> [u8; 32]
    requires { k ≤ 256 }
    ensures { result ≡ T.digest (S.inner (take k (T.key (entry_leaf one.now))) children.now.left children.now.right) }
{
    inner(
        k as u16,
        &prefix_of(label_of(one), k),
        &children.left,
        &children.right,
    )
}

// "more give an inner node whose prefix is their longest common prefix": leaves in order, which share `from` bits. Each part shares more
// bits than the whole did: at most 256 calls stand within one another.
fn below(leaves: &[Leaf], from: usize, slots: &mut [Children]) -> [u8; 32]
    requires { Part from (as_nodes leaves.now) × (length slots.old + 1 ≡ length leaves.now) }
    ensures { BelowLaid (as_nodes leaves.now) result slots.new }
{
    if leaves.len() == 1 {
        return leaf_digest(&leaves[0]);
    }
    let Fork { length, left } = fork_of(leaves);
    let (low, high) = leaves.split_at(left);
    let (low_slots, high_slots) = slots.split_at_mut(left);
    let children = Children {
        left: below(low, length + 1, &mut low_slots[..left - 1]),
        right: below(high, length + 1, high_slots),
    };
    low_slots[left - 1] = children;
    fork_digest(&leaves[0], length, &children)
}

// A side of the root: "It alone may have "nothing" as a child."
fn side(leaves: &[Leaf], slots: &mut [Children]) -> [u8; 32]
    requires { Sorted (as_nodes leaves.now) × Range 1 (as_nodes leaves.now) × (length slots.old ≡ length leaves.now) }
    ensures { SideLaid (as_nodes leaves.now) result slots.old slots.new }
{
    if leaves.is_empty() {
        return nothing();
    }
    let spare = leaves.len() - 1;
    below(leaves, 1, &mut slots[..spare])
}

// Stores the tree over leaves: the two sides of the root, and their slots.
pub fn store(leaves: &[Leaf], slots: &mut [Children]) -> Sides
    requires { (rising (as_nodes leaves.now) ≡ true) × (length slots.old ≡ length leaves.now) }
    ensures { Laid (as_nodes leaves.now) slots.old slots.new result }
{
    are_leaves(leaves);
    let split = split(leaves, 0);
    let (low, high) = leaves.split_at(split);
    let (low_slots, high_slots) = slots.split_at_mut(split);
    let children = Children {
        left: side(low, low_slots),
        right: side(high, high_slots),
    };
    Sides { split, children }
}
