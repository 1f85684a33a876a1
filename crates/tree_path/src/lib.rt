// A label's way down a stored tree: how many steps it has, and how it ends. From these two follows how many bytes the path has. The way
// goes down the side of the label's bit while the label has the node's prefix.
#![tactic(auto)]

ghost use Rattle.std.specs.Prelude.{◌≡◌, true, ◌+◌, ◌≤◌, length, take};
ghost use Rattle.paper.specs.Bits.{starts, bits_of};
ghost use Rattle.paper.specs.Tree.{key, one, build, root};
ghost use Rattle.paper.specs.Path as P;
ghost use Rattle.paper.specs.Fields.{path_field};
ghost use Rattle.paper.specs.Table.{holds};
ghost use Rattle.paper.specs.Level.{entry_leaf, rising};
ghost use Rattle.leaf_row.specs.Row.{as_nodes};
ghost use Rattle.tree.specs.Stored.{Sorted, Range, Part};
ghost use Rattle.tree_path.specs.Measured.{way_of, kind_number, end_size};

use bits::{first_difference, label_bit};
use leaf_row::{Leaf, are_leaves, label_of};
use ranges::same;
use tree::{Fork, fork_of, split};

// How a path ends: "0, this leaf", "1, another leaf", "2, another inner node", "3, nothing".
#[derive(Clone, Copy, Debug, PartialEq, Eq)]
pub enum EndKind {
    This,
    Other,
    Off,
    Nothing,
}

impl EndKind {
    // "end kind (1)"
    pub fn number(self) -> u8
        ensures { result ≡ kind_number self }
    {
        self as u8
    }

    // How many bytes an end has behind its kind.
    fn size(self) -> usize
        ensures { result ≡ end_size self }
    {
        match self {
            EndKind::This => 36,
            EndKind::Other => 68,
            EndKind::Off => 98,
            EndKind::Nothing => 0,
        }
    }
}

// The number of a path's steps, and how it ends.
#[derive(Clone, Copy, Debug, PartialEq, Eq)]
pub struct Way {
    pub steps: usize,
    pub kind: EndKind,
}

impl Way {
    // A way of no steps.
    fn ended(kind: EndKind) -> Way
        ensures { result ≡ record { steps = 0; kind = kind } }
    {
        Way { steps: 0, kind }
    }

    // The way that begins one step further up.
    fn stepped(self) -> Way
        requires { self.steps ≤ 256 }
        ensures { result ≡ record { steps = self.steps + 1; kind = self.kind } }
    {
        Way {
            steps: self.steps + 1,
            kind: self.kind,
        }
    }
}

// Whether a label begins with the first k bits of a leaf's.
pub fn has_prefix(leaf: &Leaf, k: usize, label: &[u8; 32]) -> bool
    requires { k ≤ 256 }
    ensures { result ≡ starts (take k (key (entry_leaf leaf.now))) (bits_of label.now) }
{
    k <= first_difference(label, label_of(leaf))
}

// Whether a label is a leaf's.
pub fn is_label(leaf: &Leaf, label: &[u8; 32]) -> bool
    ensures { result ≡ P.same_bits (key (entry_leaf leaf.now)) (bits_of label.now) }
{
    same(label_of(leaf), label)
}

// The end at a single leaf.
fn leaf_way(leaf: &Leaf, label: &[u8; 32]) -> Way
    ensures { result ≡ way_of (bits_of label.now) (one (entry_leaf leaf.now)) }
{
    if is_label(leaf, label) {
        return Way::ended(EndKind::This);
    }
    Way::ended(EndKind::Other)
}

// The way below the root. Each part shares more bits than the whole did: at most 256 calls stand within one another.
fn way_below(leaves: &[Leaf], from: usize, label: &[u8; 32]) -> Way
    requires { Part from (as_nodes leaves.now) }
    ensures { result ≡ way_of (bits_of label.now) (build 256 (as_nodes leaves.now)) }
{
    if leaves.len() == 1 {
        return leaf_way(&leaves[0], label);
    }
    let Fork { length, left } = fork_of(leaves);
    if !has_prefix(&leaves[0], length, label) {
        return Way::ended(EndKind::Off);
    }
    let (low, high) = leaves.split_at(left);
    let taken = if label_bit(label, length) { high } else { low };
    way_below(taken, length + 1, label).stepped()
}

// The way on a side of the root.
fn way_side(leaves: &[Leaf], label: &[u8; 32]) -> Way
    requires { Sorted (as_nodes leaves.now) × Range 1 (as_nodes leaves.now) }
    ensures { result ≡ way_of (bits_of label.now) (build 256 (as_nodes leaves.now)) }
{
    if leaves.is_empty() {
        return Way::ended(EndKind::Nothing);
    }
    way_below(leaves, 1, label)
}

// The way down from the root.
pub fn way_of(leaves: &[Leaf], label: &[u8; 32]) -> Way
    requires { rising (as_nodes leaves.now) ≡ true }
    ensures { result ≡ way_of (bits_of label.now) (root (as_nodes leaves.now)) }
{
    are_leaves(leaves);
    let (low, high) = leaves.split_at(split(leaves, 0));
    let taken = if label_bit(label, 0) { high } else { low };
    way_side(taken, label).stepped()
}

// How many bytes a label's path has.
pub fn path_length(leaves: &[Leaf], label: &[u8; 32]) -> usize
    requires { rising (as_nodes leaves.now) ≡ true }
    ensures { result ≡ length (path_field.bytes (P.way (bits_of label.now) (root (as_nodes leaves.now)))) }
{
    are_leaves(leaves);
    let way = way_of(leaves, label);
    3 + way.steps * 34 + way.kind.size()
}

// Whether a leaf has the label: "two leaves of a needed tree share a label, or a label to be shown absent is there".
pub fn is_there(leaves: &[Leaf], label: &[u8; 32]) -> bool
    requires { rising (as_nodes leaves.now) ≡ true }
    ensures { result ≡ holds (bits_of label.now) (as_nodes leaves.now) }
{
    are_leaves(leaves);
    matches!(way_of(leaves, label).kind, EndKind::This)
}
