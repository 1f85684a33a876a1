// How many records the list of an audit has.
ghost use Rattle.std.specs.Prelude.{◌≡◌, true, length};
ghost use Rattle.paper.specs.Lists.{some};
ghost use Rattle.paper.specs.Tree.{one, build, root};
ghost use Rattle.paper.specs.Write.{has_new, subtrees, below_root};
ghost use Rattle.paper.specs.Level.{entry_leaf, rising};
ghost use Rattle.leaf_row.specs.Row.{as_nodes};
ghost use Rattle.tree.specs.Stored.{Sorted, Range, Part};

use leaf_row::{Leaf, are_leaves};
use tree::{Fork, fork_of, split};
use words::read32;

// Whether a leaf is new: "new leaves bear the new epoch".
pub(crate) fn is_new(leaf: &Leaf, epoch: u32) -> bool
    ensures { result ≡ has_new epoch (one (entry_leaf leaf.now)) }
{
    read32(leaf, 64) == epoch
}

// Whether one of the leaves is new.
pub(crate) fn has_new(leaves: &[Leaf], epoch: u32) -> bool
    ensures { result ≡ some (λ x. has_new epoch (one x)) (as_nodes leaves.now) }
{
    leaves.iter().any(|leaf| is_new(leaf, epoch))
}

// The records below the root. Each part shares more bits than the whole did: at most 256 calls stand within one another.
fn count_below(leaves: &[Leaf], from: usize, epoch: u32) -> usize
    requires { Part from (as_nodes leaves.now) }
    ensures { result ≡ length (subtrees epoch (build 256 (as_nodes leaves.now))) }
{
    if leaves.len() == 1 {
        return 1;
    }
    let Fork { length, left } = fork_of(leaves);
    if !has_new(leaves, epoch) {
        return 1;
    }
    let (low, high) = leaves.split_at(left);
    count_below(low, length + 1, epoch) + count_below(high, length + 1, epoch)
}

// The records of a side of the root, which may be empty.
fn count_side(leaves: &[Leaf], epoch: u32) -> usize
    requires { Sorted (as_nodes leaves.now) × Range 1 (as_nodes leaves.now) }
    ensures { result ≡ length (subtrees epoch (build 256 (as_nodes leaves.now))) }
{
    if leaves.is_empty() {
        return 0;
    }
    count_below(leaves, 1, epoch)
}

// The records of the whole tree over leaves in bit order: both sides of the root, which is not opened itself.
pub fn list_length(leaves: &[Leaf], epoch: u32) -> usize
    requires { rising (as_nodes leaves.now) ≡ true }
    ensures { result ≡ length (below_root epoch (root (as_nodes leaves.now))) }
{
    are_leaves(leaves);
    let (low, high) = leaves.split_at(split(leaves, 0));
    count_side(low, epoch) + count_side(high, epoch)
}
