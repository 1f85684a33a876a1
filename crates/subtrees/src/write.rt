// Writing the list of an audit into a lent output, from its count on.
ghost use Rattle.std.specs.Prelude.{◌≡◌, cond, ◌+◌, ◌-◌, ◌≤◌, length, take};
ghost use Rattle.paper.specs.Numbers.{audit_most};
ghost use Rattle.paper.specs.Tree.{one, build, root};
ghost use Rattle.paper.specs.Audit.{list_field};
ghost use Rattle.paper.specs.Write.{has_new, below_root};
ghost use Rattle.paper.specs.Level.{entry_leaf};
ghost use Rattle.leaf_row.specs.Row.{as_nodes};
ghost use Rattle.tree.specs.Stored.{flat, Sorted, Range, Part, Lent};
ghost use Rattle.path_fields.specs.Written.{Wrote};
ghost use Rattle.subtrees.specs.Listed.{tree_bytes};

use crate::count::{has_new, is_new, list_length};
use leaf_row::{Leaf, are_leaves};
use path_fields::write_node;
use ranges::put;
use tree::{Children, Fork, StoredTree, fork_of};
use words::{write16, write32};

// "Kind 0 is an unchanged leaf, .. 2 a new leaf"
fn kind_of(leaf: &Leaf, epoch: u32) -> u8
    ensures { result ≡ cond (has_new epoch (one (entry_leaf leaf.now))) 2 0 }
{
    if is_new(leaf, epoch) { 2 } else { 0 }
}

// "for kinds 0 and 2 commitment, epoch and 28 zero bytes"; "leaves have length 256": label, commitment and epoch are the leaf's bytes.
fn write_leaf(leaf: &Leaf, epoch: u32, out: &mut [u8], at: usize) -> usize
    requires { at + 99 ≤ length out.old }
    ensures { Wrote out.old at (tree_bytes epoch (one (entry_leaf leaf.now))) out.new result }
{
    out[at] = kind_of(leaf, epoch);
    write16(out, at + 1, 256);
    put(out, at + 3, leaf);
    put(out, at + 71, &[0; 28]);
    at + 99
}

// The records below the root, at `at`. Each part shares more bits than the whole did: at most 256 calls stand within one another.
fn write_below(
    leaves: &[Leaf],
    from: usize,
    slots: &[Children],
    epoch: u32,
    out: &mut [u8],
    at: usize,
) -> usize
    requires { Part from (as_nodes leaves.now) × (slots.now ≡ flat (build 256 (as_nodes leaves.now))) × (at + length (tree_bytes epoch (build 256 (as_nodes leaves.now))) ≤ length out.old) }
    ensures { Wrote out.old at (tree_bytes epoch (build 256 (as_nodes leaves.now))) out.new result }
{
    if leaves.len() == 1 {
        return write_leaf(&leaves[0], epoch, out, at);
    }
    let Fork { length, left } = fork_of(leaves);
    if !has_new(leaves, epoch) {
        // "1 an unchanged inner node (length 1 to 255)"; "for kind 1 two digests", which are the slot.
        return write_node(1, &leaves[0], length, &slots[left - 1], out, at);
    }
    let (low, high) = leaves.split_at(left);
    let next = write_below(low, length + 1, &slots[..left - 1], epoch, out, at);
    write_below(high, length + 1, &slots[left..], epoch, out, next)
}

// The records of a side of the root, which may be empty.
fn write_side(leaves: &[Leaf], slots: &[Children], epoch: u32, out: &mut [u8], at: usize) -> usize
    requires { Sorted (as_nodes leaves.now) × Range 1 (as_nodes leaves.now) × (take (length leaves.now - 1) slots.now ≡ flat (build 256 (as_nodes leaves.now))) × (length slots.now ≡ length leaves.now) × (at + length (tree_bytes epoch (build 256 (as_nodes leaves.now))) ≤ length out.old) }
    ensures { Wrote out.old at (tree_bytes epoch (build 256 (as_nodes leaves.now))) out.new result }
{
    if leaves.is_empty() {
        return at;
    }
    let spare = leaves.len() - 1;
    write_below(leaves, 1, &slots[..spare], epoch, out, at)
}

// Writes the list of the whole stored tree at `at`, "a count (4) and records", and answers the place behind it.
pub fn write_list(tree: &StoredTree<'_>, epoch: u32, out: &mut [u8], at: usize) -> usize
    requires { (length tree.now.leaves.now ≤ audit_most) × Lent tree.now × (at + length (list_field.bytes (below_root epoch (root (as_nodes tree.now.leaves.now)))) ≤ length out.old) }
    ensures { Wrote out.old at (list_field.bytes (below_root epoch (root (as_nodes tree.now.leaves.now)))) out.new result }
{
    are_leaves(tree.leaves);
    write32(out, at, list_length(tree.leaves, epoch) as u32);
    let split = tree.sides.split;
    let (low, high) = tree.leaves.split_at(split);
    let (low_slots, high_slots) = tree.slots.split_at(split);
    let next = write_side(low, low_slots, epoch, out, at + 4);
    write_side(high, high_slots, epoch, out, next)
}
