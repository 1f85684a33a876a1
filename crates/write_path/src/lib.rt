// A label's path out of a stored tree, written into a lent output: "m steps of prefix length (2) and sibling digest (32)", and the end.
// Siblings, and the digests of another inner node, are copied out of their slots: nothing is hashed.
//
// The way is walked twice, first for its length: the count of its steps stands before them.
#![tactic(auto)]

ghost use Rattle.std.specs.Prelude.{◌≡◌, ◌+◌, ◌-◌, ◌≤◌, length, take};
ghost use Rattle.paper.specs.Bits.{bits_of};
ghost use Rattle.paper.specs.Tree.{build, root};
ghost use Rattle.paper.specs.Path as P;
ghost use Rattle.paper.specs.Fields.{path_field};
ghost use Rattle.leaf_row.specs.Row.{as_nodes};
ghost use Rattle.tree.specs.Stored.{flat, Sorted, Range, Part, Kept, Lent};
ghost use Rattle.tree_path.specs.Measured.{way_bytes};
ghost use Rattle.path_fields.specs.Written.{Wrote};

use bits::label_bit;
use leaf_row::{Leaf, are_leaves};
use path_fields::{write_leaf, write_node, write_step};
use tree::{Children, Fork, Sides, StoredTree, fork_of};
use tree_path::{EndKind, has_prefix, way_of};
use words::write16;

// The steps and the end below the root, at `at`. Each part shares more bits than the whole did: at most 256 calls stand within one
// another.
fn write_below(
    leaves: &[Leaf],
    from: usize,
    slots: &[Children],
    label: &[u8; 32],
    out: &mut [u8],
    at: usize,
) -> usize
    requires { Part from (as_nodes leaves.now) × (slots.now ≡ flat (build 256 (as_nodes leaves.now))) × (at + length (way_bytes (bits_of label.now) (build 256 (as_nodes leaves.now))) ≤ length out.old) }
    ensures { Wrote out.old at (way_bytes (bits_of label.now) (build 256 (as_nodes leaves.now))) out.new result }
{
    if leaves.len() == 1 {
        return write_leaf(&leaves[0], label, out, at);
    }
    let Fork { length, left } = fork_of(leaves);
    let children = slots[left - 1];
    if !has_prefix(&leaves[0], length, label) {
        return write_node(
            EndKind::Off.number(),
            &leaves[0],
            length,
            &children,
            out,
            at,
        );
    }
    let right = label_bit(label, length);
    let next = write_step(out, at, length, children.sibling(right));
    let (low, high) = leaves.split_at(left);
    let low_slots = &slots[..left - 1];
    let high_slots = &slots[left..];
    let taken = if right { high } else { low };
    let inside = if right { high_slots } else { low_slots };
    write_below(taken, length + 1, inside, label, out, next)
}

// The same on a side of the root, where "3, nothing" may be the end.
fn write_side(
    leaves: &[Leaf],
    slots: &[Children],
    label: &[u8; 32],
    out: &mut [u8],
    at: usize,
) -> usize
    requires { Sorted (as_nodes leaves.now) × Range 1 (as_nodes leaves.now) × (take (length leaves.now - 1) slots.now ≡ flat (build 256 (as_nodes leaves.now))) × (length slots.now ≡ length leaves.now) × (at + length (way_bytes (bits_of label.now) (build 256 (as_nodes leaves.now))) ≤ length out.old) }
    ensures { Wrote out.old at (way_bytes (bits_of label.now) (build 256 (as_nodes leaves.now))) out.new result }
{
    if leaves.is_empty() {
        out[at] = EndKind::Nothing.number();
        return at + 1;
    }
    let spare = leaves.len() - 1;
    write_below(leaves, 1, &slots[..spare], label, out, at)
}

// The steps and the end from the root on, at `at`.
fn write_root(tree: &StoredTree<'_>, label: &[u8; 32], out: &mut [u8], at: usize) -> usize
    requires { Kept tree.now × (at + length (way_bytes (bits_of label.now) (root (as_nodes tree.now.leaves.now))) ≤ length out.old) }
    ensures { Wrote out.old at (way_bytes (bits_of label.now) (root (as_nodes tree.now.leaves.now))) out.new result }
{
    let Sides { split, children } = tree.sides;
    let right = label_bit(label, 0);
    let next = write_step(out, at, 0, children.sibling(right));
    let (low, high) = tree.leaves.split_at(split);
    let (low_slots, high_slots) = tree.slots.split_at(split);
    let taken = if right { high } else { low };
    let inside = if right { high_slots } else { low_slots };
    write_side(taken, inside, label, out, next)
}

// Writes a label's path at `at`, and answers the place behind it.
pub fn write_path(tree: &StoredTree<'_>, label: &[u8; 32], out: &mut [u8], at: usize) -> usize
    requires { Lent tree.now × (at + length (path_field.bytes (P.way (bits_of label.now) (root (as_nodes tree.now.leaves.now)))) ≤ length out.old) }
    ensures { Wrote out.old at (path_field.bytes (P.way (bits_of label.now) (root (as_nodes tree.now.leaves.now)))) out.new result }
{
    are_leaves(tree.leaves);
    let way = way_of(tree.leaves, label);
    write16(out, at, way.steps as u16);
    write_root(tree, label, out, at + 2)
}
