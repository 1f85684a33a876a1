// The fields of a path, each written into a lent output at a place: a step, and the ends that have fields. Each answers the place behind.
#![tactic(auto)]

ghost use Rattle.std.specs.Prelude.{◌∷◌, ◌++◌, ◌≡◌, ◌+◌, ◌≤◌, length, take};
ghost use Rattle.paper.specs.Bits.{bits_of};
ghost use Rattle.paper.specs.Tree.{key};
ghost use Rattle.paper.specs.Path as P;
ghost use Rattle.paper.specs.Fields.{step_field};
ghost use Rattle.paper.specs.Level.{entry_leaf};
ghost use Rattle.tree_path.specs.Measured.{kind_number, node_bytes, end_bytes};
ghost use Rattle.path_fields.specs.Written.{Wrote};

use bits::prefix_of;
use leaf_row::{Leaf, label_of};
use ranges::put;
use tree::Children;
use tree_path::{EndKind, is_label};
use words::write16;

// "prefix length (2) and sibling digest (32)"
pub fn write_step(out: &mut [u8], at: usize, k: usize, sibling: &[u8; 32]) -> usize
    requires { (at + 34 ≤ length out.old) × (k ≤ 255) }
    ensures { Wrote out.old at (step_field.bytes (record { length = k; sibling = sibling.now })) out.new result }
{
    write16(out, at, k as u16);
    put(out, at + 2, sibling);
    at + 34
}

// "end kind (1)", and the fields of the end.
fn write_end(out: &mut [u8], at: usize, kind: EndKind, fields: &[u8]) -> usize
    requires { at + 1 + length fields.now ≤ length out.old }
    ensures { Wrote out.old at (kind_number kind ∷ fields.now) out.new result }
{
    out[at] = kind.number();
    put(out, at + 1, fields);
    at + 1 + fields.len()
}

// "0, this leaf: commitment, epoch. 1, another leaf: label, commitment, epoch.": the bytes are those of the leaf.
pub fn write_leaf(leaf: &Leaf, label: &[u8; 32], out: &mut [u8], at: usize) -> usize
    requires { at + length (end_bytes (P.end_at (bits_of label.now) (entry_leaf leaf.now))) ≤ length out.old }
    ensures { Wrote out.old at (end_bytes (P.end_at (bits_of label.now) (entry_leaf leaf.now))) out.new result }
{
    if is_label(leaf, label) {
        return write_end(out, at, EndKind::This, &leaf[32..]);
    }
    write_end(out, at, EndKind::Other, leaf)
}

// "another inner node: its 98 bytes after 0x01", behind a kind. An audit's opened node is written so too, with a
// kind of its own: so the kind is the byte.
pub fn write_node(
    kind: u8,
    leaf: &Leaf,
    k: usize,
    children: &Children,
    out: &mut [u8],
    at: usize,
) -> usize
    requires { (k ≤ 255) × (at + 99 ≤ length out.old) }
    ensures { Wrote out.old at (kind ∷ node_bytes (take k (key (entry_leaf leaf.now))) (children.now.left ++ children.now.right)) out.new result }
{
    out[at] = kind;
    write16(out, at + 1, k as u16);
    put(out, at + 3, &prefix_of(label_of(leaf), k));
    put(out, at + 35, &children.left);
    put(out, at + 67, &children.right);
    at + 99
}
