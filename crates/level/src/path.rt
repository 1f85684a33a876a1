// A label's path over leaves in any order: they are brought into bit order, the tree over them is stored once, and the path is written
// out of it. Its length is known before the first byte is written.
ghost use Rattle.std.specs.Prelude.{◌≡◌, ◌≤◌, length};
ghost use Rattle.paper.specs.Bits.{bits_of};
ghost use Rattle.paper.specs.Level.{entries_most};
ghost use Rattle.leaf_row.specs.Row.{as_nodes};
ghost use Rattle.level.specs.Rooted.{path_over};

use crate::root::slots;
use arrange::arrange;
use leaf_row::Leaf;
use paper::{Refusal, TreeAnswer};
use tree::StoredTree;
use tree_path::{is_there, path_length};
use write_path::write_path;

// The path of a label over leaves in any order, at the output's start.
pub(crate) fn path_over(
    leaves: &mut [Leaf],
    label: &[u8; 32],
    absent: bool,
    out: &mut [u8],
) -> TreeAnswer
    requires { length leaves.old ≤ entries_most }
    ensures { record { answer = result; out = out.new } ≡ path_over (as_nodes leaves.old) (bits_of label.now) absent out.old }
{
    if !arrange(leaves) {
        return Err(Refusal::Clash);
    }
    // "a label to be shown absent is there"
    if absent && is_there(leaves, label) {
        return Err(Refusal::Clash);
    }
    let length = path_length(leaves, label);
    if out.len() < length {
        return Err(Refusal::Room);
    }
    let mut slots = slots();
    let n = leaves.len();
    let tree = StoredTree::store(leaves, &mut slots[..n]);
    write_path(&tree, label, out, 0);
    Ok(length)
}
