// The root over leaves in any order: they are brought into bit order, and the tree is built over them once.
ghost use Rattle.std.specs.Prelude.{◌≡◌, ◌≤◌, length};
ghost use Rattle.paper.specs.Level.{entries_most};
ghost use Rattle.leaf_row.specs.Row.{as_nodes};
ghost use Rattle.level.specs.Rooted.{Roots};

use arrange::arrange;
use leaf_row::Leaf;
use tree::{Children, StoredTree};

// Room for the slots of 8,192 leaves.
pub(crate) fn slots() -> [Children; 8192]
    ensures { length result ≡ entries_most }
{
    [Children {
        left: [0u8; 32],
        right: [0u8; 32],
    }; 8192]
}

// The root over the leaves, where no two of them share a label.
pub fn root_of(leaves: &mut [Leaf]) -> Option<[u8; 32]>
    requires { length leaves.old ≤ entries_most }
    ensures { Roots (as_nodes leaves.old) result }
{
    if !arrange(leaves) {
        return None;
    }
    let mut slots = slots();
    let n = leaves.len();
    Some(StoredTree::store(leaves, &mut slots[..n]).root())
}
