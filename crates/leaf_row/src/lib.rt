// A row of leaves, each by its 68 bytes, "label 32, commitment 32, epoch 4", as they stand in a leaf's string.
#![tactic(auto)]

ghost use Rattle.std.specs.Prelude.{◌≡◌, take};
ghost use Rattle.paper.specs.Bytes.{Bytewise};
ghost use Rattle.paper.specs.Level.{leaves_of};
ghost use Rattle.ranges.specs.Part.{PartAt};
ghost use Rattle.leaf_row.specs.Row.{as_nodes, Sized};

pub type Leaf = [u8; 68];

// The label of a leaf, as a part of its bytes.
pub fn label_of(leaf: &Leaf) -> &[u8]
    ensures { PartAt leaf.entry 0 (take 32 leaf.now) result }
{
    &leaf[..32]
}

// What the type of a slice of bytes says, for the proof below: there is nothing to run.
fn are_bytes(s: &[u8])
    ensures { Bytewise s.now }
{}

// What the type of a row of leaves says, for the proofs of those that are lent one: there is nothing to run.
pub fn are_leaves(leaves: &[Leaf])
    ensures { Sized (as_nodes leaves.now) }
{
    are_bytes(leaves.as_flattened());
}

// The leaves that stand one behind the other in a row of bytes.
pub fn leaves_of(row: &mut [u8]) -> &mut [Leaf]
    ensures leaves { as_nodes result.now ≡ leaves_of row.old }
    ensures sized { Sized (as_nodes result.now) }
{
    are_bytes(row);
    row.as_chunks_mut::<68>().0
}
