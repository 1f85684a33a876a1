// How many bytes the paths have, where each label that is to be shown absent is absent.
ghost use Rattle.std.specs.Prelude.{◌≡◌, true, not, ◌||◌, ◌≤◌, length};
ghost use Rattle.paper.specs.Lists.{every};
ghost use Rattle.paper.specs.Bits.{bits_of};
ghost use Rattle.paper.specs.Tree.{root};
ghost use Rattle.paper.specs.Path as P;
ghost use Rattle.paper.specs.Fields.{path_field};
ghost use Rattle.paper.specs.Table.{holds};
ghost use Rattle.paper.specs.Level.{rising};
ghost use Rattle.leaf_row.specs.Row.{as_nodes};
ghost use Rattle.plan.specs.Asked.{asked_of};
ghost use Rattle.paths.specs.Paths.{wanted, path_for, free_for, path_bytes, all_of, old_of, OrderedLent, Measured, Sized};

use crate::tree_of;
use forest::Trees;
use leaf_row::are_leaves;
use plan::{Asked, Plan};
use tree::StoredTree;
use tree_path::{is_there, path_length};

// A label's path in a tree. "or a label to be shown absent is there"
fn measure_in(tree: &StoredTree<'_>, label: &[u8; 32], there: bool) -> Option<usize>
    requires { rising (as_nodes tree.now.leaves.now) ≡ true }
    ensures { Sized (there || not (holds (bits_of label.now) (as_nodes tree.now.leaves.now))) (path_field.bytes (P.way (bits_of label.now) (root (as_nodes tree.now.leaves.now)))) result }
{
    are_leaves(tree.leaves);
    if !there && is_there(tree.leaves, label) {
        return None;
    }
    Some(path_length(tree.leaves, label))
}

// The path for what is asked, in the tree of its place.
fn measure_path(trees: &Trees<'_>, name: &[u8], asked: Asked) -> Option<usize>
    requires { OrderedLent trees.now name.now }
    ensures { Sized (free_for name.now (all_of trees.now) (old_of trees.now) (wanted asked)) (path_field.bytes (path_for name.now (all_of trees.now) (old_of trees.now) (wanted asked))) result }
{
    let Asked { place, there } = asked;
    measure_in(tree_of(trees, place), &place.label(name), there)
}

// All paths that are asked.
pub fn measure_paths(trees: &Trees<'_>, name: &[u8], plan: Plan) -> Option<usize>
    requires { OrderedLent trees.now name.now × (length (asked_of plan) ≤ 200000) }
    ensures { Measured (every (free_for name.now (all_of trees.now) (old_of trees.now)) (asked_of plan)) (path_bytes name.now (all_of trees.now) (old_of trees.now) (asked_of plan)) result }
{
    let mut sum = 0;
    for i in 0..plan.paths() {
        sum += measure_path(trees, name, plan.asked(i))?;
    }
    Some(sum)
}
