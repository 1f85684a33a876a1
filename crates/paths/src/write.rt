// The paths, written one behind the other.
ghost use Rattle.std.specs.Prelude.{◌+◌, ◌≤◌, length};
ghost use Rattle.paper.specs.Fields.{path_field};
ghost use Rattle.path_fields.specs.Written.{Wrote};
ghost use Rattle.plan.specs.Asked.{asked_of};
ghost use Rattle.paths.specs.Paths.{wanted, path_for, path_bytes, all_of, old_of, ReadyLent};

use crate::tree_of;
use forest::Trees;
use plan::{Asked, Plan};
use write_path::write_path;

// The path for what is asked, in the tree of its place, at `at`: the place behind it.
fn write_one(trees: &Trees<'_>, name: &[u8], asked: Asked, out: &mut [u8], at: usize) -> usize
    requires { ReadyLent trees.now name.now × (at + length (path_field.bytes (path_for name.now (all_of trees.now) (old_of trees.now) (wanted asked))) ≤ length out.old) }
    ensures { Wrote out.old at (path_field.bytes (path_for name.now (all_of trees.now) (old_of trees.now) (wanted asked))) out.new result }
{
    let label = asked.place.label(name);
    write_path(tree_of(trees, asked.place), &label, out, at)
}

// All paths that are asked, from `at` on: the place behind them.
pub fn write_paths(trees: &Trees<'_>, name: &[u8], plan: Plan, out: &mut [u8], at: usize) -> usize
    requires { ReadyLent trees.now name.now × (at + length (path_bytes name.now (all_of trees.now) (old_of trees.now) (asked_of plan)) ≤ length out.old) }
    ensures { Wrote out.old at (path_bytes name.now (all_of trees.now) (old_of trees.now) (asked_of plan)) out.new result }
{
    let mut next = at;
    for i in 0..plan.paths() {
        next = write_one(trees, name, plan.asked(i), out, next);
    }
    next
}
