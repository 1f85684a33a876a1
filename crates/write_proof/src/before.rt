// What stands before a proof's paths: "header, head", number and keys. They fit, which was tested before.
ghost use Rattle.std.specs.Prelude.{◌≡◌, ◌+◌, ◌≤◌, length};
ghost use Rattle.paper.specs.Tree.{root_digest};
ghost use Rattle.path_fields.specs.Written.{Wrote};
ghost use Rattle.front.specs.Front.{item_bytes, items_from};
ghost use Rattle.paths.specs.Paths.{all_of, old_of, ReadyLent};
ghost use Rattle.write_proof.specs.Judged.{before_with, Source};

use forest::Trees;
use front::{previous_head, write_front, write_items};
use plan::Plan;

// The answer is the place of the first path.
pub(crate) fn lay_before(
    records: &[u8],
    heads: &[u8],
    count: usize,
    from: usize,
    name: &[u8],
    trees: &Trees<'_>,
    plan: Plan,
    out: &mut [u8],
) -> usize
    requires { Source records.now heads.now count from plan.epoch × ReadyLent trees.now name.now × (108 + length (item_bytes (items_from records.now name.now plan.epoch from count)) ≤ length out.old) }
    ensures { Wrote out.old 0 (before_with heads.now (root_digest (all_of trees.now)) (root_digest (old_of trees.now)) (items_from records.now name.now plan.epoch from count) plan) out.new result }
{
    write_front(
        out,
        plan.kind.number(),
        plan.epoch,
        &previous_head(heads, plan.epoch),
        &trees.all.root(),
        &trees.old.root(),
        plan.number,
    );
    write_items(records, count, from, name, plan.epoch, out, 108)
}
