// A lookup or history proof out of the two trees of its epoch as they are stored: "or a label to be shown absent is there", and "8 ROOM".
// Its paths and keys are measured, and it is laid if it has room.
ghost use Rattle.std.specs.Prelude.{◌≡◌};
ghost use Rattle.paths.specs.Paths.{all_of, old_of, ReadyLent};
ghost use Rattle.tested.specs.Tested.{Sound};
ghost use Rattle.write_proof.specs.Judged.{judged};

use crate::before::lay_before;
use crate::found::{Found, find};
use forest::Trees;
use front::items_size;
use paper::{Refusal, Returned, State, WriteAnswer, Written};
use paths::{measure_paths, write_paths};
use plan::{Kind, Plan};
use room::has_room;

// A proof of the name at the epoch, out of *all* and *old*.
pub(crate) fn lay_proof(
    records: &[u8],
    heads: &[u8],
    state: State,
    name: &[u8],
    epoch: u32,
    kind: Kind,
    trees: &Trees<'_>,
    out: &mut [u8],
) -> WriteAnswer
    requires { Sound records.now heads.now state epoch × ReadyLent trees.now name.now }
    ensures { record { answer = result; out = out.new } ≡ judged kind records.now heads.now state out.old name.now epoch (all_of trees.now) (old_of trees.now) }
{
    let count = state.count as usize;
    let Found { from, number } = find(records, count, name, epoch, kind);
    let plan = Plan {
        kind,
        number,
        epoch,
    };
    let Some(paths) = measure_paths(trees, name, plan) else {
        return Err(Returned {
            refusal: Refusal::Clash,
            state,
        });
    };
    let keys = items_size(records, count, from, name, epoch);
    if !has_room(out.len(), 108, keys, paths) {
        return Err(Returned {
            refusal: Refusal::Room,
            state,
        });
    }
    let next = lay_before(records, heads, count, from, name, trees, plan, out);
    let length = write_paths(trees, name, plan, out, next);
    Ok(Written { length, state })
}
