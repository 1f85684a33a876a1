// An audit proof out of the two trees of its new epoch as they are stored, and "8 ROOM": the lists are counted, and the proof is laid if it
// has room.
#![tactic(auto)]

mod lay;

ghost use Rattle.std.specs.Prelude.{◌≡◌, true};
ghost use Rattle.leaf_row.specs.Row.{as_nodes};
ghost use Rattle.tested.specs.Tested.{weighed};
ghost use Rattle.lay_audit.specs.Audited.{bytes_with, Step, ListableLent};

use lay::lay;
use leaf_row::are_leaves;
use paper::{Refusal, Returned, State, WriteAnswer, Written};
use room::has_room;
use subtrees::list_length;
use tree::StoredTree;

// A header of 6 bytes, two heads of 100, two counts of 4, and records of 99 bytes.
pub fn lay_audit(
    heads: &[u8],
    state: State,
    epoch: u32,
    all: &StoredTree<'_>,
    old: &StoredTree<'_>,
    out: &mut [u8],
) -> WriteAnswer
    requires { Step heads.now epoch × ListableLent all.now × ListableLent old.now }
    ensures { record { answer = result; out = out.new } ≡ weighed state out.old true (bytes_with heads.now epoch (as_nodes all.now.leaves.now) (as_nodes old.now.leaves.now)) }
{
    are_leaves(all.leaves);
    are_leaves(old.leaves);
    let first = list_length(all.leaves, epoch) * 99;
    let second = list_length(old.leaves, epoch) * 99;
    if !has_room(out.len(), 214, first, second) {
        return Err(Returned {
            refusal: Refusal::Room,
            state,
        });
    }
    lay(heads, epoch, all, old, out);
    Ok(Written {
        length: 214 + first + second,
        state,
    })
}
