// "two leaves of a needed tree share a label": both trees of the epoch, stored, each in its function's own arrays.
// The audit writer has two functions like these. One for both would take a closure, and each of them would have to show of all trees that it
// could be called with what the type of a slice says.
ghost use Rattle.std.specs.Prelude.{◌≡◌, ◌≤◌, length};
ghost use Rattle.paper.specs.Labelling.{plain};
ghost use Rattle.paper.specs.Table.{all_at};
ghost use Rattle.record.specs.Places.{records_in};
ghost use Rattle.forest.specs.Grown.{Clear};
ghost use Rattle.tested.specs.Tested.{Sound};
ghost use Rattle.write_proof.specs.Rest.{rest_by};

use crate::judge::lay_proof;
use forest::{Trees, grow, row, slots};
use paper::{Refusal, Returned, State, Which, WriteAnswer};
use plan::Kind;
use tree::StoredTree;

// Tree *old*, and then the proof, where tree *all* is there.
fn write_beside(
    records: &[u8],
    heads: &[u8],
    state: State,
    name: &[u8],
    epoch: u32,
    kind: Kind,
    all: StoredTree<'_>,
    out: &mut [u8],
) -> WriteAnswer
    requires { Sound records.now heads.now state epoch × (length name.now ≤ 64) × Clear (all_at plain epoch (records_in state.count records.now)) all }
    ensures { record { answer = result; out = out.new } ≡ rest_by kind records.now heads.now state out.old name.now epoch }
{
    let count = state.count as usize;
    let mut row = row();
    let mut slots = slots();
    let Some(old) = grow(records, count, epoch, Which::OfOld, &mut row, &mut slots) else {
        return Err(Returned {
            refusal: Refusal::Clash,
            state,
        });
    };
    let trees = Trees { all, old };
    lay_proof(records, heads, state, name, epoch, kind, &trees, out)
}

// Tree *all*, and then the other.
pub(crate) fn write_shaped(
    records: &[u8],
    heads: &[u8],
    state: State,
    name: &[u8],
    epoch: u32,
    kind: Kind,
    out: &mut [u8],
) -> WriteAnswer
    requires { Sound records.now heads.now state epoch × (length name.now ≤ 64) }
    ensures { record { answer = result; out = out.new } ≡ rest_by kind records.now heads.now state out.old name.now epoch }
{
    let count = state.count as usize;
    let mut row = row();
    let mut slots = slots();
    let Some(all) = grow(records, count, epoch, Which::OfAll, &mut row, &mut slots) else {
        return Err(Returned {
            refusal: Refusal::Clash,
            state,
        });
    };
    write_beside(records, heads, state, name, epoch, kind, all, out)
}
