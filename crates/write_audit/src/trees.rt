// "two leaves of a needed tree share a label": the trees of the epoch, stored, each in its function's own arrays. Those of the epoch before have
// no leaf that these have not, so they need not be grown to be tested.
ghost use Rattle.std.specs.Prelude.{◌≡◌, ◌≤◌};
ghost use Rattle.paper.specs.Labelling.{plain};
ghost use Rattle.paper.specs.Table.{all_at};
ghost use Rattle.record.specs.Places.{records_in};
ghost use Rattle.forest.specs.Grown.{Clear};
ghost use Rattle.tested.specs.Tested.{Sound};
ghost use Rattle.write_audit.specs.Rest.{rest_at};

use forest::{grow, row, slots};
use lay_audit::lay_audit;
use paper::{Refusal, Returned, State, Which, WriteAnswer};
use tree::StoredTree;

// Tree *old*, and then the proof, where tree *all* is there.
fn write_beside(
    records: &[u8],
    heads: &[u8],
    state: State,
    epoch: u32,
    all: &StoredTree<'_>,
    out: &mut [u8],
) -> WriteAnswer
    requires { Sound records.now heads.now state epoch × (1 ≤ epoch) × Clear (all_at plain epoch (records_in state.count records.now)) all.now }
    ensures { record { answer = result; out = out.new } ≡ rest_at records.now heads.now state out.old epoch }
{
    let count = state.count as usize;
    let mut row = row();
    let mut slots = slots();
    let Some(old) = grow(records, count, epoch, Which::OfOld, &mut row, &mut slots) else {
        return Err(Returned {
            refusal: Refusal::Clash,
            state,
        });
    };
    lay_audit(heads, state, epoch, all, &old, out)
}

// Tree *all*, and then the other.
pub(crate) fn write_shaped(
    records: &[u8],
    heads: &[u8],
    state: State,
    epoch: u32,
    out: &mut [u8],
) -> WriteAnswer
    requires { Sound records.now heads.now state epoch × (1 ≤ epoch) }
    ensures { record { answer = result; out = out.new } ≡ rest_at records.now heads.now state out.old epoch }
{
    let count = state.count as usize;
    let mut row = row();
    let mut slots = slots();
    let Some(all) = grow(records, count, epoch, Which::OfAll, &mut row, &mut slots) else {
        return Err(Returned {
            refusal: Refusal::Clash,
            state,
        });
    };
    write_beside(records, heads, state, epoch, &all, out)
}
