// The writer of audit proofs: "Writers test 1, 11, 10, 7, 8." Of the four trees that the step into an epoch speaks of, the two of the
// epoch itself are grown and stored until their lists are written. The roots of the epoch before come out of the lists.
#![tactic(auto)]

mod trees;

ghost use Rattle.std.specs.Prelude.{◌≡◌};
ghost use Rattle.paper.specs.Labelling.{plain};
ghost use Rattle.paper.specs.Write as W;

use paper::{Returned, State, WriteAnswer};
use tested::first_tests;
use trees::write_shaped;

// The step from the epoch before into this one: "1 INPUT" also where "an audit writer's new epoch is 0".
pub fn write_audit(
    records: &[u8],
    heads: &[u8],
    state: State,
    epoch: u32,
    out: &mut [u8],
) -> WriteAnswer
    ensures { record { answer = result; out = out.new } ≡ W.write_audit plain records.now heads.now state out.old epoch }
{
    if let Err(refusal) = first_tests(records, heads, state, epoch, 1 <= epoch) {
        // the state goes back beside the refusal, which `?` alone would not do
        return Err(Returned { refusal, state });
    }
    write_shaped(records, heads, state, epoch, out)
}
