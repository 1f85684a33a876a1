// The writers of lookup and history proofs: "Writers test 1, 11, 10, 7, 8." A lookup and a history differ in their keys and in the
// paths that they ask; all else is one. The two trees of the epoch are stored once, and nothing is hashed for a path but its label.
#![tactic(auto)]

mod before;
mod found;
mod judge;
mod tests;
mod trees;

ghost use Rattle.std.specs.Prelude.{◌≡◌};
ghost use Rattle.paper.specs.Labelling.{plain};
ghost use Rattle.paper.specs.Write as W;

use paper::{State, WriteAnswer};
use plan::Kind;
use tests::write_proof;

// "A lookup at epoch t answers the name's last version with epoch at most t, or version 0"
pub fn write_lookup(
    records: &[u8],
    heads: &[u8],
    state: State,
    name: &[u8],
    epoch: u32,
    out: &mut [u8],
) -> WriteAnswer
    ensures { record { answer = result; out = out.new } ≡ W.write_lookup plain records.now heads.now state out.old name.now epoch }
{
    write_proof(records, heads, state, name, epoch, Kind::Lookup, out)
}

// "a history answers all its versions by then."
pub fn write_history(
    records: &[u8],
    heads: &[u8],
    state: State,
    name: &[u8],
    epoch: u32,
    out: &mut [u8],
) -> WriteAnswer
    ensures { record { answer = result; out = out.new } ≡ W.write_history plain records.now heads.now state out.old name.now epoch }
{
    write_proof(records, heads, state, name, epoch, Kind::History, out)
}
