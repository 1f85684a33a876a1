// The first three tests, of which "1 INPUT" asks for a name, and then the trees.
ghost use Rattle.std.specs.Prelude.{◌≡◌};
ghost use Rattle.write_proof.specs.Rest.{written_by};

use crate::trees::write_shaped;
use names::is_name;
use paper::{Returned, State, WriteAnswer};
use plan::Kind;
use tested::first_tests;

pub(crate) fn write_proof(
    records: &[u8],
    heads: &[u8],
    state: State,
    name: &[u8],
    epoch: u32,
    kind: Kind,
    out: &mut [u8],
) -> WriteAnswer
    ensures { record { answer = result; out = out.new } ≡ written_by kind records.now heads.now state out.old name.now epoch }
{
    if let Err(refusal) = first_tests(records, heads, state, epoch, is_name(name)) {
        // the state goes back beside the refusal, which `?` alone would not do
        return Err(Returned { refusal, state });
    }
    write_shaped(records, heads, state, name, epoch, kind, out)
}
