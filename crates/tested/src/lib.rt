// What a writer tests before it grows a tree: "1 INPUT", "11 TABLE" and "10 EPOCH".
#![tactic(auto)]

ghost use Rattle.std.specs.Prelude.{◌≡◌};
ghost use Rattle.tested.specs.Tested.{input_good, Tested};

use bounds::{heads_within, records_within};
use paper::{Refusal, State};
use table::in_shape;

// "1 INPUT": the bounds of both tables, and what the writer asks of its own argument.
#[tactic(auto, unfolding(crate::specs::Tested::input_good))]
fn input_good(records: &[u8], heads: &[u8], good: bool) -> bool
    ensures { result ≡ input_good records.now heads.now good }
{
    records_within(records) && heads_within(heads) && good
}

// The first test that refuses, if any does. `good` is what the writer asks of its own argument: a name's bounds, or a new epoch
// that is not 0.
pub fn first_tests(
    records: &[u8],
    heads: &[u8],
    state: State,
    epoch: u32,
    good: bool,
) -> Result<(), Refusal>
    ensures { Tested records.now heads.now state epoch good result }
{
    if !input_good(records, heads, good) {
        return Err(Refusal::Input);
    }
    if in_shape(records, heads, state.count, state.epoch).is_none() {
        return Err(Refusal::Table);
    }
    if state.epoch < epoch {
        return Err(Refusal::Epoch);
    }
    Ok(())
}
