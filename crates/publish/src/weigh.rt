// All tests of publishing in their order, and what it will write. The tables are lent to be read, so nothing is written to them before
// the last test.
ghost use Rattle.std.specs.Prelude.{◌≡◌, ◌*◌, length};
ghost use Rattle.publish.specs.Weighed.{Weighs};

use crate::testing::refusal;
use new_epoch::head_of;
use paper::{Refusal, State};

// "Publishing tests 1, 11, 9, 6, 7.": the first that refuses, or the new head, and the new records at the start of `fresh`.
pub(crate) fn weigh(
    records: &[u8],
    heads: &[u8],
    state: State,
    batch: &[u8],
    fresh: &mut [u8],
) -> Result<[u8; 32], Refusal>
    requires { length fresh.old ≡ 256 * 168 }
    ensures { Weighs records.now heads.now state batch.now fresh.new result }
{
    refusal(records, heads, state, batch, fresh)?;
    head_of(
        records,
        state.count as usize,
        fresh,
        batch.len() / 162,
        heads,
        state.epoch,
    )
}
