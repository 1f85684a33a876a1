// The tests of publishing before the last one, in their order, and the new records.
ghost use Rattle.std.specs.Prelude.{◌≡◌, ◌&&◌, ◌+◌, ◌*◌, ◌≤◌, leb, length};
ghost use Rattle.table.specs.Index.{Own};
ghost use Rattle.table.specs.Shape.{Shaped};
ghost use Rattle.publish.specs.Weighed.{input_good, Good, Tested};

use batch::{in_layout, no_name_twice};
use bounds::{batch_within, heads_within, records_within};
use new_epoch::prepare;
use paper::{Refusal, State};
use table::{Index, in_shape};

// "1 INPUT": the bounds of both tables and of the batch, and the layout of each update.
fn input_good(records: &[u8], heads: &[u8], batch: &[u8]) -> bool
    ensures { result ≡ input_good records.now heads.now batch.now }
{
    if !records_within(records) {
        return false;
    }
    if !heads_within(heads) {
        return false;
    }
    if !batch_within(batch) {
        return false;
    }
    in_layout(batch, batch.len() / 162)
}

// "6 FULL": whether n records and a head find room.
fn has_room(records: &[u8], heads: &[u8], state: State, n: usize) -> bool
    requires { n ≤ 256 }
    ensures { result ≡ (leb ((state.count + n) * 168) (length records.now) && leb ((state.epoch + 2) * 32) (length heads.now)) }
{
    if records.len() < (state.count as usize + n) * 168 {
        return false;
    }
    (state.epoch as usize + 2) * 32 <= heads.len()
}

// "9, 6": the first that refuses the batch, or the new records at the start of `fresh`.
fn lay_out(
    index: &Index,
    heads: &[u8],
    state: State,
    batch: &[u8],
    fresh: &mut [u8],
) -> Result<(), Refusal>
    requires { Good index.now.records.now heads.now batch.now × Shaped index.now.records.now heads.now state.count state.epoch × Own index.now × (index.now.count ≡ state.count) × (length fresh.old ≡ 256 * 168) }
    ensures { Tested index.now.records.now heads.now state batch.now fresh.new result }
{
    let n = batch.len() / 162;
    if !no_name_twice(batch, n) {
        return Err(Refusal::Twice);
    }
    if !has_room(index.records, heads, state, n) {
        return Err(Refusal::Full);
    }
    if !prepare(index, batch, n, state.epoch + 1, fresh) {
        return Err(Refusal::Full);
    }
    Ok(())
}

// "1, 11, 9, 6": the first that refuses, or the new records at the start of `fresh`.
pub(crate) fn refusal(
    records: &[u8],
    heads: &[u8],
    state: State,
    batch: &[u8],
    fresh: &mut [u8],
) -> Result<(), Refusal>
    requires { length fresh.old ≡ 256 * 168 }
    ensures { Tested records.now heads.now state batch.now fresh.new result }
{
    if !input_good(records, heads, batch) {
        return Err(Refusal::Input);
    }
    let Some(index) = in_shape(records, heads, state.count, state.epoch) else {
        return Err(Refusal::Table);
    };
    lay_out(&index, heads, state, batch, fresh)
}
