// The records that a batch becomes, laid out before anything is written to the table.
ghost use Rattle.std.specs.Prelude.{◌≡◌, suc, ◌+◌, ◌*◌, ◌≤◌, length};
ghost use Rattle.paper.specs.Bytes.{pasted};
ghost use Rattle.batch.specs.Places.{Lies};
ghost use Rattle.new_epoch.specs.Prepared.{record_over, Ready, Next, Prepared};

use batch::name_in;
use ranges::put;
use table::{Index, last_version};
use words::{write16, write32};

// Lays an update with its version and epoch over the new records, at a place.
fn lay(update: &[u8], version: u16, epoch: u32, fresh: &mut [u8], at: usize)
    requires { (162 ≤ length update.now) × (at + 168 ≤ length fresh.old) }
    ensures { fresh.new ≡ pasted fresh.old at (record_over update.now version epoch) }
{
    put(fresh, at, &update[..65]);
    write16(fresh, at + 65, version);
    write32(fresh, at + 67, epoch);
    put(fresh, at + 71, &update[65..162]);
}

// "Each name takes its next version, from 1.": lays the record that update i becomes, unless its name is at 1,023 already.
fn lay_next(index: &Index, batch: &[u8], i: usize, epoch: u32, fresh: &mut [u8]) -> bool
    requires { Ready index.now batch.now × Lies batch.now i × (suc i * 168 ≤ length fresh.old) }
    ensures { Next index.now.records.now index.now.count batch.now i epoch fresh.old fresh.new result }
{
    let last = last_version(index, name_in(batch, i));
    if 1023 <= last {
        return false;
    }
    let from = i * 162;
    lay(&batch[from..], last + 1, epoch, fresh, i * 168);
    true
}

// The records that n updates become, at the start of `fresh`: whether no name is at 1,023 already. Those before such a name are laid.
pub fn prepare(index: &Index, batch: &[u8], n: usize, epoch: u32, fresh: &mut [u8]) -> bool
    requires { Ready index.now batch.now × (length batch.now ≡ n * 162) × (n * 168 ≤ length fresh.old) }
    ensures { Prepared index.now.records.now index.now.count epoch batch.now n fresh.old fresh.new result }
{
    // a `for`: `all` would be no plainer, since each turn writes `fresh`
    for i in 0..n {
        if !lay_next(index, batch, i, epoch, fresh) {
            return false;
        }
    }
    true
}
