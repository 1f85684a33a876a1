// The head of the new epoch, over both its trees. The tables are lent to be read.
ghost use Rattle.std.specs.Prelude.{◌≡◌, ◌++◌, suc, ◌+◌, ◌*◌, ◌^◌, ◌≤◌, ◌<◌, length};
ghost use Rattle.record.specs.Places.{records_in};
ghost use Rattle.new_epoch.specs.Headed.{Plantable, Headed};

use crate::plant::plant;
use heads::head;
use paper::{Refusal, Which};
use ranges::digest_at;

// "7 CLASH", or the head of the new epoch over both its trees.
pub fn head_of(
    records: &[u8],
    count: usize,
    fresh: &[u8],
    n: usize,
    heads: &[u8],
    epoch: u32,
) -> Result<[u8; 32], Refusal>
    requires { Plantable records.now count fresh.now n × ((epoch + 2) * 32 ≤ length heads.now) × (suc epoch < 2 ^ 32) }
    ensures { Headed heads.now epoch (records_in count records.now ++ records_in n fresh.now) result }
{
    let Some(all) = plant(records, count, fresh, n, epoch + 1, Which::OfAll) else {
        return Err(Refusal::Clash);
    };
    let Some(old) = plant(records, count, fresh, n, epoch + 1, Which::OfOld) else {
        return Err(Refusal::Clash);
    };
    let previous = digest_at(heads, epoch as usize * 32);
    Ok(head(epoch + 1, &previous, &all, &old))
}
