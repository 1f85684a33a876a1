// The trees of the new epoch, over the records of the table and the new ones.
ghost use Rattle.std.specs.Prelude.{◌++◌};
ghost use Rattle.record.specs.Places.{records_in};
ghost use Rattle.gather.specs.Gathered.{leaves_by};
ghost use Rattle.level.specs.Rooted.{Roots};
ghost use Rattle.new_epoch.specs.Headed.{Plantable};

use gather::gather;
use leaf_row::leaves_of;
use level::root_of;
use paper::Which;

// Room for 8,192 leaves: a record gives a tree two at most.
fn row() -> [u8; 557056] {
    [0u8; 557056]
}

// The root of either tree of an epoch, where no two of its leaves share a label.
pub(crate) fn plant(
    records: &[u8],
    count: usize,
    fresh: &[u8],
    n: usize,
    epoch: u32,
    which: Which,
) -> Option<[u8; 32]>
    requires { Plantable records.now count fresh.now n }
    ensures { Roots (leaves_by which epoch (records_in count records.now ++ records_in n fresh.now)) result }
{
    let mut row = row();
    let had = gather(records, count, epoch, which, &mut row, 0);
    let m = gather(fresh, n, epoch, which, &mut row, had);
    let size = m * 68;
    root_of(leaves_of(&mut row[..size]))
}
