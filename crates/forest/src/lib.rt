// Either tree of an epoch, stored so that paths can be written from it: the leaves of the counted records are gathered into a lent
// row, brought into bit order there, and the digests below the root are kept in lent slots.
#![tactic(auto)]

ghost use Rattle.std.specs.Prelude.{◌≡◌, length, replicate};
ghost use Rattle.record.specs.Places.{records_in};
ghost use Rattle.gather.specs.Gathered.{leaves_by};
ghost use Rattle.forest.specs.Grown.{Ground, Grows};

use arrange::arrange;
use gather::gather;
use leaf_row::leaves_of;
use paper::Which;
use tree::{Children, StoredTree};

// Both trees of an epoch.
#[derive(Clone, Copy)]
pub struct Trees<'a> {
    pub all: StoredTree<'a>,
    pub old: StoredTree<'a>,
}

// Room for the leaves of a tree, two for each of 4,096 records.
pub fn row() -> [u8; 557056]
    ensures { result ≡ replicate 557056 0 }
{
    [0u8; 557056]
}

// Room for its slots.
pub fn slots() -> [Children; 8192]
    ensures room { length result ≡ 8192 }
    ensures blank { result ≡ replicate 8192 (record { left = replicate 32 0; right = replicate 32 0 }) }
{
    [Children {
        left: [0u8; 32],
        right: [0u8; 32],
    }; 8192]
}

// "The tree of epoch t has the leaves with epoch at most t.": tree *old* or tree *all*, where no two of its leaves share a label. A record
// gives either of them two leaves at most, for which the row and the slots have room.
pub fn grow<'a>(
    records: &[u8],
    count: usize,
    epoch: u32,
    which: Which,
    row: &'a mut [u8],
    slots: &'a mut [Children],
) -> Option<StoredTree<'a>>
    requires { Ground records.now count row.old slots.old }
    ensures { Grows (leaves_by which epoch (records_in count records.now)) result }
{
    let n = gather(records, count, epoch, which, row, 0);
    let size = n * 68;
    let leaves = leaves_of(&mut row[..size]);
    if !arrange(leaves) {
        return None;
    }
    Some(StoredTree::store(leaves, &mut slots[..n]))
}
