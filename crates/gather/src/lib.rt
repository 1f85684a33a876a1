// The leaves that records give the trees of an epoch, one behind the other in a row of entries: label 32, commitment 32,
// epoch 4. Labels and commitments are hashed here and nowhere else in the server. The table is lent whole, and
// "the state is the record count and the current epoch", so the count stands beside it; a row is filled from n entries on.
#![tactic(auto)]

ghost use Rattle.std.specs.Prelude.{[], ◌∷◌, ◌+◌, ◌*◌, ◌≤◌, length};
ghost use Rattle.paper.specs.Bits.{bits_of};
ghost use Rattle.paper.specs.Strings.{leaf};
ghost use Rattle.paper.specs.Level.{entry_size};
ghost use Rattle.paper.specs.declared.Which.TheVariants.{OfAll, OfOld};
ghost use Rattle.record.specs.Places.{record_at, records_in, Stands};
ghost use Rattle.gather.specs.Gathered.{leaves_of, leaves_by, Gained, Room};

use bits::marker_of;
use labels::{commitment, label};
use paper::Which;
use ranges::put;
use record::{epoch_at, key_at, name_at, opening_at, version_at};
use words::write32;

// Lays a leaf over entry n of the row.
fn put_leaf(row: &mut [u8], n: usize, label: [u8; 32], commitment: [u8; 32], epoch: u32) -> usize
    requires { (n + 1) * entry_size ≤ length row.old }
    ensures { Gained row.old row.new n result (leaf (bits_of label) commitment epoch ∷ []) }
{
    let at = n * 68;
    put(row, at, &label);
    put(row, at + 32, &commitment);
    write32(row, at + 64, epoch);
    n + 1
}

// "tree *all* gains the leaf of version v with its commitment; if v is 2^j it also gains marker j."
fn add_all(records: &[u8], i: usize, row: &mut [u8], n: usize) -> usize
    requires { Stands records.now i × ((n + 2) * entry_size ≤ length row.old) }
    ensures { Gained row.old row.new n result (leaves_of OfAll (record_at records.now i)) }
{
    let name = name_at(records, i);
    let version = version_at(records, i);
    let epoch = epoch_at(records, i);
    let opening = opening_at(records, i);
    let m = put_leaf(
        row,
        n,
        label(1, version, name),
        commitment(&opening, key_at(records, i)),
        epoch,
    );
    let j = marker_of(version as u32);
    if 1u32 << j != version as u32 {
        return m;
    }
    put_leaf(row, m, label(2, j as u16, name), [0u8; 32], epoch)
}

// "Tree *old* gains version v-1 if v is above 1."
fn add_old(records: &[u8], i: usize, row: &mut [u8], n: usize) -> usize
    requires { Stands records.now i × ((n + 2) * entry_size ≤ length row.old) }
    ensures { Gained row.old row.new n result (leaves_of OfOld (record_at records.now i)) }
{
    let version = version_at(records, i);
    if version <= 1 {
        return n;
    }
    put_leaf(
        row,
        n,
        label(1, version - 1, name_at(records, i)),
        [0u8; 32],
        epoch_at(records, i),
    )
}

// The leaves of record i in either tree of an epoch: none if the record is later.
fn add(records: &[u8], i: usize, epoch: u32, which: Which, row: &mut [u8], n: usize) -> usize
    requires { Stands records.now i × ((n + 2) * entry_size ≤ length row.old) }
    ensures { Gained row.old row.new n result (leaves_by which epoch (record_at records.now i ∷ [])) }
{
    if epoch < epoch_at(records, i) {
        return n;
    }
    match which {
        Which::OfAll => add_all(records, i, row, n),
        Which::OfOld => add_old(records, i, row, n),
    }
}

// "The tree of epoch t has the leaves with epoch at most t.": those of the counted records, behind the n that are there.
pub fn gather(
    records: &[u8],
    count: usize,
    epoch: u32,
    which: Which,
    row: &mut [u8],
    n: usize,
) -> usize
    requires { Room records.now row.old count n }
    ensures { Gained row.old row.new n result (leaves_by which epoch (records_in count records.now)) }
{
    let mut m = n;
    // a `for`: a fold would be no plainer, since each turn writes the lent row
    for i in 0..count {
        m = add(records, i, epoch, which, row, m);
    }
    m
}
