// Whether tables are in shape, and an index over the names of their records, so that the test is not quadratic. The counted
// records are taken in order: each is tested against those before it and then entered into the index.
#![tactic(auto)]

mod follow;
mod index;

ghost use Rattle.std.specs.Prelude.{◌≡◌, ◌*◌, ◌≤◌, length};
ghost use Rattle.paper.specs.Labelling.{plain};
ghost use Rattle.paper.specs.Table.{own_records, last_version};
ghost use Rattle.record.specs.Places.{records_in};
ghost use Rattle.table.specs.Index.{Own};
ghost use Rattle.table.specs.Shape.{Tested};

use follow::all_follow;
pub use index::Index;
use record::version_at;

// The index over the names of the counted records, if the tables are in shape (refusal 11).
pub fn in_shape<'a>(records: &'a [u8], heads: &[u8], count: u32, epoch: u32) -> Option<Index<'a>>
    requires { length records.now ≤ 4096 * 168 }
    ensures { Tested records.now heads.now count epoch result }
{
    let n = count as usize;
    if heads.len() < ((epoch as usize) + 1) * 32 {
        return None;
    }
    if records.len() < n * 168 {
        return None;
    }
    all_follow(records, n, epoch)
}

// The version of a name's last record, or 0.
pub fn last_version(index: &Index, name: &[u8]) -> u16
    requires { Own index.now }
    ensures { result ≡ last_version (own_records plain name.now (records_in index.now.count index.now.records.now)) }
{
    match index.last_of(name) {
        Some(k) => version_at(index.records, k),
        None => 0,
    }
}
