// A name's records by an epoch: "A lookup at epoch t answers the name's last version with epoch at most t, or version 0; a history
// answers all its versions by then." The counted records are passed over one by one: the table is lent whole, and
// "the state is the record count and the current epoch", so the count stands beside it.
#![tactic(auto)]

ghost use Rattle.std.specs.Prelude.{◌≡◌, ℕ, ◌<◌, length};
ghost use Rattle.paper.specs.Labelling.{plain};
ghost use Rattle.paper.specs.Write.{versions_by};
ghost use Rattle.record.specs.Places.{records_in, Stands};
ghost use Rattle.table.specs.Index.{last_where};
ghost use Rattle.own.specs.Own.{own_by};

use ranges::same;
use record::{epoch_at, name_at};

// Whether record i is one of the name's, and not later than the epoch.
pub fn is_own(records: &[u8], i: usize, name: &[u8], epoch: u32) -> bool
    requires { Stands records.now i }
    ensures { result ≡ own_by records.now name.now epoch i }
{
    if epoch < epoch_at(records, i) {
        return false;
    }
    same(name_at(records, i), name)
}

// The number of the name's last record by the epoch.
pub fn latest(records: &[u8], count: usize, name: &[u8], epoch: u32) -> Option<usize>
    requires { (i : ℕ) → i < count → Stands records.now i }
    ensures { result ≡ last_where (own_by records.now name.now epoch) count }
{
    // a `for`: over a range from its end the search leaves `find` open, and the library has a law of that for slices alone
    for k in (0..count).rev() {
        if is_own(records, k, name, epoch) {
            return Some(k);
        }
    }
    None
}

// How many records the name has by the epoch.
pub fn versions_by(records: &[u8], count: usize, name: &[u8], epoch: u32) -> usize
    requires { (i : ℕ) → i < count → Stands records.now i }
    ensures { result ≡ length (versions_by plain name.now epoch (records_in count records.now)) }
{
    (0..count)
        .filter(|i| is_own(records, *i, name, epoch))
        .count()
}
