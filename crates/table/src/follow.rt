// The rules that a record obeys behind those before it. Each looks at one earlier record: the one before, and the name's last one.
ghost use Rattle.std.specs.Prelude.{◌≡◌, ℕ, ◌*◌, ◌≤◌, length};
ghost use Rattle.paper.specs.Labelling.{plain};
ghost use Rattle.paper.specs.Table.{follows};
ghost use Rattle.record.specs.Places.{record_at, records_in};
ghost use Rattle.table.specs.Index.{Own};
ghost use Rattle.table.specs.Shape.{epoch_follows, version_follows, Reached, Counted};

use crate::index::Index;
use record::{epoch_at, name_at, version_at};
use record_form::in_form;

// "epochs lie between 1 and the current one and never fall": those before record i never fell, so the last of them decides.
fn in_order(s: &[u8], i: usize, epoch: u32) -> bool
    requires { Reached s.now i epoch }
    ensures { result ≡ epoch_follows epoch (records_in i s.now) (record_at s.now i) }
{
    let e = epoch_at(s, i);
    if e < 1 {
        return false;
    }
    if epoch < e {
        return false;
    }
    if i == 0 {
        return true;
    }
    epoch_at(s, i - 1) <= e
}

// "each name's versions run 1, 2, 3 with rising epochs": the name's last record in the index decides of the next one.
fn runs_on(index: &Index) -> bool
    requires { (epoch : ℕ) × Reached index.now.records.now index.now.count epoch × Own index.now }
    ensures { result ≡ version_follows (records_in index.now.count index.now.records.now) (record_at index.now.records.now index.now.count) }
{
    let s = index.records;
    let i = index.count;
    let version = version_at(s, i) as u32;
    let Some(k) = index.last_of(name_at(s, i)) else {
        return version == 1;
    };
    if version != (version_at(s, k) as u32) + 1 {
        return false;
    }
    epoch_at(s, k) < epoch_at(s, i)
}

// Whether the next record obeys the rules behind those in the index.
fn does_follow(index: &Index, epoch: u32) -> bool
    requires { Reached index.now.records.now index.now.count epoch × Own index.now }
    ensures { result ≡ follows plain epoch (records_in index.now.count index.now.records.now) (record_at index.now.records.now index.now.count) }
{
    in_order(index.records, index.count, epoch) && runs_on(index)
}

// The index over the names of the first n records, if they are in layout and in shape.
pub(crate) fn all_follow(s: &[u8], n: usize, epoch: u32) -> Option<Index<'_>>
    requires { (n * 168 ≤ length s.now) × (n ≤ 4096) }
    ensures { Counted s.now n epoch result }
{
    let mut index = Index::new(s);
    // a `for`: a fold would be no plainer, since each turn asks the index and enters its record
    for i in 0..n {
        if !in_form(s, i) {
            return None;
        }
        if !does_follow(&index, epoch) {
            return None;
        }
        index.enter();
    }
    Some(index)
}
