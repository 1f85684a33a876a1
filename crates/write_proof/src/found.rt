// What is found of the name in the records: "A lookup at epoch t answers the name's last version with epoch at most t, or version 0; a
// history answers all its versions by then."
ghost use Rattle.std.specs.Prelude.{◌≡◌, ℕ, suc, ◌<◌};
ghost use Rattle.record.specs.Places.{Stands};
ghost use Rattle.write_proof.specs.Judged.{version_of, from_by, found};

use own::latest;
use plan::Kind;
use record::version_at;

// From which record on keys are written, and the last version.
#[derive(Clone, Copy)]
pub struct Found {
    pub from: usize,
    pub number: u16,
}

// The version of the name's last record, or 0.
fn number_of(records: &[u8], last: Option<usize>) -> u16
    requires { (k : ℕ) → last ≡ Some k → Stands records.now k }
    ensures { result ≡ version_of records.now last }
{
    match last {
        Some(k) => version_at(records, k),
        None => 0,
    }
}

// A history has the keys of all records, a lookup that of the last one.
fn from_of(last: Option<usize>, kind: Kind) -> usize
    ensures { result ≡ from_by kind last }
{
    match kind {
        Kind::Lookup => last.unwrap_or(0),
        Kind::History => 0,
    }
}

pub(crate) fn find(records: &[u8], count: usize, name: &[u8], epoch: u32, kind: Kind) -> Found
    requires { (i : ℕ) → i < count → Stands records.now i }
    ensures { result ≡ found kind records.now name.now epoch count }
{
    let last = latest(records, count, name, epoch);
    Found {
        from: from_of(last, kind),
        number: number_of(records, last),
    }
}
