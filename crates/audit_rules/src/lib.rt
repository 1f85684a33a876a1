// The rules of an audit's list, tested over the lent bytes: its order, and what each leaf's epoch and commitment must be.
// A list is lent as the place of its first record and their number, and looked at as rows of 99 bytes, a record each.
#![tactic(auto)]

ghost use Rattle.std.specs.Prelude.{◌≡◌, ◌&&◌, ◌+◌, ◌*◌, ◌≤◌, length, take, drop};
ghost use Rattle.paper.specs.Lists.{every};
ghost use Rattle.paper.specs.Audit.{before?, in_order, commitment_in, record_rule};
ghost use Rattle.audit_form.specs.Places.{key_at, record_at, records_at, records_of};

use audit_form::{label_at, rows};
use bits::{first_difference, label_bit};
use paper::Which;
use ranges::all_zero;
use words::{read16, read32};

// Whether one record stands before another, and neither key is a prefix of the other: where the labels first differ both
// keys still have a bit, and the second one's is 1.
fn stands_before(a: &[u8; 99], b: &[u8; 99]) -> bool
    ensures { result ≡ before? (key_at a.now 0) (key_at b.now 0) }
{
    let label = label_at(b, 0);
    let k = first_difference(label_at(a, 0), label);
    k < read16(a, 1).min(read16(b, 1)) as usize && label_bit(label, k)
}

// "Records stand in bit order and none is a prefix of another.": tested of neighbours.
fn in_order(rows: &[[u8; 99]]) -> bool
    ensures { result ≡ in_order (records_of rows.now) }
{
    rows.is_sorted_by(stands_before)
}

// "Leaves of *old* have a zero commitment."
fn commitment_rule(row: &[u8; 99], which: Which) -> bool
    ensures { result ≡ commitment_in which (take 32 (drop 35 row.now)) }
{
    match which {
        Which::OfAll => true,
        Which::OfOld => all_zero(&row[35..67]),
    }
}

// "new leaves bear the new epoch, unchanged leaves an epoch from 1 to the old one": of an opened node nothing is asked.
fn record_rule(row: &[u8; 99], which: Which, old: u32, new: u32) -> bool
    ensures { result ≡ record_rule which old new (record_at row.now 0) }
{
    let kind = row[0];
    if kind == 1 {
        return true;
    }
    if !commitment_rule(row, which) {
        return false;
    }
    let epoch = read32(row, 67);
    if kind == 0 {
        return 1 <= epoch && epoch <= old;
    }
    epoch == new
}

// The rule of each record.
fn each_rule(rows: &[[u8; 99]], which: Which, old: u32, new: u32) -> bool
    ensures { result ≡ every (record_rule which old new) (records_of rows.now) }
{
    rows.iter().all(|row| record_rule(row, which, old, new))
}

// All rules of the list of *all* or of *old*, between an old epoch and a new one.
pub fn list_rules(s: &[u8], at: usize, n: usize, which: Which, old: u32, new: u32) -> bool
    requires { at + n * 99 ≤ length s.now }
    ensures { result ≡ (in_order (records_at s.now at n) && every (record_rule which old new) (records_at s.now at n)) }
{
    let rows = rows(s, at, n);
    in_order(rows) && each_rule(rows, which, old, new)
}
