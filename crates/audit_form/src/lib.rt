// The layout of an audit proof, tested over the lent bytes before anything else is. Nothing is copied: a step hands the
// next one a place in the bytes, or a list's records as rows of them.
#![tactic(auto)]

ghost use Rattle.std.specs.Prelude.{◌≡◌, ◌+◌, ◌*◌, ◌≤◌, length, drop};
ghost use Rattle.paper.specs.Layout.{times, parse, in_layout};
ghost use Rattle.paper.specs.Fields.{prefix_field};
ghost use Rattle.paper.specs.Audit.{leaf_fields, audit_record_field, list_field, audit_field};
ghost use Rattle.fields.specs.After.{after_at};
ghost use Rattle.ranges.specs.Part.{PartAt};
ghost use Rattle.audit_form.specs.Places.{label_at, rows_at};

use bits::prefix_of;
use ranges::{all_zero, same};
use words::{read16, read32};

// "Each proof begins "VKD", 16-bit version 1, kind 1 (1 lookup, 2 history, 3 audit)".
const OPENS: [u8; 6] = [0x56, 0x4B, 0x44, 0, 1, 3];

// The 32 bytes of label or prefix in the record at `at`, as a part of the lent bytes.
pub fn label_at(s: &[u8], at: usize) -> &[u8]
    requires { at + 99 ≤ length s.now }
    ensures { PartAt s.entry (at + 3) (label_at s.now at) result }
{
    let start = at + 3;
    let after = at + 35;
    &s[start..after]
}

// The n records of a list from the one at `at` on, each as its own 99 bytes.
pub fn rows(s: &[u8], at: usize, n: usize) -> &[[u8; 99]]
    requires { at + n * 99 ≤ length s.now }
    ensures { result.now ≡ rows_at s.now at n }
{
    let after = at + n * 99;
    let (rows, _) = s[at..after].as_chunks();
    rows
}

// The fields of a leaf, behind its kind: "leaves have length 256"; "commitment, epoch and 28 zero bytes".
fn leaf_form(row: &[u8; 99]) -> bool
    ensures { result ≡ in_layout (leaf_fields.read (drop 1 row.now)) }
{
    read16(row, 1) == 256 && all_zero(&row[71..])
}

// The prefix of an opened node, behind its kind: "length 1 to 255", and "zero bits past a prefix", which are there if
// cutting the prefix changes nothing. Its two digests are any bytes.
fn prefix_form(row: &[u8; 99]) -> bool
    ensures { result ≡ in_layout (prefix_field.read (drop 1 row.now)) }
{
    let length = read16(row, 1);
    if length < 1 || 255 < length {
        return false;
    }
    let prefix = label_at(row, 0);
    same(&prefix_of(prefix, length as usize), prefix)
}

// "records of 99 bytes: kind, length 2, label or prefix 32, then .."
fn record_form(row: &[u8; 99]) -> bool
    ensures { result ≡ in_layout (audit_record_field.read row.now) }
{
    match row[0] {
        0 | 2 => leaf_form(row),
        1 => prefix_form(row),
        _ => false,
    }
}

// The place behind n records.
fn after_records(s: &[u8], at: usize, n: usize) -> Option<usize>
    requires { (at ≤ length s.now) × (n ≤ 16384) }
    ensures { result ≡ after_at (times n audit_record_field) s.now at }
{
    if s.len() - at < n * 99 {
        return None;
    }
    let formed = rows(s, at, n).iter().all(record_form);
    formed.then_some(at + n * 99)
}

// The place behind a list: "a count (4) and records", 0 to 16,384 of them.
fn after_list(s: &[u8], at: usize) -> Option<usize>
    requires { at ≤ length s.now }
    ensures { result ≡ after_at list_field s.now at }
{
    if s.len() - at < 4 {
        return None;
    }
    let count = read32(s, at);
    if 16384 < count {
        return None;
    }
    after_records(s, at + 4, count as usize)
}

// Whether a list ends the bytes: "Nothing may follow the last field."
fn list_ends(s: &[u8], at: usize) -> bool
    requires { at ≤ length s.now }
    ensures { result ≡ in_layout (parse list_field (drop at s.now)) }
{
    match after_list(s, at) {
        Some(end) => end == s.len(),
        None => false,
    }
}

// Whether the bytes are an audit proof: the opening bytes, two heads of 100 bytes, which may be any, and two lists.
pub fn in_layout(proof: &[u8]) -> bool
    ensures { result ≡ in_layout (parse audit_field proof.now) }
{
    if proof.len() < 206 {
        return false;
    }
    if !same(&proof[..6], &OPENS) {
        return false;
    }
    match after_list(proof, 206) {
        Some(old) => list_ends(proof, old),
        None => false,
    }
}
