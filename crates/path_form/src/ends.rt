// The form of a path's end: "end kind (1)", and the fields of each kind. An end holds numbers and the place of its fields.
ghost use Rattle.std.specs.Prelude.{◌≡◌, ℕ, ◌+◌, ◌≤◌, length, drop};
ghost use Rattle.paper.specs.Fields.{end_of, end_field};
ghost use Rattle.path_form.specs.Parsed.{ended_at};
ghost use Rattle.path_form.specs.Places.{prefix_good};

use crate::End;
use bits::prefix_of;
use ranges::digest_at;
use words::{read16, read32};

// An end as it was read from some place on, with the commitment of "this leaf", and the place behind it.
#[derive(Clone, Copy)]
pub struct Ended {
    pub end: End,
    pub commitment: [u8; 32],
    pub next: usize,
}

// "0, this leaf: commitment, epoch.", whatever m is
fn this_leaf(s: &[u8], at: usize) -> Option<Ended>
    requires { at ≤ length s.now }
    ensures { (m : ℕ) → result ≡ ended_at (end_of m 0) s.now at at }
{
    if s.len() - at < 36 {
        return None;
    }
    let epoch = read32(s, at + 32);
    Some(Ended {
        end: End::This { at, epoch },
        commitment: digest_at(s, at),
        next: at + 36,
    })
}

// "1, another leaf: label, commitment, epoch.", whatever m is
fn other_leaf(s: &[u8], at: usize) -> Option<Ended>
    requires { at ≤ length s.now }
    ensures { (m : ℕ) → result ≡ ended_at (end_of m 1) s.now at at }
{
    if s.len() - at < 68 {
        return None;
    }
    let epoch = read32(s, at + 64);
    Some(Ended {
        end: End::Other { at, epoch },
        commitment: [0u8; 32],
        next: at + 68,
    })
}

// "prefix length 2, prefix 32 (bits past the length zero)", "length 1 to 255": such a prefix is its own first bits.
fn prefix_good(s: &[u8], at: usize) -> bool
    requires { at + 34 ≤ length s.now }
    ensures { result ≡ prefix_good (drop at s.now) }
{
    let length = read16(s, at);
    if length < 1 || 255 < length {
        return false;
    }
    let prefix = digest_at(s, at + 2);
    let cut = prefix_of(&prefix, length as usize);
    cut == prefix
}

// "2, another inner node: its 98 bytes after 0x01, length 1 to 255.", whatever m is
fn other_inner(s: &[u8], at: usize) -> Option<Ended>
    requires { at ≤ length s.now }
    ensures { (m : ℕ) → result ≡ ended_at (end_of m 2) s.now at at }
{
    if s.len() - at < 98 {
        return None;
    }
    if !prefix_good(s, at) {
        return None;
    }
    Some(Ended {
        end: End::Off { at },
        commitment: [0u8; 32],
        next: at + 98,
    })
}

// The end of a path of m steps, from its kind on. "3, nothing, only with m = 1."
pub(crate) fn end_at(s: &[u8], at: usize, m: usize) -> Option<Ended>
    requires { at ≤ length s.now }
    ensures { result ≡ ended_at (end_field m) s.now at (at + 1) }
{
    if at == s.len() {
        return None;
    }
    let fields = at + 1;
    match s[at] {
        0 => this_leaf(s, fields),
        1 => other_leaf(s, fields),
        2 => other_inner(s, fields),
        3 if m == 1 => Some(Ended {
            end: End::Nothing,
            commitment: [0u8; 32],
            next: fields,
        }),
        _ => None,
    }
}
