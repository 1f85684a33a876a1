// The records of a table by their numbers: the one view through which everything above reads them. "A record has 168 bytes: name
// length 1, name 64, version 2, epoch 4, key length 1, key 64, opening 32, unused bytes zero." Nothing is copied but numbers and
// openings.
#![tactic(auto)]

ghost use Rattle.std.specs.Prelude.{◌≡◌, ◌+◌, ◌*◌, ◌≤◌, length, take, drop, get_or};
ghost use Rattle.ranges.specs.Part.{PartAt};
ghost use Rattle.record.specs.Places.{record_at, Stands};

use ranges::digest_at;
use words::{read16, read32};

// A length and behind it so many of 64 bytes, at a place: the bytes, as a part of the slice.
pub fn filled_at(s: &[u8], at: usize) -> &[u8]
    requires { (at + 65 ≤ length s.now) × (get_or s.now at 0 ≤ 64) }
    ensures { PartAt s.entry (at + 1) (take (get_or s.now at 0) (take 64 (drop (at + 1) s.now))) result }
{
    let start = at + 1;
    let after = start + (s[at] as usize);
    &s[start..after]
}

// The name of record i, as a part of the table.
pub fn name_at(s: &[u8], i: usize) -> &[u8]
    requires { Stands s.now i }
    ensures { PartAt s.entry (i * 168 + 1) (record_at s.now i).name result }
{
    filled_at(s, i * 168)
}

// The version of record i. A function for each number: their widths differ, and `words` says why that is two functions.
pub fn version_at(s: &[u8], i: usize) -> u16
    requires { Stands s.now i }
    ensures { result ≡ (record_at s.now i).version }
{
    read16(s, i * 168 + 65)
}

// The epoch of record i.
pub fn epoch_at(s: &[u8], i: usize) -> u32
    requires { Stands s.now i }
    ensures { result ≡ (record_at s.now i).epoch }
{
    read32(s, i * 168 + 67)
}

// The key of record i, as a part of the table.
pub fn key_at(s: &[u8], i: usize) -> &[u8]
    requires { Stands s.now i }
    ensures { PartAt s.entry (i * 168 + 72) (record_at s.now i).key result }
{
    filled_at(s, i * 168 + 71)
}

// The opening of record i.
pub fn opening_at(s: &[u8], i: usize) -> [u8; 32]
    requires { Stands s.now i }
    ensures { result ≡ (record_at s.now i).opening }
{
    digest_at(s, i * 168 + 136)
}
