// The keys of a name's versions by an epoch, from a record on: "key length, key, opening" for each. A history has those of all its
// records, a lookup that of the last.
ghost use Rattle.std.specs.Prelude.{◌≡◌, ℕ, ◌+◌, ◌<◌, ◌≤◌, length};
ghost use Rattle.paper.specs.Bytes.{pasted};
ghost use Rattle.paper.specs.Shows.{item_field};
ghost use Rattle.paper.specs.Write.{item_of};
ghost use Rattle.record.specs.Places.{record_at, Stands};
ghost use Rattle.path_fields.specs.Written.{Wrote};
ghost use Rattle.front.specs.Front.{items_from, item_bytes};

use own::is_own;
use ranges::put;
use record::{key_at, opening_at};

// How many bytes the key of record i takes.
fn item_size(records: &[u8], i: usize) -> usize
    requires { Stands records.now i }
    ensures { result ≡ length (item_field.bytes (item_of (record_at records.now i))) }
{
    33 + key_at(records, i).len()
}

// Lays a key, byte by byte: where the compiler does not know the length, the library's copy calls `memmove`, which the archive for C
// would have from outside for this alone.
fn lay_key(key: &[u8], out: &mut [u8], at: usize)
    requires { at + length key.now ≤ length out.old }
    ensures { out.new ≡ pasted out.old at key.now }
{
    for i in 0..key.len() {
        out[at + i] = key[i];
    }
}

// Writes the key of record i at `at`: the place behind it.
fn write_item(records: &[u8], i: usize, out: &mut [u8], at: usize) -> usize
    requires { Stands records.now i × (at + length (item_field.bytes (item_of (record_at records.now i))) ≤ length out.old) }
    ensures { Wrote out.old at (item_field.bytes (item_of (record_at records.now i))) out.new result }
{
    let key = key_at(records, i);
    let n = key.len();
    out[at] = n as u8;
    lay_key(key, out, at + 1);
    put(out, at + 1 + n, &opening_at(records, i));
    at + 33 + n
}

// How many bytes the keys take.
pub fn items_size(records: &[u8], count: usize, from: usize, name: &[u8], epoch: u32) -> usize
    requires { ((i : ℕ) → i < count → Stands records.now i) × (from ≤ count) }
    ensures { result ≡ length (item_bytes (items_from records.now name.now epoch from count)) }
{
    let mut size = 0;
    for i in from..count {
        if is_own(records, i, name, epoch) {
            size += item_size(records, i);
        }
    }
    size
}

// Writes the keys from `at` on: the place behind them.
pub fn write_items(
    records: &[u8],
    count: usize,
    from: usize,
    name: &[u8],
    epoch: u32,
    out: &mut [u8],
    at: usize,
) -> usize
    requires { ((i : ℕ) → i < count → Stands records.now i) × (from ≤ count) × (at + length (item_bytes (items_from records.now name.now epoch from count)) ≤ length out.old) }
    ensures { Wrote out.old at (item_bytes (items_from records.now name.now epoch from count)) out.new result }
{
    let mut next = at;
    for i in from..count {
        if is_own(records, i, name, epoch) {
            next = write_item(records, i, out, next);
        }
    }
    next
}
