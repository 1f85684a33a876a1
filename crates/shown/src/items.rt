// The keys of a proof, one behind the other: "key length, key, opening".
ghost use Rattle.std.specs.Prelude.{◌≡◌, ◌≤◌, length};
ghost use Rattle.paper.specs.Layout.{times};
ghost use Rattle.paper.specs.Shows.{item_field};
ghost use Rattle.fields.specs.After.{after_at};
ghost use Rattle.shown.specs.Form.{ItemStands, commitment_in};

use ranges::digest_at;

// The place behind the item at `at`: "key | 1 to 64 bytes", "opening | 32 bytes".
pub fn item_after(s: &[u8], at: usize) -> Option<usize>
    requires { at ≤ length s.now }
    ensures { result ≡ after_at item_field s.now at }
{
    if at == s.len() {
        return None;
    }
    let n = s[at] as usize;
    if n < 1 || 64 < n || s.len() - at < 33 + n {
        return None;
    }
    Some(at + 33 + n)
}

// The place behind k items. One function for items and paths would take a closure and the law of what it reads: no plainer than two loops.
pub(crate) fn items_after(s: &[u8], at: usize, k: usize) -> Option<usize>
    requires { at ≤ length s.now }
    ensures { result ≡ after_at (times k item_field) s.now at }
{
    let mut place = at;
    for _ in 0..k {
        place = item_after(s, place)?;
    }
    Some(place)
}

// The commitment to the key of the item at `at`.
pub fn commitment_at(s: &[u8], at: usize) -> [u8; 32]
    requires { ItemStands s.now at }
    ensures { result ≡ commitment_in s.now at }
{
    let key = at + 1;
    let after = key + s[at] as usize;
    let opening = digest_at(s, after);
    labels::commitment(&opening, &s[key..after])
}
