// The layout of a record, tested in the table.
#![tactic(auto)]

ghost use Rattle.std.specs.Prelude.{◌≡◌, suc, ◌+◌, ◌*◌, ◌≤◌, length, drop};
ghost use Rattle.paper.specs.Layout.{in_layout};
ghost use Rattle.paper.specs.Table.{filled_field, record_field};

use names::is_name;
use ranges::all_zero;
use record::name_at;
use words::read16;

// "name length 1, name 64", "key length 1, key 64", "unused bytes zero": a length of 1 to 64, and zeros behind so many bytes.
pub fn filled(s: &[u8], at: usize) -> bool
    requires { at + 65 ≤ length s.now }
    ensures { result ≡ in_layout (filled_field.read (drop at s.now)) }
{
    let n = s[at] as usize;
    if n < 1 {
        return false;
    }
    if 64 < n {
        return false;
    }
    let start = at + 1 + n;
    let after = at + 65;
    all_zero(&s[start..after])
}

// Whether record i is in layout. Its epoch and its opening are any bytes.
pub fn in_form(s: &[u8], i: usize) -> bool
    requires { suc i * 168 ≤ length s.now }
    ensures { result ≡ in_layout (record_field.read (drop (i * 168) s.now)) }
{
    let at = i * 168;
    if !filled(s, at) {
        return false;
    }
    if !filled(s, at + 71) {
        return false;
    }
    let version = read16(s, at + 65);
    if version < 1 {
        return false;
    }
    if 1023 < version {
        return false;
    }
    is_name(name_at(s, i))
}
