// The layout of a lookup or history proof: header, head and number in front, then keys, then paths, and nothing behind them.
ghost use Rattle.std.specs.Prelude.{◌≡◌, ◌≤◌, length};
ghost use Rattle.paper.specs.Layout.{times};
ghost use Rattle.paper.specs.Fields.{path_field};
ghost use Rattle.fields.specs.After.{after_at};
ghost use Rattle.shown.specs.Form.{front_at, first_path};

use crate::Front;
use crate::items::items_after;
use path_form::parse;
use ranges::same;
use words::{read16, read32};

// "Each proof begins "VKD", 16-bit version 1, kind 1", the head's 100 bytes, and a number from 0 to 1,023.
// The kind is the header's byte: `front_at` is over every byte, and an enum would ask more of callers.
pub fn read_front(s: &[u8], kind: u8) -> Option<Front>
    ensures { result ≡ front_at kind s.now }
{
    if s.len() < 108 {
        return None;
    }
    let opens = [0x56u8, 0x4B, 0x44, 0, 1, kind];
    if !same(&s[..6], &opens) {
        return None;
    }
    let number = read16(s, 106);
    if 1023 < number {
        return None;
    }
    let epoch = read32(s, 6);
    Some(Front { number, epoch })
}

// The place behind m paths.
fn paths_after(s: &[u8], at: usize, m: usize) -> Option<usize>
    requires { at ≤ length s.now }
    ensures { result ≡ after_at (times m path_field) s.now at }
{
    let mut place = at;
    for _ in 0..m {
        place = parse(s, place)?.next;
    }
    Some(place)
}

// Behind a front that is in layout: the place of the first path, if k keys stand there, then m paths, and nothing behind them.
pub fn first_path(s: &[u8], k: usize, m: usize) -> Option<usize>
    requires { 108 ≤ length s.now }
    ensures { result ≡ first_path k m s.now }
{
    let start = items_after(s, 108, k)?;
    let last = paths_after(s, start, m)?;
    if last != s.len() {
        return None;
    }
    Some(start)
}
