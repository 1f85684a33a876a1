// The form of a path: "count m (2 bytes, 1 to 256); m steps of prefix length (2) and sibling digest (32); end kind (1)".
ghost use Rattle.std.specs.Prelude.{◌≡◌, ◌≤◌, length, drop};
ghost use Rattle.path_form.specs.Parsed.{count_at, path_at};
ghost use Rattle.path_form.specs.Places.{rising};

use crate::ends::{Ended, end_at};
use crate::{End, Path};
use words::read16;

// "count m (2 bytes, 1 to 256)"
fn count_at(s: &[u8], at: usize) -> Option<usize>
    ensures { result ≡ count_at s.now at }
{
    if s.len() < 2 || s.len() - 2 < at {
        return None;
    }
    let count = read16(s, at) as usize;
    if count < 1 || 256 < count {
        return None;
    }
    Some(count)
}

// "m steps", whose "Lengths begin at 0, rise strictly and are at most 255": each is from `low` to `high`.
fn rises(s: &[u8], at: usize, m: usize) -> bool
    requires { (at ≤ length s.now) × (m ≤ 256) }
    ensures { result ≡ rising m (drop at s.now) }
{
    if s.len() - at < 34 * m {
        return false;
    }
    let after = at + 34 * m;
    let (steps, _) = s[at..after].as_chunks::<34>();
    let mut low = 0;
    let mut high = 0;
    for step in steps {
        let length = read16(step, 0);
        if length < low || high < length {
            return false;
        }
        low = length + 1;
        high = 255;
    }
    true
}

// The path that stands in `s` from `at` on.
pub fn parse(s: &[u8], at: usize) -> Option<Path>
    ensures { result ≡ path_at s.now at }
{
    let count = count_at(s, at)?;
    let steps = at + 2;
    if !rises(s, steps, count) {
        return None;
    }
    let Ended {
        end,
        commitment,
        next,
    } = end_at(s, steps + 34 * count, count)?;
    Some(Path {
        steps,
        count,
        end,
        commitment,
        next,
    })
}
