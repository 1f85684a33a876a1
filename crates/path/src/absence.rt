// What a path's end shows of a label. "With k the last step's length, another leaf has the label's first k+1 bits and is not the
// label; another inner node is longer than k+1, has those bits and is no prefix of the label.": both say that the label and what
// stands there part behind bit k, and before the bits of what stands there end.
ghost use Rattle.std.specs.Prelude.{◌≡◌, ◌+◌, ◌*◌, ◌≤◌, length, take, drop};
ghost use Rattle.paper.specs.Bits.{bits_of, first_difference};
ghost use Rattle.paper.specs.Path.{last_length};
ghost use Rattle.path_form.specs.Places.{steps_in, path_in, PathStands};
ghost use Rattle.path.specs.Taken.{parting, shown_by};

use crate::Shown;
use bits::first_difference;
use path_form::{End, Path};
use words::read16;

// "k the last step's length", of m steps from `at` on
fn last_length(s: &[u8], at: usize, m: usize) -> usize
    requires { (1 ≤ m) × (at + 34 * m ≤ length s.now) }
    ensures { result ≡ last_length (steps_in m (drop at s.now)) }
{
    read16(s, at + 34 * (m - 1)) as usize
}

// What the n bits that stand at `at` show of a label, under a step of length k.
fn parts(s: &[u8], at: usize, n: usize, label: [u8; 32], k: usize) -> Shown
    requires { at ≤ length s.now }
    ensures { result ≡ parting k n (first_difference (take 32 (drop at s.now)) label) }
{
    let d = first_difference(&s[at..], &label);
    if d <= k || n <= d {
        return Shown::Neither;
    }
    Shown::Absent
}

// What a parsed path shows of a label.
pub(crate) fn shows(s: &[u8], label: [u8; 32], path: Path) -> Shown
    requires { PathStands s.now path }
    ensures { result ≡ shown_by (bits_of label) (path_in s.now path) }
{
    let k = last_length(s, path.steps, path.count);
    match path.end {
        End::This { epoch, .. } => {
            let commitment = path.commitment;
            Shown::Present { commitment, epoch }
        }
        End::Other { at, .. } => parts(s, at, 256, label, k),
        End::Off { at } => parts(s, at + 2, read16(s, at) as usize, label, k),
        End::Nothing => Shown::Absent,
    }
}
