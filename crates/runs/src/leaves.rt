// Places of paths behind others, and the epochs of versions, read again from their paths where they are asked of other leaves.
ghost use Rattle.std.specs.Prelude.{◌≡◌, ◌+◌};
ghost use Rattle.runs.specs.Runs.{end_epoch, leaf_at, place_at, epoch_from};

use crate::Leaf;
use path_form::{End, parse};

// The epoch of "this leaf"; the other ends have none.
fn end_epoch(end: End) -> u32
    ensures { result ≡ end_epoch «end» }
{
    match end {
        End::This { epoch, .. } => epoch,
        _ => 0,
    }
}

// The leaf of the path at `at`. Where no path stands, as nowhere among the paths of a proof in layout, both are 0.
pub fn leaf_at(s: &[u8], at: usize) -> Leaf
    ensures { result ≡ leaf_at s.now at }
{
    match parse(s, at) {
        Some(path) => Leaf {
            epoch: end_epoch(path.end),
            next: path.next,
        },
        None => Leaf { epoch: 0, next: 0 },
    }
}

// The place behind k paths from `at` on.
pub fn past(s: &[u8], at: usize, k: usize) -> usize
    ensures { result ≡ place_at s.now at k }
{
    let mut here = at;
    for _ in 0..k {
        here = leaf_at(s, here).next;
    }
    here
}

// The epoch of the leaf of the path that stands behind k others from `first` on.
pub(crate) fn epoch_behind(s: &[u8], first: usize, k: usize) -> u32
    ensures { result ≡ epoch_from s.now first (k + 1) }
{
    leaf_at(s, past(s, first, k)).epoch
}
