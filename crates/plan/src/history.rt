// A history's paths. "Versions 1 to n present in *all*. Versions 1 to n-1 present in *old*. If n > 0, n absent from *old*. With a =
// floor(log2 n): n+1 to 2^(a+1)-1 absent from *all*; markers 0 to a present; markers a+1 to min(9, floor(log2 T)) absent. For n = 0:
// only markers 0 to min(9, floor(log2 T)), absent."
//
// These are three rows: the versions 1 to n; the numbers 1 to 2^(a+1)-1, up to n asked of *old* and from there on of *all*; and the
// markers from 0 on. With no versions there are 0 markers present, so the second row has 2^0 - 1 numbers, and n = 0 is no case of its own.
ghost use Rattle.std.specs.Prelude.{◌≡◌, length};
ghost use Rattle.paper.specs.History.{history_asked, markers_by};
ghost use Rattle.plan.specs.Asked.{asked_at, markers_of};

use crate::{Asked, Place, missing, present};

// The markers of n versions are those from 0 to floor(log2 n); without a version there is none.
pub fn markers_of(n: u32) -> usize
    ensures { result ≡ markers_of n }
{
    if n == 0 {
        return 0;
    }
    bits::marker_of(n) as usize + 1
}

// The markers that there can be by an epoch are those from 0 to min(9, floor(log2 T)). "For T = 0: no markers are asked absent."
pub fn markers_by(epoch: u32) -> usize
    ensures { result ≡ markers_by epoch }
{
    markers_of(epoch).min(10)
}

// How many paths a history of n versions at an epoch has.
pub fn history_paths(n: u16, epoch: u32) -> usize
    ensures { result ≡ length (history_asked n epoch) }
{
    let marks = markers_of(n as u32);
    let most = markers_by(epoch);
    let numbers = n as usize + ((1usize << marks) - 1);
    numbers + marks.max(most)
}

// What the i-th path is asked to show, from 0. Past the last it is version 0 absent, for which no proof asks.
pub fn history_asked(n: u16, epoch: u32, i: usize) -> Asked
    ensures { result ≡ asked_at (history_asked n epoch) i }
{
    if history_paths(n, epoch) <= i {
        return missing(Place::InAll(0));
    }
    let versions = n as usize;
    if i < versions {
        return present(Place::InAll((i + 1) as u16));
    }
    let k = i - versions + 1;
    if k < versions {
        return present(Place::InOld(k as u16));
    }
    if k == versions {
        return missing(Place::InOld(k as u16));
    }
    let marks = markers_of(n as u32);
    let after = 1usize << marks;
    if k < after {
        return missing(Place::InAll(k as u16));
    }
    let j = k - after;
    if j < marks {
        return present(Place::AsMarker(j as u16));
    }
    missing(Place::AsMarker(j as u16))
}
