// A lookup's paths. "If 0: one path, version 1 absent from *all*. Otherwise .. paths: version v present in *all*, v absent from *old*,
// marker floor(log2 v) present in *all*."
ghost use Rattle.std.specs.Prelude.{◌≡◌, length};
ghost use Rattle.paper.specs.Lookup.{lookup_asked};
ghost use Rattle.plan.specs.Asked.{asked_at};

use crate::{Asked, Place, missing, present};

// How many paths the lookup of version v has.
pub fn lookup_paths(v: u16) -> usize
    ensures { result ≡ length (lookup_asked v) }
{
    if v == 0 { 1 } else { 3 }
}

// What the i-th path is asked to show, from 0. Past the last it is version 0 absent, for which no proof asks.
pub fn lookup_asked(v: u16, i: usize) -> Asked
    ensures { result ≡ asked_at (lookup_asked v) i }
{
    if lookup_paths(v) <= i {
        return missing(Place::InAll(0));
    }
    if v == 0 {
        return missing(Place::InAll(1));
    }
    if i == 0 {
        return present(Place::InAll(v));
    }
    if i == 1 {
        return missing(Place::InOld(v));
    }
    present(Place::AsMarker(bits::marker_of(v as u32) as u16))
}
