// The order of a proof's paths: how many paths a lookup and a history have, what the i-th of them is asked to show, and the label of a
// place. Writers go through the paths by number and need no list of them; checkers ask how many there are. But for the label, which is
// that of a short name, each function is total: no caller has a bound to show.
#![tactic(auto)]

mod history;
mod lookup;

ghost use Rattle.std.specs.Prelude.{◌≡◌, true, false, ◌≤◌, length};
ghost use Rattle.plan.specs.Asked.{asked_at, asked_of, label_of};
ghost use Rattle.plan.specs.Kinds.{kind_number, keys_in};

pub use history::{history_asked, history_paths, markers_by, markers_of};
pub use lookup::{lookup_asked, lookup_paths};

// A place in the trees: version i in *all*, version i in *old*, marker j in *all*.
#[derive(Clone, Copy)]
pub enum Place {
    InAll(u16),
    InOld(u16),
    AsMarker(u16),
}

impl Place {
    // "Kind 1 is a version, kind 2 a marker.": the label of a place.
    pub fn label(self, name: &[u8]) -> [u8; 32]
        requires { length name.now ≤ 64 }
        ensures { result ≡ label_of name.now self }
    {
        match self {
            Place::InAll(i) | Place::InOld(i) => labels::label(1, i, name),
            Place::AsMarker(j) => labels::label(2, j, name),
        }
    }
}

// What a path is to show of a place: that its label is there, or that it is not.
#[derive(Clone, Copy)]
pub struct Asked {
    pub place: Place,
    pub there: bool,
}

// The two proofs that have paths, by their numbers: "kind 1 (1 lookup, 2 history, 3 audit)".
#[derive(Clone, Copy)]
pub enum Kind {
    Lookup = 1,
    History = 2,
}

impl Kind {
    pub fn number(self) -> u8
        ensures { result ≡ kind_number self }
    {
        self as u8
    }
}

// A proof's paths: those of the lookup of version `number`, or of a history of `number` versions, at an epoch.
#[derive(Clone, Copy)]
pub struct Plan {
    pub kind: Kind,
    pub number: u16,
    pub epoch: u32,
}

impl Plan {
    // How many keys there are. Of a lookup, "If 0: one path .. Otherwise key length 1, key, opening"; a history has one for each version.
    pub fn keys(self) -> usize
        ensures { result ≡ keys_in self.kind self.number }
    {
        match self.kind {
            Kind::Lookup => if self.number == 0 { 0 } else { 1 },
            Kind::History => self.number as usize,
        }
    }

    // How many paths there are.
    pub fn paths(self) -> usize
        ensures { result ≡ length (asked_of self) }
    {
        match self.kind {
            Kind::Lookup => lookup_paths(self.number),
            Kind::History => history_paths(self.number, self.epoch),
        }
    }

    // What the i-th of them is asked to show, from 0. Past the last it is version 0 absent, for which no proof asks.
    pub fn asked(self, i: usize) -> Asked
        ensures { result ≡ asked_at (asked_of self) i }
    {
        match self.kind {
            Kind::Lookup => lookup_asked(self.number, i),
            Kind::History => history_asked(self.number, self.epoch, i),
        }
    }
}

fn present(place: Place) -> Asked
    ensures { result ≡ record { place = place; there = true } }
{
    Asked { place, there: true }
}

fn missing(place: Place) -> Asked
    ensures { result ≡ record { place = place; there = false } }
{
    Asked {
        place,
        there: false,
    }
}
