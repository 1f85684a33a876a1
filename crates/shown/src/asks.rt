// What is asked of a place, and whether what a path shows is that.
ghost use Rattle.std.specs.Prelude.{◌≡◌, Some, None};
ghost use Rattle.shown.specs.Terms.{on_terms, met_by};

use crate::{Asked, Terms};
use path::Shown;
use plan::Place;
use ranges::same;

// A place that is asked to be there.
pub fn present(place: Place, commitment: [u8; 32], low: u64, high: u64) -> Asked
    ensures { result ≡ record { place = place; terms = Some (record { commitment = commitment; low = low; high = high }) } }
{
    let terms = Terms {
        commitment,
        low,
        high,
    };
    Asked {
        place,
        terms: Some(terms),
    }
}

// A place that is asked not to be there.
pub fn missing(place: Place) -> Asked
    ensures { result ≡ record { place = place; terms = None } }
{
    Asked { place, terms: None }
}

impl Terms {
    // Whether a leaf that is there has the commitment that is asked for, and an epoch from `low` to `high`.
    fn hold(self, commitment: [u8; 32], epoch: u32) -> bool
        ensures { result ≡ on_terms self commitment epoch }
    {
        let e = epoch as u64;
        same(&commitment, &self.commitment) && self.low <= e && e <= self.high
    }
}

// Whether what a path shows is what is asked.
pub fn met(shows: Shown, asked: Asked) -> bool
    ensures { result ≡ met_by asked shows }
{
    match (shows, asked.terms) {
        (Shown::Present { commitment, epoch }, Some(terms)) => terms.hold(commitment, epoch),
        (Shown::Absent, None) => true,
        _ => false,
    }
}
