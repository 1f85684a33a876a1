// What a lookup check and a history check share. Each is lent a head, a name and the bytes of a proof. The layout of the whole
// proof is tested before anything is hashed; then its paths are walked (`walks`), each for what is asked of a place.
// A proof is never copied: what is known of it are places in it and numbers.
#![tactic(auto)]

mod asks;
mod items;
mod layout;
mod opened;

pub use asks::{met, missing, present};
pub use items::{commitment_at, item_after};
pub use layout::{first_path, read_front};
pub use opened::head_hashes;
use plan::Place;

// What the 108 bytes of header, head and number say: the number, and the head's epoch.
#[derive(Clone, Copy)]
pub struct Front {
    pub number: u16,
    pub epoch: u32,
}

// On which terms a leaf is accepted: with a commitment, at an epoch from `low` to `high`.
#[derive(Clone, Copy)]
pub struct Terms {
    pub commitment: [u8; 32],
    pub low: u64,
    pub high: u64,
}

// What a path is asked to show of a place: that its label is there, on terms; or that it is not.
#[derive(Clone, Copy)]
pub struct Asked {
    pub place: Place,
    pub terms: Option<Terms>,
}
