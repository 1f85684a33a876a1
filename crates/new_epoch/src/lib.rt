// What a batch adds, worked out before anything is written: its records, and the head of the new epoch over both its trees.
#![tactic(auto)]

mod fresh;
mod heading;
mod plant;

pub use fresh::prepare;
pub use heading::head_of;
