// Runs of a proof's paths: the paths that stand next are taken in order. The proof is lent and read in place: what an earlier path
// says is read from it again, so that a history of 1,023 versions takes no more memory than a lookup.
#![tactic(auto)]

mod leaves;
mod runs;

pub use leaves::{leaf_at, past};
pub use runs::{current, each, markers, replaced, versions};

// The epoch of a path's leaf, and the place behind the path.
#[derive(Clone, Copy)]
pub struct Leaf {
    pub epoch: u32,
    pub next: usize,
}
