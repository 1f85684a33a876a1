// The form of a path of a lookup or history proof, at its place in the lent bytes. Nothing is copied but the commitment: a parsed
// path holds places and numbers, and the siblings stay where they lie.
#![tactic(auto)]

mod ends;
mod form;

pub use form::parse;

// How a path ends, with the place of the end's fields, right behind its kind, and the epoch of its leaf.
#[derive(Clone, Copy)]
pub enum End {
    This { at: usize, epoch: u32 },
    Other { at: usize, epoch: u32 },
    Off { at: usize },
    Nothing,
}

// A parsed path: where its steps stand and how many there are, its end, beside it the commitment of "this leaf" (document 01's form for a
// path, docs/DECISIONS.md), and the place behind it.
#[derive(Clone, Copy)]
pub struct Path {
    pub steps: usize,
    pub count: usize,
    pub end: End,
    pub commitment: [u8; 32],
    pub next: usize,
}
