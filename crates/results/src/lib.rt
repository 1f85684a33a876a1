// The answers as C has them: document 01's number, 0 where nothing was refused, and the answer's values, 0 where it has none.
// A number beside values is the C interface's form: Rust and Rattle have the Results of `paper`.
#![tactic(auto)]

mod handset;
mod server;

pub use handset::lookup_result;

// What a lookup check answers; the key is that part of the proof.
#[repr(C)]
#[derive(Clone, Copy, Default)]
pub struct Lookup {
    pub number: u32,
    pub version: u32,
    pub epoch: u32,
    pub digests: u32,
    pub key_start: usize,
    pub key_length: usize,
}

// What a history check answers.
#[repr(C)]
#[derive(Clone, Copy, Default)]
pub struct History {
    pub number: u32,
    pub versions: u32,
    pub epoch: u32,
    pub digests: u32,
}

// What an audit check answers.
#[repr(C)]
#[derive(Clone, Copy, Default)]
pub struct Audit {
    pub number: u32,
    pub old_epoch: u32,
    pub new_epoch: u32,
    pub digests: u32,
}

// What start and publish answer, with the state: the new one, or the one that was given.
#[repr(C)]
#[derive(Clone, Copy, Default)]
pub struct Published {
    pub number: u32,
    pub count: u32,
    pub epoch: u32,
}

// What a writer answers, with the state as it was given.
#[repr(C)]
#[derive(Clone, Copy, Default)]
pub struct Written {
    pub number: u32,
    pub count: u32,
    pub epoch: u32,
    pub length: usize,
}

// A SHA-256 digest.
#[repr(C)]
#[derive(Clone, Copy, Default)]
pub struct Digest {
    pub bytes: [u8; 32],
}
