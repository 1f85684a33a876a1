// FIPS 180-4 as definitions: SHA-256 of a list of bytes, in specs/. There is no code here but the
// one type that the definitions share with the code that meets them.
#![tactic(auto)]

// The eight words a to h of section 6.2.2: the hash value, and the working variables of a block.
#[derive(Clone, Copy)]
pub struct State {
    pub a: u32,
    pub b: u32,
    pub c: u32,
    pub d: u32,
    pub e: u32,
    pub f: u32,
    pub g: u32,
    pub h: u32,
}
