// SHA-256's compression of one block of 64 bytes, as FIPS 180-4 defines it in section 6.2.2.
#![tactic(auto)]

mod rounds;
mod schedule;
mod words;

pub use rounds::compress;
pub use words::constants;
