// Requests to the driver program, as docs/DRIVER.md describes them. A field's bytes lie in the buffer that is lent for them, and within the
// request. Where a reader's bytes are known, a contract here says besides which were taken, and that none were past the request; those of
// standard input no contract can name.
#![tactic(auto)]

mod call;
mod read;

pub use call::{Call, HandsetCall, ProofCall, ServerCall, TreeCall};
pub use read::next_request;

// A request that is being read: how many of its bytes are left.
#[derive(Clone, Copy)]
pub struct Request {
    pub left: usize,
}

// What can't be read: a request, or a field of one.
#[derive(Clone, Copy, Debug, PartialEq, Eq)]
pub struct Unreadable;

// The rooms that the driver lends to each call in turn: the space, in which the call's fields lie one behind the other, and a spare one. The longest
// fields are those of an audit: two heads of up to 256 bytes, and a proof; none in layout is longer than 3,244,246 bytes.
pub type Space = [u8; 3_277_312];

// For what is written beside fields that lie in the space: a proof, or the records of a table. Of a table of 4,096 records, with the longest keys,
// a history of 1,023 versions has some 1,046,000 bytes.
pub type Spare = [u8; 1_200_000];
