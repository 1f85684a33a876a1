// What stands before a proof's paths: header, head and number in 108 bytes, and then the keys with their openings.
#![tactic(auto)]

mod keys;
mod opening;

pub use keys::{items_size, write_items};
pub use opening::{previous_head, write_front};
