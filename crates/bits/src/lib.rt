// The leaves on label bits: a bit, a prefix, the first difference of two labels, and the number of a version's marker.
// Each is total. A label is any slice of bytes, whose bits are `bits_of` of it; no caller has a length to show.
#![tactic(auto)]

mod label;
mod marker;
mod prefix;

pub use label::{first_difference, label_bit};
pub use marker::marker_of;
pub use prefix::prefix_of;
