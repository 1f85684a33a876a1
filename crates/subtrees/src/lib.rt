// The list of an audit, out of a stored tree: "The writer gives the largest subtrees of the new tree, below its root, with no new leaf."
// It goes down where a new leaf is, left before right, and so in bit order. The digests of an opened node are copied out of its slot:
// nothing is hashed.
//
// Each fork on the way to a new leaf scans its leaves for one: with labels that are digests n leaves cost O(n log n) in all. The way is
// walked twice, first for the count, which stands before the records.
#![tactic(auto)]

mod count;
mod write;

pub use count::list_length;
pub use write::write_list;
