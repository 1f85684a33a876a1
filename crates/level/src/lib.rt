// The tree level, which takes labels directly.
#![tactic(auto)]

mod entry;
mod path;
mod root;

pub use entry::{tree_path, tree_root};
pub use root::root_of;
