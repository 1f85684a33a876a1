// The tree level's public entries: leaves one behind the other, in any order, are copied to a row of our own, so that what is lent
// stays as it was.
ghost use Rattle.std.specs.Prelude.{◌≡◌, length};
ghost use Rattle.paper.specs.Level as L;
ghost use Rattle.paper.specs.Level.{entries_most};

use crate::path::path_over;
use crate::root::root_of;
use bounds::entries_within;
use leaf_row::Leaf;
use paper::{Refusal, TreeAnswer};
use ranges::put;

// Room for 8,192 leaves.
fn row() -> [Leaf; 8192]
    ensures { length result ≡ entries_most }
{
    [[0u8; 68]; 8192]
}

// The root over leaves, at the output's start.
pub fn tree_root(entries: &[u8], out: &mut [u8]) -> TreeAnswer
    ensures { record { answer = result; out = out.new } ≡ L.tree_root entries.now out.old }
{
    if !entries_within(entries) {
        return Err(Refusal::Input);
    }
    let (entries, _) = entries.as_chunks::<68>();
    let mut row = row();
    let leaves = &mut row[..entries.len()];
    leaves.copy_from_slice(entries);
    let Some(root) = root_of(leaves) else {
        return Err(Refusal::Clash);
    };
    if out.len() < 32 {
        return Err(Refusal::Room);
    }
    put(out, 0, &root);
    Ok(32)
}

// The path of a label over leaves, present or absent, at the output's start.
pub fn tree_path(entries: &[u8], label: &[u8], absent: bool, out: &mut [u8]) -> TreeAnswer
    ensures { record { answer = result; out = out.new } ≡ L.tree_path entries.now label.now absent out.old }
{
    if !entries_within(entries) {
        return Err(Refusal::Input);
    }
    let Some(label) = label.as_array::<32>() else {
        return Err(Refusal::Input);
    };
    let (entries, _) = entries.as_chunks::<68>();
    let mut row = row();
    let leaves = &mut row[..entries.len()];
    leaves.copy_from_slice(entries);
    path_over(leaves, label, absent, out)
}
