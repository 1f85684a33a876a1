// The root that a path gives for a label: from the digest of its end upwards over its steps, the last one first. Each step is one
// inner node, so m + 1 strings are hashed.
ghost use Rattle.std.specs.Prelude.{◌≡◌, ℕ, ◌+◌, ◌*◌, ◌≤◌, ◌<◌, length, take, drop};
ghost use Rattle.fips.specs.Sha256.{sha256};
ghost use Rattle.paper.specs.Bytes.{number};
ghost use Rattle.paper.specs.Bits.{bits_of};
ghost use Rattle.paper.specs.Strings.{leaf_string, inner_string};
ghost use Rattle.paper.specs.Tree.{digest};
ghost use Rattle.paper.specs.Path.{step_node, end_node, path_root};
ghost use Rattle.path_form.specs.Places.{step_in, steps_in, end_in, path_in, climbed, StepStands, EndStands, PathStands};

use bits::{label_bit, prefix_of};
use nodes::{inner, join, leaf, nothing};
use path_form::{End, Path};
use ranges::digest_at;
use words::read16;

// "a step's prefix is the label's first bits", and the bit after it says on which side the digest from below stands.
fn step_up(s: &[u8], at: usize, label: [u8; 32], below: &[u8; 32]) -> [u8; 32]
    requires { StepStands s.now at }
    ensures { result ≡ digest (step_node (bits_of label) (step_in (drop at s.now)) below.now) }
{
    let length = read16(s, at);
    let k = length as usize;
    let prefix = prefix_of(&label, k);
    let sibling = digest_at(s, at + 2);
    join(label_bit(&label, k), length, &prefix, below, &sibling)
}

// From the digest `end` up to the root.
fn climb(s: &[u8], at: usize, m: usize, label: [u8; 32], end: [u8; 32]) -> [u8; 32]
    requires { (at + 34 * m ≤ length s.now) × ((i : ℕ) → i < m → StepStands s.now (at + 34 * i)) }
    ensures { result ≡ climbed (bits_of label) (steps_in m (drop at s.now)) «end» }
{
    let mut below = end;
    for i in (0..m).rev() {
        below = step_up(s, at + 34 * i, label, &below);
    }
    below
}

// The leaf of a label whose commitment stands at `at`.
fn leaf_at(s: &[u8], at: usize, label: [u8; 32], epoch: u32) -> [u8; 32]
    requires { at + 32 ≤ length s.now }
    ensures { result ≡ sha256 (leaf_string label (take 32 (drop at s.now)) epoch) }
{
    let commitment = digest_at(s, at);
    leaf(&label, &commitment, epoch)
}

// The leaf whose label and commitment stand at `at`.
fn other_leaf_at(s: &[u8], at: usize, epoch: u32) -> [u8; 32]
    requires { at + 64 ≤ length s.now }
    ensures { result ≡ sha256 (leaf_string (take 32 (drop at s.now)) (take 32 (drop (at + 32) s.now)) epoch) }
{
    let label = digest_at(s, at);
    leaf_at(s, at + 32, label, epoch)
}

// The inner node whose 98 bytes stand at `at`.
fn inner_at(s: &[u8], at: usize) -> [u8; 32]
    requires { at + 98 ≤ length s.now }
    ensures { result ≡ sha256 (inner_string (number (take 2 (drop at s.now))) (take 32 (drop (at + 2) s.now)) (take 32 (drop (at + 34) s.now)) (take 32 (drop (at + 66) s.now))) }
{
    let length = read16(s, at);
    let prefix = digest_at(s, at + 2);
    let left = digest_at(s, at + 34);
    let right = digest_at(s, at + 66);
    inner(length, &prefix, &left, &right)
}

// The digest of the node at which a path ends.
fn end_digest(s: &[u8], label: [u8; 32], end: End) -> [u8; 32]
    requires { EndStands s.now «end» }
    ensures { result ≡ digest (end_node (bits_of label) (end_in s.now «end»)) }
{
    match end {
        End::This { at, epoch } => leaf_at(s, at, label, epoch),
        End::Other { at, epoch } => other_leaf_at(s, at, epoch),
        End::Off { at } => inner_at(s, at),
        End::Nothing => nothing(),
    }
}

// The root that a parsed path gives for a label.
pub(crate) fn root_of(s: &[u8], label: [u8; 32], path: Path) -> [u8; 32]
    requires { PathStands s.now path }
    ensures { result ≡ path_root (bits_of label) (path_in s.now path) }
{
    let below = end_digest(s, label, path.end);
    climb(s, path.steps, path.count, label, below)
}
