// The roots of an audit's list, old and new, by recursion over ranges of its records, straight over the lent bytes. A
// range splits at the bit after what its first and last record share, and each part shares more bits than the range did:
// at most 256 calls stand within one another.
//
// "Kinds 0 and 1 build the old root, all records the new.": both recursions run over all records. In the old one a new
// leaf comes to no node, and where a side has no node the other side is the whole tree. `new` says whether new leaves are
// taken: an enum of two roots would be no plainer.
#![tactic(auto)]

ghost use Rattle.std.specs.Prelude.{◌≡◌, true, ◌∷◌, [], ◌+◌, ◌*◌, ◌^◌, ◌≤◌, ◌<◌, length};
ghost use Rattle.paper.specs.Tree as T;
ghost use Rattle.paper.specs.Audit.{in_order};
ghost use Rattle.audit_form.specs.Places.{record_at, records_at, records_of, Formed, Listed};
ghost use Rattle.audit_root.specs.Built.{built, grown, hashed, or_nothing, joined, forked, nodes_of, record_node, lefts, Range};

use audit_form::{label_at, rows};
use bits::{first_difference, label_bit, prefix_of};
use nodes::{inner, leaf, nothing};
use ranges::digest_at;
use words::{read16, read32};

// What a tree comes to: the digest of its top node, and how many nodes are hashed for it.
#[derive(Clone, Copy)]
pub struct Built {
    pub digest: [u8; 32],
    pub count: u32,
}

// The digest of the node in a record. An unchanged inner node is opened: its prefix is hashed with its digests. Neither this nor `fork` is
// inlined: the strings that they hash would lie in each of the 256 frames of `below`.
#[inline(never)]
fn record_digest(row: &[u8; 99]) -> [u8; 32]
    requires { Formed row.now 0 }
    ensures { result ≡ T.digest (record_node (record_at row.now 0)) }
{
    let label = digest_at(row, 3);
    let first = digest_at(row, 35);
    if row[0] == 1 {
        let second = digest_at(row, 67);
        return inner(read16(row, 1), &label, &first, &second);
    }
    leaf(&label, &first, read32(row, 67))
}

// "one label gives its leaf", and an opened node stands in place of its labels. A new leaf has no part in the old tree.
fn one(row: &[u8; 99], new: bool) -> Option<Built>
    requires { Formed row.now 0 }
    ensures { result ≡ grown (nodes_of new (records_of (row.now ∷ []))) }
{
    if row[0] == 2 && !new {
        return None;
    }
    Some(Built {
        digest: record_digest(row),
        count: 1,
    })
}

// How many of the records, from the first on, go left at bit k.
fn lefts(rows: &[[u8; 99]], k: usize) -> usize
    ensures { result ≡ lefts k rows.now }
{
    rows.iter()
        .position(|row| label_bit(label_at(row, 0), k))
        .unwrap_or(rows.len())
}

// The inner node over two sides.
fn join(length: u16, prefix: &[u8; 32], left: Built, right: Built) -> Built
    requires { left.count + right.count < 2 ^ 31 }
    ensures { result ≡ joined length prefix.now left right }
{
    Built {
        digest: inner(length, prefix, &left.digest, &right.digest),
        count: left.count + right.count + 1,
    }
}

// The same, where a side with no node leaves the other as it is.
#[inline(never)]
#[tactic(auto, unfolding(crate::specs::Built::forked))]
fn fork(length: u16, prefix: &[u8; 32], left: Option<Built>, right: Option<Built>) -> Option<Built>
    requires { hashed left + hashed right < 2 ^ 31 }
    ensures { result ≡ forked length prefix.now left right }
{
    match (left, right) {
        (Some(left), Some(right)) => Some(join(length, prefix, left, right)),
        (None, right) => right,
        (Some(left), None) => Some(left),
    }
}

// "more give an inner node whose prefix is their longest common prefix, and the bit after the prefix sends each label
// left (0) or right (1)." The records share `from` bits, and what is left of 256 falls.
fn below(rows: &[[u8; 99]], new: bool, from: usize) -> Option<Built>
    requires { Range rows.now from }
    ensures { result ≡ grown (nodes_of new (records_of rows.now)) }
{
    match rows {
        [] => None,
        [row] => one(row, new),
        [first, .., last] => {
            let label = label_at(first, 0);
            let k = first_difference(label, label_at(last, 0));
            let (left, right) = rows.split_at(lefts(rows, k));
            let left = below(left, new, k + 1);
            let right = below(right, new, k + 1);
            fork(k as u16, &prefix_of(label, k), left, right)
        }
    }
}

// A side of the root, with the digest of nothing where there is no node.
#[tactic(auto, unfolding(crate::specs::Built::or_nothing))]
fn or_nothing(side: Option<Built>) -> Built
    ensures { result ≡ or_nothing side }
{
    match side {
        Some(built) => built,
        None => Built {
            digest: nothing(),
            count: 1,
        },
    }
}

// "The root has prefix length 0 and is always an inner node. It alone may have "nothing" as a child."
pub fn root(s: &[u8], at: usize, n: usize, new: bool) -> Built
    requires { Listed s.now at n × (in_order (records_at s.now at n) ≡ true) }
    ensures { result ≡ built (T.root (nodes_of new (records_at s.now at n))) }
{
    let rows = rows(s, at, n);
    let (left, right) = rows.split_at(lefts(rows, 0));
    let left = or_nothing(below(left, new, 1));
    let right = or_nothing(below(right, new, 1));
    join(0, &[0u8; 32], left, right)
}
