// The digests of a tree's nodes, a function for each of document 01's strings. An array is made of the
// string's first byte alone, and the other parts are laid over it, one right behind the other, from
// place 1 on.
#![tactic(auto)]

ghost use Rattle.std.specs.Prelude.{◌≡◌};
ghost use Rattle.fips.specs.Sha256 as F;
ghost use Rattle.paper.specs.Strings as S;
ghost use Rattle.nodes.specs.Join.{joined};

use ranges::put;
use sha256::sha256;
use words::{write16, write32};

// "Leaf, 69 bytes: 0x00, label 32, commitment 32, epoch 4."
pub fn leaf(label: &[u8; 32], commitment: &[u8; 32], epoch: u32) -> [u8; 32]
    ensures { result ≡ F.sha256 (S.leaf_string label.now commitment.now epoch) }
{
    let mut s = [0x00u8; 69];
    put(&mut s, 1, label);
    put(&mut s, 33, commitment);
    write32(&mut s, 65, epoch);
    sha256(&s)
}

// "Inner node, 99 bytes: 0x01, prefix length 2, prefix 32 (bits past the length zero), left digest
// 32, right digest 32." The prefix is hashed as it is given: who gives it sees to its zero bits.
pub fn inner(length: u16, prefix: &[u8; 32], left: &[u8; 32], right: &[u8; 32]) -> [u8; 32]
    ensures { result ≡ F.sha256 (S.inner_string length prefix.now left.now right.now) }
{
    let mut s = [0x01u8; 99];
    write16(&mut s, 1, length);
    put(&mut s, 3, prefix);
    put(&mut s, 35, left);
    put(&mut s, 67, right);
    sha256(&s)
}

// The step of a path upwards: `below` is the child on the side of `bit`, and `sibling` the other.
pub fn join(
    bit: bool,
    length: u16,
    prefix: &[u8; 32],
    below: &[u8; 32],
    sibling: &[u8; 32],
) -> [u8; 32]
    ensures { result ≡ F.sha256 (joined bit length prefix.now below.now sibling.now) }
{
    if bit {
        inner(length, prefix, sibling, below)
    } else {
        inner(length, prefix, below, sibling)
    }
}

// "Nothing: the single byte 0x02."
pub fn nothing() -> [u8; 32]
    ensures { result ≡ F.sha256 S.nothing_string }
{
    sha256(&[0x02u8])
}
