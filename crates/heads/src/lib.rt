// The digest of a head, from its parts and where a proof opens it. An array is made of the string's
// first byte alone, and the other parts are laid over it, one right behind the other, from place 1 on.
#![tactic(auto)]

ghost use Rattle.std.specs.Prelude.{◌≡◌, ◌+◌, ◌≤◌, length};
ghost use Rattle.fips.specs.Sha256 as F;
ghost use Rattle.paper.specs.Strings as S;
ghost use Rattle.fields.specs.Head.{head_at};

use ranges::{digest_at, put};
use sha256::sha256;
use words::{read32, write32};

// "Head, 101 bytes: 0x03, epoch 4, previous head 32, root of *all* 32, root of *old* 32."
pub fn head(epoch: u32, previous: &[u8; 32], all: &[u8; 32], old: &[u8; 32]) -> [u8; 32]
    ensures { result ≡ F.sha256 (S.head_string (record { epoch = epoch; previous = previous.now; all = all.now; old = old.now })) }
{
    let mut s = [0x03u8; 101];
    write32(&mut s, 1, epoch);
    put(&mut s, 5, previous);
    put(&mut s, 37, all);
    put(&mut s, 69, old);
    sha256(&s)
}

// A head that is opened: "the 100 bytes of a head after its 0x03" are those from `at` on.
pub fn head_at(s: &[u8], at: usize) -> [u8; 32]
    requires { at + 100 ≤ length s.now }
    ensures { result ≡ F.sha256 (S.head_string (head_at s.now at)) }
{
    let previous = digest_at(s, at + 4);
    let all = digest_at(s, at + 36);
    let old = digest_at(s, at + 68);
    head(read32(s, at), &previous, &all, &old)
}
