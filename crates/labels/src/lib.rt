// The digests that stand for a name's versions and markers, and for a key. An array is made of the
// string's first byte alone and has room for the longest name or key; the other parts are laid over
// it, one right behind the other, from place 1 on, and its front is hashed.
#![tactic(auto)]

ghost use Rattle.std.specs.Prelude.{◌≡◌, ◌≤◌, length};
ghost use Rattle.fips.specs.Sha256 as F;
ghost use Rattle.paper.specs.Strings as S;

use ranges::put;
use sha256::sha256;
use words::write16;

// "Label: 0x04, kind 1, number 2, name. Kind 1 is a version, kind 2 a marker." A name has at most 64
// bytes, which the caller has tested.
// The kind is the string's byte: `label_string` is over every byte, and an enum would ask more of callers.
pub fn label(kind: u8, number: u16, name: &[u8]) -> [u8; 32]
    requires { length name.now ≤ 64 }
    ensures { result ≡ F.sha256 (S.label_string kind number name.now) }
{
    let mut s = [0x04u8; 68];
    put(&mut s, 1, &[kind]);
    write16(&mut s, 2, number);
    put(&mut s, 4, name);
    let n = 4 + name.len();
    sha256(&s[..n])
}

// "Commitment: 0x05, opening 32, key." A key has at most 64 bytes, which the caller has tested.
pub fn commitment(opening: &[u8; 32], key: &[u8]) -> [u8; 32]
    requires { length key.now ≤ 64 }
    ensures { result ≡ F.sha256 (S.commitment_string opening.now key.now) }
{
    let mut s = [0x05u8; 97];
    put(&mut s, 1, opening);
    put(&mut s, 33, key);
    let n = 33 + key.len();
    sha256(&s[..n])
}
