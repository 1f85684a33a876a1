// SHA-256 as FIPS 180-4 defines it, of a lent slice of bytes: the whole blocks of the message, then
// the one or two blocks in which its padding ends, made in a local array.
#![tactic(auto)]

mod blocks;

ghost use Rattle.std.specs.Prelude.{◌≡◌, ◌+◌, ◌-◌, ◌*◌, ◌/◌, ◌%◌, ◌^◌, ◌<◌, ◌≤◌, length};
ghost use Rattle.std.proofs.lemmas.List.Edits.{sets};
ghost use Rattle.fips.specs.Words as W;
ghost use Rattle.fips.specs.Sha256 as S;
ghost use Rattle.sha256.specs.Ending.{ending};

use block::constants;
use blocks::blocks;
use fips::State;

// Section 5.3.3: the initial hash value.
const START: State = State {
    a: 0x6a09_e667,
    b: 0xbb67_ae85,
    c: 0x3c6e_f372,
    d: 0xa54f_f53a,
    e: 0x510e_527f,
    f: 0x9b05_688c,
    g: 0x1f83_d9ab,
    h: 0x5be0_cd19,
};

// Section 5.1.1: the hash value at the end of a message of `bits` bits, where `m` is what comes after
// its last whole block. The mark and the length take 9 bytes, so a second block is needed from 56 on.
fn finish(s: State, k: &[u32; 64], m: &[u8], bits: u64) -> State
    requires { (k.now ≡ W.K) × (length m.now < 64) }
    ensures { result ≡ S.hash s (ending m.now bits) }
{
    let end = (m.len() + 8) / 64 * 64 + 64;
    let mut d = [0u8; 128];
    d[..m.len()].copy_from_slice(m);
    d[m.len()] = 0x80;
    d[end - 8..end].copy_from_slice(&bits.to_be_bytes());
    blocks(s, k, &d[..end])
}

// The bytes of the hash value.
fn digest(s: State) -> [u8; 32]
    ensures { result ≡ S.digest s }
{
    let words = [
        s.a.to_be_bytes(),
        s.b.to_be_bytes(),
        s.c.to_be_bytes(),
        s.d.to_be_bytes(),
        s.e.to_be_bytes(),
        s.f.to_be_bytes(),
        s.g.to_be_bytes(),
        s.h.to_be_bytes(),
    ];
    let mut d = [0u8; 32];
    d.copy_from_slice(words.as_flattened());
    d
}

// Section 6.2. The length in bits is taken modulo 2^64, as the definition takes it.
pub fn sha256(msg: &[u8]) -> [u8; 32]
    ensures { result ≡ S.sha256 msg.now }
{
    let k = constants();
    let s = blocks(START, &k, msg);
    let at = msg.len() / 64 * 64;
    let bits = (msg.len() as u64) << 3;
    digest(finish(s, &k, &msg[at..], bits))
}
