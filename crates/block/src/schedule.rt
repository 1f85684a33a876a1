// FIPS 180-4, section 6.2.2, step 1: a block's message schedule, a local array of 64 words. Every sum is modulo 2^32.
ghost use Rattle.std.specs.Prelude.{◌≡◌, ◌+◌, ◌*◌, length, take};
ghost use Rattle.fips.specs.Sha256 as S;

use crate::words::{small0, small1};

// A word of four bytes, the first the most significant.
fn join(a: u8, b: u8, c: u8, d: u8) -> u32
    ensures { result ≡ ((a * 256 + b) * 256 + c) * 256 + d }
{
    ((a as u32 * 256 + b as u32) * 256 + c as u32) * 256 + d as u32
}

// A word of the schedule, from the four before it that it is made of.
fn mix(w2: u32, w7: u32, w15: u32, w16: u32) -> u32
    ensures { result ≡ S.mix w2 w7 w15 w16 }
{
    small1(w2)
        .wrapping_add(w7)
        .wrapping_add(small0(w15))
        .wrapping_add(w16)
}

// The first sixteen words of the schedule: those of the block's bytes.
fn first_words(b: &[u8]) -> [u32; 64]
    requires { length b.now ≡ 64 }
    ensures { take 16 result ≡ S.schedule b.now 16 }
{
    let mut w = [0u32; 64];
    // By index and `join`: over `as_chunks`, with `from_be_bytes`, a message of 16 KB takes 1.07 of the time.
    for t in 0..16 {
        let i = 4 * t;
        w[t] = join(b[i], b[i + 1], b[i + 2], b[i + 3]);
    }
    w
}

// The schedule of a block: behind them each word is made of words before it.
pub(crate) fn schedule(b: &[u8]) -> [u32; 64]
    requires { length b.now ≡ 64 }
    ensures { result ≡ S.schedule b.now 64 }
{
    let mut w = first_words(b);
    for t in 16..64 {
        w[t] = mix(w[t - 2], w[t - 7], w[t - 15], w[t - 16]);
    }
    w
}
