// FIPS 180-4, section 6.2.2, steps 2 to 4: the rounds over a block's schedule, and the hash value after the block.
ghost use Rattle.std.specs.Prelude.{◌≡◌, ◌+◌, ◌<◌, ◌≤◌, length, slice_index};
ghost use Rattle.fips.specs.declared.State.{State};
ghost use Rattle.fips.specs.Words as W;
ghost use Rattle.fips.specs.Sha256 as S;

use crate::schedule::schedule;
use crate::words::{big0, big1, ch, maj};
use fips::State;

// Step 3: T1, T2, and round t with them.
fn t1(s: State, k: u32, w: u32) -> u32
    ensures { result ≡ S.T1 s k w }
{
    s.h.wrapping_add(big1(s.e))
        .wrapping_add(ch(s.e, s.f, s.g))
        .wrapping_add(k)
        .wrapping_add(w)
}

fn t2(s: State) -> u32
    ensures { result ≡ S.T2 s }
{
    big0(s.a).wrapping_add(maj(s.a, s.b, s.c))
}

fn round(s: State, k: &[u32; 64], w: &[u32; 64], t: usize) -> State
    requires { (t < 64) × (k.now ≡ W.K) }
    ensures { result ≡ S.round s (slice_index W.K t) (slice_index w.now t) }
{
    let x = t1(s, k[t], w[t]);
    State {
        a: x.wrapping_add(t2(s)),
        b: s.a,
        c: s.b,
        d: s.c,
        e: s.d.wrapping_add(x),
        f: s.e,
        g: s.f,
        h: s.g,
    }
}

// Step 4.
fn add(s: State, r: State) -> State
    ensures { result ≡ S.add s r }
{
    State {
        a: r.a.wrapping_add(s.a),
        b: r.b.wrapping_add(s.b),
        c: r.c.wrapping_add(s.c),
        d: r.d.wrapping_add(s.d),
        e: r.e.wrapping_add(s.e),
        f: r.f.wrapping_add(s.f),
        g: r.g.wrapping_add(s.g),
        h: r.h.wrapping_add(s.h),
    }
}

// Eight rounds, from round t on. They are written out so that the working variables need not move.
fn eight(s: State, k: &[u32; 64], w: &[u32; 64], t: usize) -> State
    requires { (t + 8 ≤ 64) × (k.now ≡ W.K) }
    ensures { (x : State) → s ≡ S.rounds w.now x t → result ≡ S.rounds w.now x (t + 8) }
{
    let mut r = round(s, k, w, t);
    r = round(r, k, w, t + 1);
    r = round(r, k, w, t + 2);
    r = round(r, k, w, t + 3);
    r = round(r, k, w, t + 4);
    r = round(r, k, w, t + 5);
    r = round(r, k, w, t + 6);
    round(r, k, w, t + 7)
}

// The hash value after a block. The constants are lent, as everywhere: an array that code names as a constant is laid out anew at each use.
pub fn compress(s: State, k: &[u32; 64], b: &[u8]) -> State
    requires { (k.now ≡ W.K) × (length b.now ≡ 64) }
    ensures { result ≡ S.compress s b.now }
{
    let w = schedule(b);
    let mut r = s;
    for turn in 0..8 {
        r = eight(r, k, &w, 8 * turn);
    }
    add(s, r)
}
