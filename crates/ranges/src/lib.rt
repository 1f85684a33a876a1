// Ranges of bytes: laid over others, taken out, compared.
#![tactic(auto)]

ghost use Rattle.std.specs.Prelude.{◌≡◌, ◌+◌, ◌≤◌, eqb, length, take, drop};
ghost use Rattle.paper.specs.Bytes as B;
ghost use Rattle.paper.specs.Lists.{every};

// Lays `src` over `dst` from `at` on.
pub fn put(dst: &mut [u8], at: usize, src: &[u8])
    requires { at + length src.now ≤ length dst.old }
    ensures { dst.new ≡ B.pasted dst.old at src.now }
{
    dst[at..at + src.len()].copy_from_slice(src);
}

// The 32 bytes of `s` from `at` on: a digest, a label, a commitment or an opening.
pub fn digest_at(s: &[u8], at: usize) -> [u8; 32]
    requires { at + 32 ≤ length s.now }
    ensures { result ≡ take 32 (drop at s.now) }
{
    let mut digest = [0u8; 32];
    digest.copy_from_slice(&s[at..at + 32]);
    digest
}

// Whether two strings are the same, which strings of different lengths are not.
pub fn same(a: &[u8], b: &[u8]) -> bool
    ensures { result ≡ B.same a.now b.now }
{
    a == b
}

// Whether each byte is zero: a filling, a zero commitment, the bits past a prefix.
pub fn all_zero(s: &[u8]) -> bool
    ensures { result ≡ every (λ b. eqb b 0) s.now }
{
    s.iter().all(|b| *b == 0)
}
