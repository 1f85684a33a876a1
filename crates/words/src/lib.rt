// Numbers in bytes. "All stored numbers are big-endian." A function for each width: the integers share no trait that has `from_be_bytes`.
#![tactic(auto)]

ghost use Rattle.std.specs.Prelude.{◌≡◌, ◌+◌, ◌≤◌, length, take, drop};
ghost use Rattle.paper.specs.Bytes as B;

// The number in the two bytes of `s` from `at` on.
pub fn read16(s: &[u8], at: usize) -> u16
    requires { at + 2 ≤ length s.now }
    ensures { result ≡ B.number (take 2 (drop at s.now)) }
{
    u16::from_be_bytes([s[at], s[at + 1]])
}

// The number in the four bytes of `s` from `at` on.
pub fn read32(s: &[u8], at: usize) -> u32
    requires { at + 4 ≤ length s.now }
    ensures { result ≡ B.number (take 4 (drop at s.now)) }
{
    u32::from_be_bytes([s[at], s[at + 1], s[at + 2], s[at + 3]])
}

// Lays the two bytes of `n` over `dst` from `at` on.
pub fn write16(dst: &mut [u8], at: usize, n: u16)
    requires { at + 2 ≤ length dst.old }
    ensures { dst.new ≡ B.pasted dst.old at (B.be 2 n) }
{
    dst[at..at + 2].copy_from_slice(&n.to_be_bytes());
}

// Lays the four bytes of `n` over `dst` from `at` on.
pub fn write32(dst: &mut [u8], at: usize, n: u32)
    requires { at + 4 ≤ length dst.old }
    ensures { dst.new ≡ B.pasted dst.old at (B.be 4 n) }
{
    dst[at..at + 4].copy_from_slice(&n.to_be_bytes());
}
