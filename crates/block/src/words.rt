// FIPS 180-4, sections 4.1.2 and 4.2.2: the functions on words of 32 bits, and the constants. Each
// is the definition of its name, read as code.
ghost use Rattle.std.specs.Prelude.{◌≡◌, ◌<◌};
ghost use Rattle.fips.specs.Words as W;

const K: [u32; 64] = [
    0x428a_2f98,
    0x7137_4491,
    0xb5c0_fbcf,
    0xe9b5_dba5,
    0x3956_c25b,
    0x59f1_11f1,
    0x923f_82a4,
    0xab1c_5ed5,
    0xd807_aa98,
    0x1283_5b01,
    0x2431_85be,
    0x550c_7dc3,
    0x72be_5d74,
    0x80de_b1fe,
    0x9bdc_06a7,
    0xc19b_f174,
    0xe49b_69c1,
    0xefbe_4786,
    0x0fc1_9dc6,
    0x240c_a1cc,
    0x2de9_2c6f,
    0x4a74_84aa,
    0x5cb0_a9dc,
    0x76f9_88da,
    0x983e_5152,
    0xa831_c66d,
    0xb003_27c8,
    0xbf59_7fc7,
    0xc6e0_0bf3,
    0xd5a7_9147,
    0x06ca_6351,
    0x1429_2967,
    0x27b7_0a85,
    0x2e1b_2138,
    0x4d2c_6dfc,
    0x5338_0d13,
    0x650a_7354,
    0x766a_0abb,
    0x81c2_c92e,
    0x9272_2c85,
    0xa2bf_e8a1,
    0xa81a_664b,
    0xc24b_8b70,
    0xc76c_51a3,
    0xd192_e819,
    0xd699_0624,
    0xf40e_3585,
    0x106a_a070,
    0x19a4_c116,
    0x1e37_6c08,
    0x2748_774c,
    0x34b0_bcb5,
    0x391c_0cb3,
    0x4ed8_aa4a,
    0x5b9c_ca4f,
    0x682e_6ff3,
    0x748f_82ee,
    0x78a5_636f,
    0x84c8_7814,
    0x8cc7_0208,
    0x90be_fffa,
    0xa450_6ceb,
    0xbef9_a3f7,
    0xc671_78f2,
];

// The constants of the rounds.
pub fn constants() -> [u32; 64]
    ensures { result ≡ W.K }
{
    K
}

// The rotation to the right by n. By shifts: document 01's form for it (docs/DECISIONS.md, "Forms").
fn rotr(x: u32, n: u32) -> u32
    requires { (0 < n) × (n < 32) }
    ensures { result ≡ W.rotr n x }
{
    (x >> n) | (x << (32 - n))
}

pub(crate) fn ch(x: u32, y: u32, z: u32) -> u32
    ensures { result ≡ W.Ch x y z }
{
    (x & y) ^ (!x & z)
}

pub(crate) fn maj(x: u32, y: u32, z: u32) -> u32
    ensures { result ≡ W.Maj x y z }
{
    (x & y) ^ (x & z) ^ (y & z)
}

// Big and small sigma are four functions, as section 4.1.2 has them: one over its three numbers would be no plainer.
pub(crate) fn big0(x: u32) -> u32
    ensures { result ≡ W.Σ0 x }
{
    rotr(x, 2) ^ rotr(x, 13) ^ rotr(x, 22)
}

pub(crate) fn big1(x: u32) -> u32
    ensures { result ≡ W.Σ1 x }
{
    rotr(x, 6) ^ rotr(x, 11) ^ rotr(x, 25)
}

pub(crate) fn small0(x: u32) -> u32
    ensures { result ≡ W.σ0 x }
{
    rotr(x, 7) ^ rotr(x, 18) ^ (x >> 3)
}

pub(crate) fn small1(x: u32) -> u32
    ensures { result ≡ W.σ1 x }
{
    rotr(x, 17) ^ rotr(x, 19) ^ (x >> 10)
}
