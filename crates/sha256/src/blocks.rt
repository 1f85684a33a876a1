// FIPS 180-4, section 6.2: the hash value after the whole blocks of a message, one after the other.
ghost use Rattle.std.specs.Prelude.{◌≡◌};
ghost use Rattle.fips.specs.Words as W;
ghost use Rattle.fips.specs.Sha256 as S;

use block::compress;
use fips::State;

// The hash value after the whole blocks of `m`. What is left of `m`, less than a block, has no part.
pub(crate) fn blocks(s: State, k: &[u32; 64], m: &[u8]) -> State
    requires { k.now ≡ W.K }
    ensures { result ≡ S.hash s m.now }
{
    let mut r = s;
    for block in m.as_chunks::<64>().0 {
        r = compress(r, k, block);
    }
    r
}
