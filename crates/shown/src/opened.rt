// The head in a proof's front: "the 100 bytes of a head after its 0x03", behind the six bytes of the header.
ghost use Rattle.std.specs.Prelude.{◌≡◌, ◌≤◌, length};
ghost use Rattle.fips.specs.Sha256.{sha256};
ghost use Rattle.paper.specs.Bytes as B;
ghost use Rattle.paper.specs.Strings.{head_string};
ghost use Rattle.shown.specs.Form.{head_in};

use heads::head_at;
use ranges::same;

// "an opening does not hash to its head": whether it does.
pub fn head_hashes(s: &[u8], head: &[u8]) -> bool
    requires { 106 ≤ length s.now }
    ensures { result ≡ B.same (sha256 (head_string (head_in s.now))) head.now }
{
    same(&head_at(s, 6), head)
}
