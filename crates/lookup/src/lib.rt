// The lookup check: what the bytes of a proof show, under a head, of a name's current version.
#![tactic(auto)]

mod key;

ghost use Rattle.std.specs.Prelude.{◌≡◌};
ghost use Rattle.paper.specs.Labelling.{plain};
ghost use Rattle.paper.specs.Lookup.{check_lookup};

use checks::{Accepted, check};
pub use key::accepted_key;
use paper::{AcceptedLookup, LookupAnswer};
use plan::Kind;

// What the proof shows of the name under the head: "An accepted lookup gives its version, .. with the head's epoch and its digests".
pub fn check_lookup(head: &[u8], name: &[u8], proof: &[u8]) -> LookupAnswer
    ensures { result ≡ check_lookup plain head.now name.now proof.now }
{
    let Accepted {
        number: version,
        epoch,
        digests,
    } = check(Kind::Lookup, head, name, proof)?;
    if version == 0 {
        return Ok(AcceptedLookup::NotRegistered { epoch, digests });
    }
    Ok(AcceptedLookup::Found {
        version,
        epoch,
        digests,
    })
}
