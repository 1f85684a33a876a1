// "The accepted key of a lookup can be had as that part of the lent proof".
ghost use Rattle.paper.specs.Labelling.{plain};
ghost use Rattle.paper.specs.Lookup.{check_lookup};
ghost use Rattle.lookup.specs.Part.{KeyPart};

use crate::check_lookup;
use paper::AcceptedLookup;

// The accepted key where it lies in the proof; "a refusal or version 0 gives the empty part at its start."
pub fn accepted_key<'a>(head: &[u8], name: &[u8], proof: &'a [u8]) -> &'a [u8]
    ensures { KeyPart (check_lookup plain head.now name.now proof.now) proof.entry result }
{
    match check_lookup(head, name, proof) {
        Ok(AcceptedLookup::Found { .. }) => {
            let after = 109 + proof[108] as usize;
            &proof[109..after]
        }
        Ok(AcceptedLookup::NotRegistered { .. }) => &proof[..0],
        Err(_) => &proof[..0],
    }
}
