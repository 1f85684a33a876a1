// The history check: a name's versions, all of them, against a head that the handset has.
#![tactic(auto)]

ghost use Rattle.std.specs.Prelude.{◌≡◌};
ghost use Rattle.paper.specs.Labelling.{plain};
ghost use Rattle.paper.specs.History.{check_history};

use checks::{Accepted, check};
use paper::{AcceptedHistory, HistoryAnswer};
use plan::Kind;

// What the history checker answers to a head, a name and proof bytes: "a history its n, each with the head's epoch and its digests".
pub fn check_history(head: &[u8], name: &[u8], proof: &[u8]) -> HistoryAnswer
    ensures { result ≡ check_history plain head.now name.now proof.now }
{
    let Accepted {
        number: versions,
        epoch,
        digests,
    } = check(Kind::History, head, name, proof)?;
    Ok(AcceptedHistory {
        versions,
        epoch,
        digests,
    })
}
