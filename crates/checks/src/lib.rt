// The check that a lookup and a history share: what the bytes of a proof show of a name, under a head. The proof is lent and read in
// place, and one reader goes from path to path.
#![tactic(auto)]

ghost use Rattle.std.specs.Prelude.{◌≡◌};
ghost use Rattle.checks.specs.Checked.{checked};

use names::is_name;
use paper::Refusal;
use plan::{Kind, Plan};
use rows::take_rows;
use shown::{Front, first_path, head_hashes, read_front};
use walks::Reader;

// What an accepted proof says: a lookup's version or a history's n, the head's epoch, and its digests.
#[derive(Clone, Copy)]
pub struct Accepted {
    pub number: u16,
    pub epoch: u32,
    pub digests: u32,
}

// "Checkers test 1, 2 over the whole proof, 3; then lookup and history take paths in order, 4 before 5 for each." Of digests there are
// "1 for the head, 1 for each key", and those of the paths.
pub fn check(kind: Kind, head: &[u8], name: &[u8], proof: &[u8]) -> Result<Accepted, Refusal>
    ensures { result ≡ checked kind head.now name.now proof.now }
{
    if head.len() != 32 || !is_name(name) {
        return Err(Refusal::Input);
    }
    let Front { number, epoch } = read_front(proof, kind.number()).ok_or(Refusal::Form)?;
    let plan = Plan {
        kind,
        number,
        epoch,
    };
    let first = first_path(proof, plan.keys(), plan.paths()).ok_or(Refusal::Form)?;
    if !head_hashes(proof, head) {
        return Err(Refusal::Head);
    }
    let reader = Reader {
        proof,
        name,
        at: first,
        digests: 1 + plan.keys() as u32,
    };
    let Reader { digests, .. } = take_rows(reader, plan)?;
    Ok(Accepted {
        number,
        epoch,
        digests,
    })
}
