// Demand 3 end to end, as code: "Suppose an owner's history is accepted at the head of epoch T, each audit step from the head of epoch t up
// to that head is accepted, and anyone's lookup of the same name is accepted at the head of epoch t": whether that is so, for no step and
// for one. What a true answer says follows from the three checkers' contracts alone and the theorem of proofs/, which has any run of steps.
#![tactic(auto)]

ghost use Rattle.std.specs.Prelude.{[], ◌∷◌};
ghost use Rattle.paper.specs.Labelling.{plain};
ghost use Rattle.arrow.specs.Pointed.{Pointed};

use audit::check_audit;
use history::check_history;
use lookup::check_lookup;

// "one head where they are equal"
pub fn arrow_now(head: &[u8], name: &[u8], lookup: &[u8], history: &[u8]) -> bool
    ensures { Pointed plain head.now name.now lookup.now [] history.now result }
{
    check_lookup(head, name, lookup).is_ok() && check_history(head, name, history).is_ok()
}

// One step on: the lookup at the head before it, the history at the head after it.
pub fn arrow_after(
    before: &[u8],
    after: &[u8],
    name: &[u8],
    lookup: &[u8],
    step: &[u8],
    history: &[u8],
) -> bool
    ensures { Pointed plain before.now name.now lookup.now (record { head = after.now; proof = step.now } ∷ []) history.now result }
{
    check_lookup(before, name, lookup).is_ok()
        && check_audit(before, after, step).is_ok()
        && check_history(after, name, history).is_ok()
}
