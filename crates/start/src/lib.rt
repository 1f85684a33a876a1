// "Starting a directory tests 1 only and writes head 0; it has no records."
#![tactic(auto)]

ghost use Rattle.std.specs.Prelude.{◌≡◌, []};
ghost use Rattle.paper.specs.Labelling.{plain};
ghost use Rattle.paper.specs.Tree.{root_digest};
ghost use Rattle.paper.specs.Publish as P;

use bounds::heads_within;
use heads::head;
use nodes::{inner, nothing};
use paper::{Refusal, StartAnswer, State};
use ranges::put;

// "Epoch 0 has .. two empty trees": the root over no leaves.
fn empty_root() -> [u8; 32]
    ensures { result ≡ root_digest [] }
{
    let none = nothing();
    inner(0, &[0u8; 32], &none, &none)
}

pub fn start(heads: &mut [u8]) -> StartAnswer
    ensures { record { answer = result; heads = heads.new } ≡ P.start plain heads.old }
{
    if !heads_within(heads) {
        return Err(Refusal::Input);
    }
    let root = empty_root();
    put(heads, 0, &head(0, &[0u8; 32], &root, &root));
    Ok(State { count: 0, epoch: 0 })
}
