// A directory, "tables and state that publishing left": it begins, and goes on. What is written from one, and what a writer reads of it,
// are theorems of proofs/, which hold for any labelling.
#![tactic(auto)]

ghost use Rattle.paper.specs.Labelling.{plain};
ghost use Rattle.paper.specs.Left.{Left};
ghost use Rattle.directory.specs.Begun as B;

use bounds::records_within;
use paper::{PublishAnswer, Refusal, Returned, StartAnswer, State};
use publish::publish;
use start::start;

// Starts a directory, in a record table within its bounds.
pub fn begun(records: &[u8], heads: &mut [u8]) -> StartAnswer
    ensures { B.Begins plain records.now heads.old (record { answer = result; heads = heads.new }) }
{
    if !records_within(records) {
        return Err(Refusal::Input);
    }
    start(heads)
}

// One publishing more. What it asks it also leaves, so that any number of publishings is any number of calls.
pub fn further(records: &mut [u8], heads: &mut [u8], state: State, batch: &[u8]) -> PublishAnswer
    requires { Left plain records.old heads.old state }
    ensures { B.GoesOn plain records.old heads.old state batch.now (record { answer = result; records = records.new; heads = heads.new }) }
{
    publish(records, heads, state, batch)
}

// Starts a directory and publishes a first batch. Where the start refuses there is no state but that of no records; where publishing refuses,
// the directory that was started stands.
pub fn opened(records: &mut [u8], heads: &mut [u8], batch: &[u8]) -> PublishAnswer
    ensures { B.Opens plain records.old heads.old batch.now (record { answer = result; records = records.new; heads = heads.new }) }
{
    match begun(records, heads) {
        Ok(state) => further(records, heads, state, batch),
        Err(refusal) => Err(Returned {
            refusal,
            state: State { count: 0, epoch: 0 },
        }),
    }
}
