// "Publishing appends the batch in its order with the next epoch."
ghost use Rattle.std.specs.Prelude.{◌≡◌, suc, ◌+◌, ◌*◌, ◌≤◌, ◌<◌, length};
ghost use Rattle.paper.specs.Bytes.{pasted};
ghost use Rattle.paper.specs.Labelling.{plain};
ghost use Rattle.paper.specs.Publish as P;

use crate::weigh::weigh;
use paper::{PublishAnswer, Returned, State};
use ranges::put;

// Room for the new records, 256 at most.
fn blank() -> [u8; 43008] {
    [0u8; 43008]
}

// "Success writes only the named records, head or proof.": the new records behind the counted ones, the new head in its slot.
fn append(records: &mut [u8], heads: &mut [u8], state: State, fresh: &[u8], head: &[u8; 32])
    requires { (state.count * 168 + length fresh.now ≤ length records.old) × ((state.epoch + 2) * 32 ≤ length heads.old) }
    ensures { (records.new ≡ pasted records.old (state.count * 168) fresh.now) × (heads.new ≡ pasted heads.old (suc state.epoch * 32) head.now) }
{
    put(records, (state.count as usize) * 168, fresh);
    put(heads, (state.epoch as usize + 1) * 32, head);
}

// The state with n more records, at the next epoch.
fn advanced(state: State, n: usize) -> State
    requires { (n ≤ 256) × (state.count + n ≤ 4096) × (suc state.epoch < 65536) }
    ensures { result ≡ record { count = state.count + n; epoch = suc state.epoch } }
{
    State {
        count: state.count + n as u32,
        epoch: state.epoch + 1,
    }
}

pub fn publish(records: &mut [u8], heads: &mut [u8], state: State, batch: &[u8]) -> PublishAnswer
    ensures { record { answer = result; records = records.new; heads = heads.new } ≡ P.publish plain records.old heads.old state batch.now }
{
    let mut fresh = blank();
    // the state goes back beside a refusal, which `?` alone would not do
    let head = match weigh(records, heads, state, batch, &mut fresh) {
        Ok(head) => head,
        Err(refusal) => return Err(Returned { refusal, state }),
    };
    let n = batch.len() / 162;
    let size = n * 168;
    append(records, heads, state, &fresh[..size], &head);
    Ok(advanced(state, n))
}
