// Demand 2 from nothing: whatever the tables hold, the batch and the name, a directory is opened, a proof written and the proof checked. Each
// refusal is that of start, of publish or of the writer. Three functions, as three promises: each has its own answer and definition.
ghost use Rattle.std.specs.Prelude.{◌≡◌};
ghost use Rattle.paper.specs.Labelling.{plain};
ghost use Rattle.promises.specs.Kept as K;

use crate::kept::{audit_kept, history_kept, lookup_kept};
use directory::opened;
use paper::{AuditAnswer, HistoryAnswer, LookupAnswer};

pub fn first_lookup(
    records: &mut [u8],
    heads: &mut [u8],
    batch: &[u8],
    name: &[u8],
    epoch: u32,
    out: &mut [u8],
) -> LookupAnswer
    ensures { record { answer = result; records = records.new; heads = heads.new; out = out.new } ≡ K.first_lookup plain records.old heads.old batch.now out.old name.now epoch }
{
    let state = opened(records, heads, batch)?;
    lookup_kept(records, heads, state, name, epoch, out)
}

pub fn first_history(
    records: &mut [u8],
    heads: &mut [u8],
    batch: &[u8],
    name: &[u8],
    epoch: u32,
    out: &mut [u8],
) -> HistoryAnswer
    ensures { record { answer = result; records = records.new; heads = heads.new; out = out.new } ≡ K.first_history plain records.old heads.old batch.now out.old name.now epoch }
{
    let state = opened(records, heads, batch)?;
    history_kept(records, heads, state, name, epoch, out)
}

pub fn first_audit(
    records: &mut [u8],
    heads: &mut [u8],
    batch: &[u8],
    epoch: u32,
    out: &mut [u8],
) -> AuditAnswer
    ensures { record { answer = result; records = records.new; heads = heads.new; out = out.new } ≡ K.first_audit plain records.old heads.old batch.now out.old epoch }
{
    let state = opened(records, heads, batch)?;
    audit_kept(records, heads, state, epoch, out)
}
