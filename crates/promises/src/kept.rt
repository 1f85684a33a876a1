// "every lookup, history and audit proof written from tables and state that publishing left is accepted at its epoch's head, with the
// directory's own answer": what is written here is put to the checker at once. So the answer is the writer's refusal or the directory's own
// answer, and the checker never refuses.
ghost use Rattle.std.specs.Prelude.{◌≡◌, ◌+◌, ◌*◌, ◌≤◌, length};
ghost use Rattle.paper.specs.Labelling.{plain};
ghost use Rattle.paper.specs.Table.{head_at};
ghost use Rattle.paper.specs.Left.{Left};
ghost use Rattle.promises.specs.Kept as K;

use audit::check_audit;
use history::check_history;
use lookup::{accepted_key, check_lookup};
use paper::{AuditAnswer, HistoryAnswer, LookupAnswer, State};
use ranges::same;
use write_audit::write_audit;
use write_proof::{write_history, write_lookup};

// The head that the table has for an epoch.
fn head_at(heads: &[u8], epoch: u32) -> &[u8]
    requires { epoch * 32 + 32 ≤ length heads.now }
    ensures { result.now ≡ head_at heads.now epoch }
{
    let at = epoch as usize * 32;
    let end = at + 32;
    &heads[at..end]
}

// A lookup, at the head of its epoch.
pub fn lookup_kept(
    records: &[u8],
    heads: &[u8],
    state: State,
    name: &[u8],
    epoch: u32,
    out: &mut [u8],
) -> LookupAnswer
    requires { Left plain records.now heads.now state }
    ensures { record { answer = result; out = out.new } ≡ K.lookup_kept plain records.now heads.now state out.old name.now epoch }
{
    let written = write_lookup(records, heads, state, name, epoch, out)?;
    let head = head_at(heads, epoch);
    check_lookup(head, name, &out[..written.length])
}

// Whether the key that a lookup gives is this one.
pub fn key_kept(
    records: &[u8],
    heads: &[u8],
    state: State,
    name: &[u8],
    epoch: u32,
    key: &[u8],
    out: &mut [u8],
) -> bool
    requires { Left plain records.now heads.now state }
    ensures { record { answer = result; out = out.new } ≡ K.key_kept plain records.now heads.now state out.old name.now epoch key.now }
{
    let Ok(written) = write_lookup(records, heads, state, name, epoch, out) else {
        return false;
    };
    let head = head_at(heads, epoch);
    same(accepted_key(head, name, &out[..written.length]), key)
}

// A history, at the head of its epoch. Beside `lookup_kept`: each promise names its own writer, checker and answer.
pub fn history_kept(
    records: &[u8],
    heads: &[u8],
    state: State,
    name: &[u8],
    epoch: u32,
    out: &mut [u8],
) -> HistoryAnswer
    requires { Left plain records.now heads.now state }
    ensures { record { answer = result; out = out.new } ≡ K.history_kept plain records.now heads.now state out.old name.now epoch }
{
    let written = write_history(records, heads, state, name, epoch, out)?;
    let head = head_at(heads, epoch);
    check_history(head, name, &out[..written.length])
}

// The audit of the step into an epoch, from the head before it to its own.
pub fn audit_kept(
    records: &[u8],
    heads: &[u8],
    state: State,
    epoch: u32,
    out: &mut [u8],
) -> AuditAnswer
    requires { Left plain records.now heads.now state }
    ensures { record { answer = result; out = out.new } ≡ K.audit_kept plain records.now heads.now state out.old epoch }
{
    let written = write_audit(records, heads, state, epoch, out)?;
    let before = head_at(heads, epoch - 1);
    let after = head_at(heads, epoch);
    check_audit(before, after, &out[..written.length])
}
