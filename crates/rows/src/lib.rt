// The rows of a proof's paths in their order. A row is a run of paths of one kind: a lookup has up to three, of one path each, and a
// history six.
#![tactic(auto)]

mod history;
mod lookup;

ghost use Rattle.std.specs.Prelude.{◌≡◌, Ok};
ghost use Rattle.walks.specs.Walk.{walks};
ghost use Rattle.rows.specs.Rows.{rows_ask, Laid};

use history::history_rows;
use lookup::lookup_rows;
use paper::Refusal;
use plan::{Kind, Plan};
use walks::Reader;

// The reader behind all paths of a plan, each taken for what is asked of it. It stands at the first.
pub fn take_rows<'a>(reader: Reader<'a>, plan: Plan) -> Result<Reader<'a>, Refusal>
    requires { Laid plan reader }
    ensures { result ≡ walks (rows_ask reader.entry.proof.now reader.entry.at plan) (Ok reader.entry) }
{
    match plan.kind {
        Kind::Lookup => lookup_rows(reader, plan.number, plan.epoch),
        Kind::History => history_rows(reader, plan.number, plan.epoch),
    }
}
