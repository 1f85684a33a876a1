// Demand 2 end to end, as code: functions that call the public entries one behind the other. What they promise follows from the entries'
// contracts alone and the theorems of `directory`, which hold for any labelling.
#![tactic(auto)]

mod first;
mod kept;

pub use first::{first_audit, first_history, first_lookup};
pub use kept::{audit_kept, history_kept, key_kept, lookup_kept};
