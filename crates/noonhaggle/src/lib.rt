// What the C interface answers: the entries that the handset and server teams link, over slices and plain numbers. An export can't answer an enum, so
// each of these answers a struct by value (`results`). It has no output of its own, which a refusal would have to leave alone. `noonhaggle_c`
// has the exports, which call these.
#![tactic(auto)]

mod handset;
mod server;

pub use handset::{
    noonhaggle_check_audit, noonhaggle_check_history, noonhaggle_check_lookup, noonhaggle_sha256,
};
pub use server::{
    noonhaggle_publish, noonhaggle_start, noonhaggle_write_audit, noonhaggle_write_history,
    noonhaggle_write_lookup,
};
