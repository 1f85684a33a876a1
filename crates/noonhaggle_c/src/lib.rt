// The C interface: `noonhaggle`, exported over pointers with lengths and plain numbers, each function by its own name and with its own clauses.
// include/noonhaggle.h says what each argument is.
#![tactic(auto)]

mod handset;
mod server;
