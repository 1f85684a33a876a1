// Publishing: "Publishing tests 1, 11, 9, 6, 7." All tests are made, and the new records and the new head worked out, on
// tables that are only lent to be read; then the records and the head are written, and nothing else is.
#![tactic(auto)]

mod publishing;
mod testing;
mod weigh;

pub use publishing::publish;
