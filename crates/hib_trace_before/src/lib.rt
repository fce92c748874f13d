//! The rows that keys had before the writes of a trace: what the database answered before the first of these had begun.
#![tactic(auto)]

mod before;
mod begins;

pub use before::rows_before;
