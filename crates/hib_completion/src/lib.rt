//! What completes a transaction: locks are given back, rows are put back, and the changed tables are stamped.
#![tactic(auto)]

mod completing;
mod lists;
mod touched;

pub use completing::acts;
pub use lists::tables;
