//! What is pending of one instance: the change that would bring its row in the store up to it.
#![tactic(auto)]

mod cells;
mod pending;

pub use pending::{change, delete, insert, update};
