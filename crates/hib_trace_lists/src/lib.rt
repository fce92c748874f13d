//! The lists that a cache answered: which of them were computed before a commit on one of their tables.
#![tactic(auto)]

mod changes;
mod lists;
mod loads;

pub use lists::{Lists, lists_of};
