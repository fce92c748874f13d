//! The writes of a trace, filed by their keys: the commits of each key and its writes that were rolled back, ready for a
//! judge, and which rows a transaction wrote itself.
#![tactic(auto)]

mod commits;
mod filed;
mod limits;
mod orders;
mod own;

pub use commits::{By, Part, commit_of, earlier_by, file_part};
pub use filed::{Filed, file_writes};
pub use limits::{Limits, OrderBy};
pub use own::{Own, Owns};
