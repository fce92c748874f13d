//! The text of a script, line by line, as it may be read again.
#![tactic(auto)]

mod conditions;
mod mapping;
mod printer;
mod queries;
mod script;
mod sessions;

pub use script::{print, print_row_lines};
