//! The text of what a search of orders came to.
#![tactic(auto)]

mod findings;
mod schedules;
mod whole;

pub use findings::{Finding, found_of};
pub use whole::text;
