//! The query that a line of a script is, and the condition that tokens are.
#![tactic(auto)]

mod alone;
mod clauses;
mod conditions;
mod errors;
mod forms;
mod queries;
mod terms;

pub use alone::check_condition;
pub use errors::CriteriaError;
pub use queries::check;
