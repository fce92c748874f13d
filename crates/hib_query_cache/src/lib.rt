//! The query cache: results of named queries, of bounded number, in the order of their last use.
#![tactic(auto)]

mod laws;
mod results;

pub use laws::{
    no_results_stand_for_no_entry, other_acts_leave_results, results_answer, results_follow,
    results_name_the_dropped,
};
pub use results::Results;
