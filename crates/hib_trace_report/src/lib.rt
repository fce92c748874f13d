//! The report of a judged trace: a line for each finding, in the order of the trace's lines, how many answers are what,
//! and what is taken for granted.
#![tactic(auto)]

mod asked;
mod counts;
mod lines;
mod whole;

pub use whole::{Report, report_trace};
