//! Judges a recorded trace of another cache: which of its answers were certainly stale, dirty, or of rows that were
//! rolled back; which updates were lost, and which lists are old.
#![tactic(auto)]

mod answers;
mod hits;
mod lists;
mod traces;
mod updates;

pub use answers::{Counts, judge_calls};
pub use traces::{Judged, judge_trace};
