//! Judges what a cache answered by a trace of calls with a begin and an end: which answers are false in every explanation
//! of the commits.
#![tactic(auto)]

mod kinds;
mod laws;
mod marks;
mod order;
mod places;
mod standing;
mod times;
mod verdicts;

pub use kinds::Verdict;
pub use laws::verdicts_are_certain;
pub use marks::{Mark, least_beyond, least_of};
pub use order::{Order, call_stairs, order_of};
pub use places::{Place, ordered, places_of};
pub use standing::{has_row, ready_at, standing_at};
pub use times::{contradicts, is_too_old, ready_of};
pub use verdicts::{judge, verdict, verdict_of};
