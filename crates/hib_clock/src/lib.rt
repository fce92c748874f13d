//! The clock: which tick an entry gets, and the last ticks of a journal.
#![tactic(auto)]

mod clock;
mod last_ticks;
mod ticks;

pub use clock::next;
pub use ticks::Ticks;
