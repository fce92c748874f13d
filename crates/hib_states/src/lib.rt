//! The state after each entry of a legal journal, and the cause of each refusal, as JSON lines (docs/DATA.md).
#![tactic(auto)]

mod causes;
mod changed;
mod copies;
mod laws;
mod lines;
mod pieces;
mod seats;
mod telling;
mod unsound;

pub use laws::states_are_whole;
pub use telling::tell;
