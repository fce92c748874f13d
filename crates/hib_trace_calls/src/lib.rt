//! The calls of a trace with a number for each text, and the writes that they tell, each with what became of it.
#![tactic(auto)]

mod calls;
mod fates;
mod numbers;
mod rows;
mod writes;

pub use calls::{Call, Fate, Made, Span, Texts, Trace, Write};
pub use fates::{fate_at, fates_in};
pub use numbers::numbered;
pub use rows::row_text;
pub use writes::{write_of, writes_in};
