//! The lines of a trace: what a recorder wrote of the calls of another cache, each line a JSON object of a call that has
//! returned. A text is read as one event for each line, or its first bad line is refused, with the reason.
#![tactic(auto)]

mod checks;
mod events;
mod faults;
mod lines;
mod members;
mod words;

pub use events::{Event, Operation, Outcome, WrittenRow};
pub use faults::{Fault, Member, RefusedLine, TraceError};
pub use lines::read_trace;
