//! A call of a command, whatever the command is: its input is read, it is run over a keeper, and the run is told.
//!
//! A command is a `Task`. What it reads, runs and writes is its own; how a call ends, in which order and by which
//! causes is said here, once for all of them.
#![tactic(auto)]

mod calling;
mod lent;
mod status;
mod streams;
mod tasks;
mod unrun;

pub use calling::{Called, call};
pub use lent::Lent;
pub use status::{Status, put_illegal, status_line};
pub use streams::NothingLeft;
pub use tasks::{JOURNAL_BYTES, Outcome, Ran, SCRIPT_BYTES, Task, tell_text};
pub use unrun::not_run;
