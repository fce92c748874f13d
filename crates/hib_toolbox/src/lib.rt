//! The tools' top call: what the words ask for is the call of a command. The orders of a script's sessions are tried, a
//! journal is written as its report, as data, as its states, as the script that repeats it or as a trace, or the rows
//! of a keeper are.
#![tactic(auto)]

mod calls;
mod ended;
mod flat;
mod orders;
mod repeat;
mod report;
mod rows;
mod show;
mod spans;
mod states;
mod top;
mod written;

pub use ended::{Ended, Said};
pub use flat::Flat;
pub use orders::{Explored, Orders};
pub use repeat::{Repeat, Repeatable, Repeated};
pub use report::Report;
pub use rows::Rows;
pub use show::{Show, Shown};
pub use spans::Trace;
pub use states::{States, Stating};
pub use top::tools;
