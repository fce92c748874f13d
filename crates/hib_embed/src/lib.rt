//! The program and its tools as calls from memory to memory: words and an input go in, and a text, a line and a number
//! come out. A call keeps nothing: each begins with no rows.
#![tactic(auto)]

mod answer;
mod page;
mod program;
mod rooms;
mod toolbox;
mod unserved;
mod words;

pub use answer::Answer;
pub use program::{call, call_into};
pub use toolbox::{use_tools, use_tools_into};
pub use unserved::Unserved;
pub use words::words_in;
