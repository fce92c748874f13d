//! The words of the command line, of the program and of its tools: which command they are, and the texts that tell of
//! them.
#![tactic(auto)]

mod forms;
mod parse;
mod texts;
mod tools;
mod topics;
mod words;

pub use texts::{VERSION, help, tools_help};
pub use tools::{Tool, file_of_tool, read_tool};
pub use topics::{Topic, topic_asked};
pub use words::{Command, Options, read};
