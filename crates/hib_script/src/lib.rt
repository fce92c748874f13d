//! The reader of scripts: a script if a text is one, else the first bad line.
#![tactic(auto)]

mod declarations;
mod drafts;
mod errors;
mod forms;
mod lines;
mod places;
mod reader;
mod sessions;

pub use errors::ScriptError;
pub use reader::{read, read_lines};
