//! What each program's main does around its call: the words of the command line, its texts, and the line on standard
//! error.
#![tactic(auto)]

mod printing;
mod telling;
mod words;

pub use printing::{print_made, print_text};
pub use telling::told;
pub use words::words_given;
