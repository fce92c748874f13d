//! What comes after a script in a text: the line `journal` and a journal as JSON lines, or a word and the lines of a
//! section.
#![tactic(auto)]

mod cutting;
mod unmarked;
mod with_journal;
mod with_section;

pub use with_journal::{WithJournal, read_with_journal};
pub use with_section::{WithSection, read_with_section};
