//! A journal as JSON lines, written and read exactly.
#![tactic(auto)]

mod entries;
mod faults;
mod journal;

pub use faults::JournalFault;
pub use hib_json_lines::{put_line, write};
pub use journal::{are_entries, read};
