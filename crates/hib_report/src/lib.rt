//! The text of a journal: its entries as lines, and what they come to.
#![tactic(auto)]

mod acts;
mod fates;
mod lines;
mod regions;
mod replies;
mod report;
mod sending;
mod sessions;
mod unsound;
mod watch;

pub use acts::{put_act, put_part};
pub use fates::{Fate, Fates};
pub use lines::line;
pub use replies::put_reply;
pub use report::{summary, text};
pub use sending::{PutLine, WriteStop, send, send_lines, write};
pub use unsound::unsound_keys;
