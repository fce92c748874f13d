//! The JSON lines of entries: written byte for byte, and read as five members.
#![tactic(auto)]

mod escapes;
mod fields;
mod lines;
mod sending;
mod straight;

pub use escapes::put_quoted;
pub use fields::{Line, read_line};
pub use lines::{put_line, write};
pub use sending::send;
