//! The answers to an application that drives live sessions: each a line, which is a JSON object. It lists the entries that
//! a request added, or says why the request is refused.
#![tactic(auto)]

mod answers;
mod pieces;
mod refusals;

pub use answers::{put_done, put_refused};
pub use refusals::Refusal;
