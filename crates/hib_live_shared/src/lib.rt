//! Live sessions for threads: one lock around a live factory, and for each session a handle that one thread at a time
//! speaks through. What holds of a live factory at any time holds of the one that is handed back at the end.
#![tactic(auto)]

mod answering;
mod session;
mod shared;

pub use answering::{Unanswered, answers};
pub use hib_live::{Live, Name, Refusal};
pub use session::Session;
pub use shared::{Hold, Shared};
