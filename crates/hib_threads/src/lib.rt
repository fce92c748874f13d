//! Threads of a run: how they are started on the same work, and how they take a lock that another of them gives back
//! soon.
#![tactic(auto)]

mod locking;
mod spreading;

pub use locking::lock_soon;
pub use spreading::spread;
