//! The sessions of a script on several threads, over one factory behind one lock.
#![tactic(auto)]

mod desk;
mod workers;

pub use workers::{Worked, work};
