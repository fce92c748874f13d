//! A slot of a read-write region: an item or a soft lock, and what may be read, put, locked and released.
#![tactic(auto)]

mod slot;

pub use slot::Slot;
