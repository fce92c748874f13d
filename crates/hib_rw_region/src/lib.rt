//! The region of a read-write entity: items and soft locks by identifier, in order of insertion.
//!
//! `laws` says that what the region does is what the journal's definitions say.
#![tactic(auto)]

pub mod laws;
mod queue;
mod region;
mod slots;

pub use region::RwRegion;
