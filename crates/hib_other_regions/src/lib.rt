//! Regions that hold items alone: read-only and nonstrict ones.
//!
//! A full region lets its oldest item go for a new one. `laws` says that what a region does is what the journal's
//! definitions say.
#![tactic(auto)]

mod items;
pub mod laws;
mod nonstrict;
mod read_only;

pub use nonstrict::NonstrictRegion;
pub use read_only::ReadOnlyRegion;
