//! Parts under locks of their own: each part by itself and each session by itself, with the list of its own entries.
//!
//! A part's type keeps that its list is legal by itself, and a worker's type keeps that of its session's. What holds of
//! the one list into which they are merged is said by `hib_split_law`.
#![tactic(auto)]

mod copied;
mod entering;
mod parts;
mod region;
mod registry;
mod results;
mod stamps;
mod start_rows;
mod store;
mod turns;
mod worker;

pub use parts::Parts;
pub use region::RegionPart;
pub use registry::RegistryPart;
pub use results::ResultsPart;
pub use stamps::StampsPart;
pub use start_rows::{StartList, StartRows};
pub use store::StorePart;
pub use turns::{step_own, step_region, step_registry, step_results, step_stamps, step_store};
pub use worker::Worker;
