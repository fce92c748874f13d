//! The parts that sessions share, each an engine that answers the acts which are asked of it.
//!
//! What an engine promises it promises for every list that it stands for, the whole journal or the part's own entries,
//! and for every tick after those of the part's entries. `Engines` are all five of a script, over any keeper: they
//! answer each act of the script's sessions, and those from outside. What names a run of these, `Name`, and what a step
//! of one did, stand here too.
#![tactic(auto)]

mod engines;
mod fences;
mod joined;
mod names;
mod queries;
mod region;
mod region_list;
mod registry;
mod results;
mod stamps;
mod stepped;
mod store;

pub use engines::Engines;
pub use fences::fence_entries;
pub use joined::{entries_elsewhere, laws, lists_leave};
pub use names::Name;
pub use region::Region;
pub use region_list::{fence_region, open_regions, serve_region};
pub use registry::Registry;
pub use results::ResultsEngine;
pub use stamps::StampsEngine;
pub use stepped::Stepped;
pub use store::StoreEngine;
