//! The lines of the sections that come after a script: the collections that they declare, the bulk changes, or the
//! places of sessions.
#![tactic(auto)]

mod before;
mod bulk_lines;
mod bulks;
mod collections;
mod errors;
mod named;
mod placed;
mod places;
mod schedules;

pub use bulks::read_bulks;
pub use collections::read_collections;
pub use places::read_nodes;
