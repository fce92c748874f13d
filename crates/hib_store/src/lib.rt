//! The store: read-committed rows of a keeper, with each session's changes deferred to its commit.
#![tactic(auto)]

mod asking;
mod indexed;
mod last_list;
mod queries;
mod snapshot;
mod store;
mod views;
mod written;

pub use asking::Loaded;
pub use queries::tables_of;
pub use snapshot::Snapshot;
pub use store::{Listed, OpenFault, Store};
