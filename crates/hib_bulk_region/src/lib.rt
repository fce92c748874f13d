//! A read-write region that bulk lines may lock as a whole: an `RwRegion`, how many lines hold it, and when it was last
//! given back.
//!
//! What dates from before that is shut out. `laws` says that what the region does is what the definitions over a
//! journal with bulk lines say.
#![tactic(auto)]

mod answers;
pub mod laws;
mod region;

pub use answers::{BulkGot, BulkInserted, BulkPut};
pub use region::BulkRegion;
