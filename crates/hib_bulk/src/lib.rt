//! Bulk changes: sessions over shared parts, and bulk lines, each of which changes the rows that meet a condition under
//! a lock on a whole region.
#![tactic(auto)]

mod changing;
mod factory;
mod journal;
mod lines;
mod names;
mod opening;
mod parts;
mod region;
mod running;
mod steps;
mod storing;
mod texts;
mod turns;

pub use factory::BulkFactory;
pub use journal::Bulked;
pub use names::Name;
pub use region::EntityRegion;
pub use texts::text;
