//! A session: which act is due, what it answers itself, and what it remembers of its own entries.
#![tactic(auto)]

mod ahead;
mod bounds;
mod changed;
mod control;
mod growing;
mod instances;
mod keyed;
mod killing;
mod memory;
mod noting;
mod opening;
mod queries;
mod queue;
mod session;
mod stages;
mod written;

pub use bounds::entries_are_few;
pub use growing::sessions_may_grow;
pub use killing::{kill_all, kill_at};
pub use opening::open_all;
pub use session::Session;
