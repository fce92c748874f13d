//! What a flush writes: the pending changes of a session's instances, in order.
#![tactic(auto)]

mod laws;
mod planning;

pub use laws::planned_is_pending;
pub use planning::plan;
