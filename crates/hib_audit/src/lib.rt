//! The audit of any journal: whether it is legal, or which entry is the first that isn't, and by which of its points.
//!
//! The audit goes over the entries once. It keeps a session for each of the script's and an engine for each part, over
//! a store of its own. Of each entry it looks at the points in their order: the tick, the session, the part, the act
//! and the reply. The act is asked of the session, and the reply of the session or the engine; both are compared with
//! the entry's. What follows the first bad entry is not looked at.
#![tactic(auto)]

mod actors;
mod auditing;
mod auditor;
mod keeper;
mod points;
mod same;
mod sessions;
mod ticks;
mod verdict;
mod written;

pub use auditing::audit;
pub use points::AuditKind;
pub use verdict::Audit;
