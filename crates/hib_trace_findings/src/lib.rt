//! What is certain of the answers of another cache: stale ones, and ones that no transaction had committed. The row that
//! a key had before the trace began is allowed for. And which updates were lost.
#![tactic(auto)]

mod answers;
mod kinds;
mod laws;
mod updates;

pub use answers::{judged, lives_of};
pub use kinds::Judgement;
pub use laws::lost_updates_are_certain;
pub use updates::lost_update;
