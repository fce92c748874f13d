//! Live sessions: a factory whose sessions are given their statements one by one. What was asked of it so far is a
//! script, which grows behind the journal; the journal is legal for that script at any time, and obeys the law.
#![tactic(auto)]

mod fitting;
mod growing;
mod live;
mod refusal;
mod steps;
mod turns;

pub use fitting::fits;
pub use hib_core::{Name, Stepped};
pub use live::Live;
pub use refusal::Refusal;
pub use steps::LiveCore;
