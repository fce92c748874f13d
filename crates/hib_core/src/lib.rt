//! The factory: one step of one session at a time, each of which adds one entry to a journal that stays legal. Its steps
//! stand by themselves too, for whoever keeps script, engines, sessions and journal: `turn`, `kill`, `evict`, `restart`.
#![tactic(auto)]

mod bounds;
mod factory;
mod opening;
mod outside;
mod running;
mod steps;
mod telling;
mod turns;

pub use bounds::runs_are_short;
pub use factory::Factory;
pub use hib_engines::{Name, Stepped};
pub use opening::OpenRefused;
pub use outside::{evict, kill, opened, restart};
pub use steps::Core;
pub use telling::tell;
pub use turns::{has_turn, turn};
