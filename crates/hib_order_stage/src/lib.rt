//! Searches the orders of a script's sessions: each is played by a new factory over a new keeper in memory, and judged.
#![tactic(auto)]

mod searching;
mod stage;
mod watcher;

pub use searching::{Searched, search_orders};
pub use stage::Stage;
pub use watcher::Watcher;
