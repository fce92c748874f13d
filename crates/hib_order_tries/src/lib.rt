//! Tries each order of sessions and kills within a number of switches, those with the fewest first, and says which of
//! them end badly.
#![tactic(auto)]

mod beside;
mod endings;
mod found;
mod laws;
mod openings;
mod player;
mod tail;
mod trying;
mod waiting;

pub use beside::{Beginnings, others, switches};
pub use endings::{Ending, Endings};
pub use found::{Findings, First, Found};
pub use laws::what_is_told_is_so;
pub use player::{Played, Player};
pub use trying::{Told, search};
