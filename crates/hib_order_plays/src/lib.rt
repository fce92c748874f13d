//! Plays one order of a script's sessions over a factory.
#![tactic(auto)]

mod entries;
mod playing;
mod sure;

pub use entries::order_of;
pub use playing::{Run, play_in};
pub use sure::SureKeeper;
