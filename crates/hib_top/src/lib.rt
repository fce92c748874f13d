//! The top call: what the words ask for is the call of a command. A script is read or made, run over a keeper, by its
//! schedule, on workers, with collections, with bulk changes or at two nodes, and told; or a journal that comes after
//! its script is judged.
#![tactic(auto)]

mod any_run;
mod audit;
mod call;
mod make;
mod play;
mod reading;
mod split;
mod telling;
mod turns;
mod work;

pub use any_run::AnyRun;
pub use audit::Judged;
pub use call::{play_words, top};
pub use telling::{Played, Telling};
pub use turns::Turns;
