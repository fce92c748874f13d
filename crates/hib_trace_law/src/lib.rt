//! What a trace of a key can mean: its commits have a begin and an end, and no instant. An answer of a cache is refused
//! if it is false in every explanation of them.
//!
//! `Commit` and `Answer` are what a judge looks at, whatever is known of the order of the commits. `Call` and `Sighting`
//! are for a key whose commits stand in one known order, in which all answers can be judged together.
#![tactic(auto)]

mod calls;
mod commits;
mod laws;

pub use calls::{
    Call, Sighting, passes, placings_are_found, sightings_are_complete, sightings_are_sound,
};
pub use commits::{Answer, Commit};
pub use laws::{
    ages_are_least, answers_went_back, refusals_are_complete, refusals_are_sound, updates_were_lost,
};
