//! Made scripts: the script that follows from a seed.
#![tactic(auto)]

mod draws;
mod entities;
mod queries;
mod rows;
mod script;
mod sessions;

pub use script::make;
