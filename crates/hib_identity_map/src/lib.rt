//! The identity map of a session: one instance for each key that it holds.
#![tactic(auto)]

mod identity;
mod instance;

pub use identity::IdentityMap;
