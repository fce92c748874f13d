//! Judges a run in one pass over its entries.
#![tactic(auto)]

mod dossier;
mod dossiers;
mod endings;
mod footings;
mod judging;
mod laying;
mod tests_of;

pub use endings::ending;
pub use judging::judge;
