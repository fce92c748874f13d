//! Listeners, which are told each entry of a run, and what its entries come to in numbers.
#![tactic(auto)]

mod counts;
mod in_memory;
mod laws;
mod listeners;
mod regions;
mod statistics;
mod tests_of;
mod trace;

pub use counts::{QueryCounts, RegionCounts, StoreCounts};
pub use in_memory::{Limited, Recorder};
pub use laws::{counts_are_few, nothing_was_told, noting_counts, telling_goes_on};
pub use listeners::Listeners;
pub use regions::RegionList;
pub use statistics::Statistics;
pub use tests_of::key_in;
pub use trace::Trace;
