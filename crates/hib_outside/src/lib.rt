//! The outside of the product: sources, sinks, keepers of tables, gates and listeners, with what memory makes of them.
#![tactic(auto)]

mod adapters;
mod failing;
mod gate;
mod keeper;
pub mod keyed;
mod listener;
mod mem_keeper;
mod mem_streams;
mod parted;
mod shelf;
mod streams;
mod writing;

pub use adapters::{StdSink, StdSource};
pub use failing::{Failing, Numbers};
pub use gate::{Gate, OpenGate};
pub use keeper::{Applied, KeepFault, Keeper};
pub use listener::{Heard, Listener};
pub use mem_keeper::MemKeeper;
pub use mem_streams::{MemSink, MemSource};
pub use shelf::laid_over;
pub use streams::{Failed, Sink, Source};
pub use writing::write_all;
