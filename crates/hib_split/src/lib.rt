//! The sessions of a script over parts by themselves: by the caller alone, or on several threads, each part behind a
//! lock of its own. The lists of parts are put together in the order of parts, those of sessions by number.
#![tactic(auto)]

mod alone;
mod ended;
mod gathering;
mod halt;
mod locked_parts;
mod locks;
mod rest;
mod split;
mod strange;
mod threads;

pub use alone::run_alone;
pub use rest::Split;
pub use split::work_split;
