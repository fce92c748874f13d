//! The calls of the commands that read a section after the script: `collect`, `bulk` and `nodes`. The script is run
//! with collections, with bulk changes or at two nodes, and the journal of that is written.
#![tactic(auto)]

mod bulk;
mod collect;
mod nodes;

pub use bulk::{BulkRun, Bulking, call_bulk};
pub use collect::{Collected, Gathering, call_collect};
pub use nodes::{NodeRun, Placing, call_nodes};
