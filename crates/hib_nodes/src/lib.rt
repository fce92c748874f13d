//! Two factories over one store: sessions at two nodes, each with a registry and regions of its own.
//!
//! What a session commits at one node waits for the other, where it is delivered by a fence of each key: until then
//! that node may go on with an older row. `Nodes` is a run of both; how old a row can be is said by `hib_nodes_law`.
#![tactic(auto)]

mod fencing;
mod journal;
mod keys;
mod names;
mod node;
mod nodes;
mod opening;
mod parts;
mod placing;
mod queue;
mod running;
mod shared;
mod texts;
mod turns;

pub use journal::Noded;
pub use names::Name;
pub use nodes::Nodes;
pub use texts::text;
