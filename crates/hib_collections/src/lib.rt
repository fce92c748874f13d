//! Collections: sessions over shared engines and over regions that keep, for an owner, the identifiers of the rows that
//! refer to it.
//!
//! `Gather` takes one step of one session at a time. Each adds one entry to a journal that stays legal: of the
//! session's plan, or at a collection's region before or after that. The law of such journals stands in
//! `hib_collections_law`.
#![tactic(auto)]

mod at_owners;
mod before;
mod counting;
mod gather;
mod gathered;
mod lines;
mod locks;
mod members;
mod names;
mod notes;
mod owners;
mod places;
mod running;
mod shared;
mod steps;
mod telling;
mod turns;

pub use gather::{Gather, GatherRefused};
pub use gathered::Gathered;
pub use hib_collections_law::{Def, Defs, GatherEntry, MemberAct, MemberEntry};
pub use lines::text;
pub use names::Name;
pub use steps::GatherCore;
