//! The lists of parts merged into one, and whether the lists of sessions agree with it.
//!
//! If each part stands behind a lock of its own, each keeps a list of its entries, and so does each session. `merge`
//! makes one list of those of the parts. `agree` says whether the lists of the sessions are those of their entries in
//! it, and whether each tick is the one that is due; else where they differ. Both take time by the number of entries;
//! `merge` compares an entry once for each halving of the lists, and copies it once.
#![tactic(auto)]

mod agreeing;
mod differences;
mod merging;
mod order;
mod placing;
mod pointed;
mod tearing;
mod ticks;

pub use agreeing::agree;
use hib_base::Seq;
use hib_journal::Journal;
pub use merging::merge;
pub use tearing::Torn;

/// Lists of entries: one of each part, or one of each session.
pub type Lists = Seq<Journal>;
