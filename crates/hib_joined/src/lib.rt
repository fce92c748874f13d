//! A run of a script over parts under locks of their own, joined into one journal. It is short, and a crate of its own
//! so that an edit here proves none of hib_split anew.
//!
//! Each part leaves the list of its entries, and each session its own. The lists of parts are merged; if those of the
//! sessions agree with the merged list, and each tick is the one that is due, that is the journal of the run. Else it
//! is torn, and there is none.
#![tactic(auto)]

mod joining;
mod run;

pub use joining::Joined;
pub use run::{JoinedRun, run_joined};
