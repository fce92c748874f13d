//! Update timestamps: for each table, when it was last changed or is about to be.
#![tactic(auto)]

mod laws;
mod stamps;

pub use laws::{
    other_acts_leave_stamps, stamps_answer, stamps_follow, unstamped_stand_for_no_entry,
};
pub use stamps::Stamps;
