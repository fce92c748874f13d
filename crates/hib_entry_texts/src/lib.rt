//! Acts and replies: what bytes look like, and which are well formed. A text that is written is read again.
#![tactic(auto)]

mod acts;
mod answers;
mod changes;
mod regions;
mod replies;
mod well_formed;

pub use acts::act_of;
pub use answers::is_reply;
pub use replies::reply_of;
pub use well_formed::{is_act, part_of};
