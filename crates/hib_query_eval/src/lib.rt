//! What a query gives over rows. hib_store asks it for lists, and for the rows that a bulk line changes.
#![tactic(auto)]

mod candidates;
mod cells;
mod changing;
mod columns;
mod conditions;
mod foremost;
mod index;
mod laws;
mod listing;
mod met;
mod orders;
mod overlay;
mod own;
mod places;
mod reading;
mod searches;
mod view;

pub use index::Index;
pub use laws::other_tables_leave_what_is_given;
pub use listing::gives;
pub use met::rows_met;
pub use own::Own;
