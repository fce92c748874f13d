//! The fields of act and reply texts: what bytes look like, and which fields are well formed.
#![tactic(auto)]

mod cells;
mod fields;
mod known;
mod names;
mod sessions;
mod sets;

pub use cells::{cells_at, row_at};
pub use fields::{after_one, is, next, number_of, piece, small, version_of};
pub use known::{
    are_cells, are_sets, are_tables, is_entity, is_identifier, is_key, is_query, is_row,
    is_session, is_tick, is_version,
};
pub use names::{entity_of, key_at, names_of, query_of};
pub use sessions::{SessionNames, session_of};
pub use sets::sets_of;
