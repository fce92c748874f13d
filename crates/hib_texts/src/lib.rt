//! The texts of cells, rows, names and keys, appended to bytes: what reports and printed scripts share. Each `put_`
//! function fails for want of memory alone, and then a part of its text may be appended.
#![tactic(auto)]

mod names;
mod texts;

pub use names::{column_name, entity_name, query_name, session_name};
pub use texts::{
    put_entity, put_key, put_keyed, put_labelled, put_list, put_names, put_number, put_queried,
    put_query, put_row, put_session, put_sets, put_signed, put_text, put_version,
};
