//! The columns that words name. It is short, and a crate of its own so that an edit here proves none of hib_mapping
//! anew.
#![tactic(auto)]

mod columns;

pub use columns::{
    Column, Found, columns_of, is_comparable, is_path, is_typed, named_column, path_or_first,
    place_or_first, plain_column,
};
