//! The entries of a journal as flat data: JSON objects with typed members, or comma-separated values (docs/DATA.md).
#![tactic(auto)]

mod cells;
mod columns;
mod form;
mod lines;
mod lists;
mod members;
mod parts;
mod sending;
mod values;
mod words;

pub use cells::put_row_of;
pub use form::Form;
pub use lists::put_list_member;
pub use parts::change_expected;
pub use sending::{write, write_csv};
pub use values::{put_bool_member, put_number_member, put_word_member};
pub use words::change_word;
