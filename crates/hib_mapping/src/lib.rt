//! The mapping of a script: its entity and column lines.
#![tactic(auto)]

mod cells;
mod lines;
mod names;
mod tokens;

pub use cells::{cell, has_type};
pub use lines::{column_kind, entity, entity_kind, is_column_line, is_entity_line, with_column};
pub use names::{column_place, entity_number, is_reserved};
pub use tokens::{is_number, is_within, is_word, number_up_to, word, word_bytes};
