//! Texts of a trace as numbers: the same number exactly if the text is the same.
#![tactic(auto)]

mod names;

pub use names::Names;
