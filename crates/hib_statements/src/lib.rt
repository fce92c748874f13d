//! The lines of a script that are no declarations of entities or queries: rows, statements of sessions, and orders of a
//! schedule.
#![tactic(auto)]

mod errors;
mod given;
mod named;
mod orders;
mod parts;
mod rows;
mod statements;

pub use errors::StatementError;
pub use given::Given;
pub use named::NamedSessions;
pub use orders::order;
pub use parts::{Pairs, read_pairs};
pub use rows::row;
pub use statements::statement;
