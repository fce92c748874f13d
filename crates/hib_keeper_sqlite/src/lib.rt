//! Keepers over SQLite: one in memory that tells its tables, and one over any store, such as a file, that tells
//! nothing.
#![tactic(auto)]

mod batch;
mod fits;
mod keeper;
mod open;
mod widening;

pub use hib_sqlite_rows::{pack, unpack};
pub use keeper::{SqlKeeper, SqliteKeeper, SqliteTables};
pub use open::{adopt, in_memory, open_file};
