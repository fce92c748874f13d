//! Rows of tables in SQL: the bytes of a row, the statements that read and write rows, and the tables that they tell.
#![tactic(auto)]

mod body;
mod memory;
mod reads;
mod statements;
mod store;
mod table;

pub use body::{can_pack, pack, unpack};
pub use memory::MemoryTable;
pub use reads::{list, read};
pub use store::StoreTable;
pub use table::RowTable;
