//! The plain data of the product: keys, rows, changes, scripts and the entries of a journal, and what tables are.
#![tactic(auto)]

mod entries;
mod instances;
mod numbers;
mod refusals;
mod replies;
mod rows;
mod scripts;
mod seq;
mod shared;
mod widening;

pub use entries::{Act, Entry, Part};
pub use instances::{Held, State};
pub use numbers::{EntityNo, Key, QueryNo, SessionNo, Tick};
pub use refusals::{Kind, Refused};
pub use replies::{
    Checked, Commit, Evicted, Got, Inserted, Locked, Miss, Outcome, Put, Reply, Unlocked, Updated,
};
pub use rows::{
    Bytes, Cell, Cells, Change, Changes, Listing, Names, Row, Rows, Sets, Text, copy_cells,
    copy_names, copy_sets, owned_cells, set_cells,
};
pub use scripts::{
    ColumnDef, ColumnType, Columns, Cond, EntityDef, Mapping, Mode, Node, Op, Order, Orders, Path,
    Queries, Query, Script, Select, SessionDef, Sessions, Sort, Sorts, Statement, Statements,
    Strategy, Target, is_cached, strategy_of,
};
pub use seq::Seq;
pub use shared::Shared;
pub use widening::{entity_columns, has_defaults, is_narrow, widened_cells};

/// Acts that are due one after another.
pub type Acts = Seq<Act>;

/// The locks that a session has taken: keys with the numbers of their locks.
pub type Locks = Seq<(Key, Tick)>;
