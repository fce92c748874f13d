// What a line of a trace says.
use std::marker::Model;

/// What a call was for.
#[derive(Clone, Copy, Debug, PartialEq, Eq)]
pub enum Operation {
    /// The cache answered a row.
    Hit,
    /// The cache had none.
    Miss,
    /// A row was put into the cache after it had been loaded.
    Put,
    /// A row was put into the cache after it had been written.
    Update,
    /// A row was dropped from the cache.
    Evict,
    /// A key of the cache was locked.
    Lock,
    /// A key of the cache was unlocked.
    Unlock,
    /// The database answered a row.
    Load,
    /// A row was written to the database.
    Write,
    /// A transaction was committed.
    Commit,
    /// A transaction was rolled back.
    Rollback,
    /// The cache answered a list.
    ListHit,
    /// The cache had no list.
    ListMiss,
    /// A list was put into the cache.
    ListPut,
    /// The database answered a list.
    ListLoad,
}

/// How a call ended.
#[derive(Clone, Copy, Debug, PartialEq, Eq)]
pub enum Outcome {
    /// A commit was made.
    Committed,
    /// It isn't known whether a commit was made.
    Unknown,
    /// The cache took what was put.
    Stored,
    /// The cache didn't take it.
    Refused,
    /// The call did what it was for.
    Done,
}

/// A row that a commit's line says it made.
#[derive(Drop)]
pub struct WrittenRow {
    /// Its key.
    pub key: String,
    /// Its version.
    pub version: u64,
}

/// A call that has returned. Contracts see the bytes of its texts.
#[derive(Drop)]
pub struct Event {
    /// What it was for.
    pub operation: Operation,
    /// The session that made it, if that is told.
    pub session: Option<String>,
    /// Its transaction, if that is told.
    pub transaction: Option<String>,
    /// The key, if it is about one.
    pub key: Option<String>,
    /// What tells the row apart from others of its key, if that is told.
    pub value: Option<String>,
    /// The number of the row's version, if that is told.
    pub version: Option<u64>,
    /// The value of the row that a write rests on, if that is told.
    pub base: Option<String>,
    /// How it ended, if that is told.
    pub outcome: Option<Outcome>,
    /// The rows that a commit says it made.
    pub writes: Vec<WrittenRow>,
    /// The tables that a list is of.
    pub tables: Vec<String>,
    /// When it began, in units of the trace's clock.
    pub begin: u64,
    /// When it had returned: not before it began.
    pub end: u64,
}

impl Model for Event {
    ghost use Rattle.std.specs.Prelude.{map, string_bytes};
    ghost use Rattle.std.specs.Option.{option_map};
    ghost use Rattle.hib_trace_lines.specs.Events.{EventText};
    ghost use Rattle.hib_trace_lines.specs.Rows.{row_text};

    ghost Value = { EventText };

    ghost view = { λ e. record {
      operation = e.operation;
      session = option_map string_bytes e.session;
      transaction = option_map string_bytes e.transaction;
      key = option_map string_bytes e.key;
      value = option_map string_bytes e.value;
      version = e.version;
      base = option_map string_bytes e.base;
      outcome = e.outcome;
      writes = map row_text e.writes.items;
      tables = map string_bytes e.tables.items;
      begin = e.begin;
      end = e.end;
    } };
}
