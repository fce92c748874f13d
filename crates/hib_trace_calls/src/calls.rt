// Calls with numbers for their texts.
use hib_trace_lines::{Operation, Outcome};
use hib_trace_numbers::Names;

/// The texts that have numbers: sessions, keys, tables, transactions, and rows as a report tells them.
#[derive(Drop)]
pub struct Texts {
    /// The sessions.
    pub sessions: Names,
    /// The keys.
    pub keys: Names,
    /// The tables.
    pub tables: Names,
    /// The transactions.
    pub transactions: Names,
    /// The rows.
    pub rows: Names,
}

/// A row that a commit's line says it made.
#[derive(Clone, Copy, Debug, PartialEq, Eq)]
pub struct Made {
    /// The number of its key.
    pub key: usize,
    /// The number of the table that the key is of.
    pub table: usize,
    /// The number of the row.
    pub row: usize,
    /// The row's version.
    pub version: u64,
}

/// A line of a trace.
#[derive(Drop)]
pub struct Call {
    /// What it was for.
    pub operation: Operation,
    /// The number of the session that made it, if that is told.
    pub session: Option<usize>,
    /// The number of its transaction, if that is told.
    pub transaction: Option<usize>,
    /// The number of the key, if it is about one.
    pub key: Option<usize>,
    /// The number of the table that the key is of, if it is about one.
    pub table: Option<usize>,
    /// The number of the row.
    pub row: usize,
    /// The row's version, if that is told.
    pub version: Option<u64>,
    /// The number of the row that a write rests on, if that is told.
    pub base: Option<usize>,
    /// How it ended, if that is told.
    pub outcome: Option<Outcome>,
    /// The rows that a commit says it made.
    pub made: Vec<Made>,
    /// The numbers of the tables that a list is of.
    pub tables: Vec<usize>,
    /// When it began, in units of the trace's clock.
    pub begin: u64,
    /// When it had returned.
    pub end: u64,
}

/// The calls of a trace, in the order of its lines.
#[derive(Drop)]
pub struct Trace {
    /// The calls.
    pub calls: Vec<Call>,
    /// The texts that their numbers stand for.
    pub texts: Texts,
    /// The number of the row that is told if there is none.
    pub none: usize,
}

/// From when a call lasted until when, in units of the trace's clock.
#[derive(Clone, Copy, Debug, PartialEq, Eq)]
pub struct Span {
    /// When it began.
    pub begin: u64,
    /// When it had returned.
    pub end: u64,
}

/// What became of a write.
#[derive(Clone, Copy, Debug, PartialEq, Eq)]
pub enum Fate {
    /// It isn't known: it may have been committed at any time.
    Open,
    /// It was committed by this call.
    Committed(Span),
    /// It was rolled back.
    RolledBack,
}

/// A row that a transaction wrote.
#[derive(Clone, Copy, Debug, PartialEq, Eq)]
pub struct Write {
    /// The number of the transaction, if that is told.
    pub transaction: Option<usize>,
    /// The number of the key.
    pub key: usize,
    /// The number of the table that the key is of.
    pub table: usize,
    /// The number of the row.
    pub row: usize,
    /// The row's version, if that is told.
    pub version: Option<u64>,
    /// When the write began.
    pub begin: u64,
    /// When the write had returned.
    pub end: u64,
    /// What became of it.
    pub fate: Fate,
}
