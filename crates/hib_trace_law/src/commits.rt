//! A key of whose commits the order is known in part: by versions, and by calls that don't overlap.

/// What a trace tells of a commit of a key.
#[derive(Clone, Copy, Debug, PartialEq, Eq)]
pub struct Commit {
    /// The row that it made.
    pub row: usize,
    /// When the call began.
    pub begin: u64,
    /// When the call had returned. If its outcome is unknown it has no end: it may have been made at any later instant,
    /// and never is an instant after each answer.
    pub end: Option<u64>,
    /// Its place in the order of the key's rows, if that is known.
    pub version: Option<u64>,
}

/// A row that a cache answered.
#[derive(Clone, Copy, Debug, PartialEq, Eq)]
pub struct Answer {
    /// Its row.
    pub row: usize,
    /// The first instant whose row may be answered.
    pub since: u64,
    /// When the call had returned.
    pub end: u64,
}
