// The judgements.

/// What is said of a line of a trace.
#[derive(Clone, Copy, Debug, PartialEq, Eq)]
pub enum Judgement {
    /// Of an answer: no write of the trace made its row, or it may be the one from before the trace.
    Unknown,
    /// Of an answer: it may be right.
    Possible,
    /// Of an answer: its row had been replaced by this instant at the latest, before the answer's window began.
    Stale(u64),
    /// Of an answer: the same, and for certain there was no row any more.
    Resurrected(u64),
    /// Of an answer: its row was committed after the answer had ended.
    Dirty,
    /// Of an answer: its row was written by transactions that were rolled back, and by no others.
    RolledBack,
    /// Of a write: the row that it rests on had been replaced before its commit began.
    LostUpdate,
    /// Of a write: the order of its key says that a commit that had ended before its own began came after it.
    Contradicted,
    /// Of a list: it isn't known to be old.
    OpenList,
    /// Of a list: each load that gave it had ended before a commit on one of its tables began, and by this instant, before
    /// the list was asked for, such a commit had ended.
    OldList(u64),
}
