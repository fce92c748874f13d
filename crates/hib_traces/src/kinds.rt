//! The verdicts.

/// What is said of an answer.
#[derive(Clone, Copy, Debug, PartialEq, Eq)]
pub enum Verdict {
    /// No commit of the trace made its row.
    Unknown,
    /// It may be right: some explanation of the commits agrees, as far as the law goes.
    Possible,
    /// Its row was replaced by this instant at the latest, before the answer's window began: stale in every explanation.
    Old(u64),
    /// Its row was made after the answer had ended: dirty in every explanation.
    New,
}
