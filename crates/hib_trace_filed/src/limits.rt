// What a judge allows for.

/// What tells the order of a key's commits, beside calls that don't overlap.
#[derive(Clone, Copy, Debug, PartialEq, Eq)]
pub enum OrderBy {
    /// Nothing.
    Commit,
    /// The versions of their rows.
    Version,
    /// When their rows had been written: for a store in which writers of a row exclude each other until they commit.
    Write,
}

/// What a judge allows for. Times are in units of the trace's clock.
#[derive(Clone, Copy, Debug, PartialEq, Eq)]
pub struct Limits {
    /// What tells the order of a key's commits.
    pub order: OrderBy,
    /// By how much clocks may differ: each commit may have begun so much earlier, and ended so much later.
    pub clock: u64,
    /// How old an answer may be: its window begins so much earlier.
    pub allow: u64,
}
