// What may end badly in a run, as the judge of orders finds it.

/// What is judged of a run.
#[derive(Clone, Copy, Debug, PartialEq, Eq)]
pub struct Verdicts {
    /// A hit answers a row that is not the committed one.
    pub stale_hit: bool,
    /// A kept list is called fresh that is not what its query gives.
    pub old_list: bool,
    /// A commit overwrites a row that it never read.
    pub lost_update: bool,
    /// A commit is answered stale or duplicate.
    pub refused_commit: bool,
    /// The claims on the cache don't speak of one of its read-write keys.
    pub unsound_key: bool,
}
