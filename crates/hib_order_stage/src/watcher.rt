// Who hears how far a search is.

/// Who hears how far a search is. No clause says that it hears of each run.
pub trait Watcher {
    /// So many runs were played by now.
    fn played(&mut self, runs: u64);
}
