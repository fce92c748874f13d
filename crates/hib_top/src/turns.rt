// In which order the sessions of a run make their steps.

/// In which order the sessions of a run make their steps.
#[derive(Clone, Copy, Debug, PartialEq, Eq)]
pub enum Turns {
    /// By the orders of the schedule, one after the other, and then each session to its end.
    Scheduled,
    /// On this many workers, as they come to the lock. The schedule isn't used.
    OnWorkers(u32),
    /// On this many workers, as they come to the lock of each part. The schedule isn't used.
    OnParts(u32),
}
