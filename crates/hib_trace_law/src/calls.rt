//! A key whose commits stand in one known order.
ghost use Rattle.std.specs.Prelude.{◌≡◌, ◌≤◌, length};
ghost use Rattle.hib_trace_law.specs.Placings.{may_be, IsSound, IsComplete};
ghost use Rattle.hib_trace_law.specs.Together.{IsExact};

/// The call of a commit of one key. Those of a key stand in the order of the rows that they made.
#[derive(Clone, Copy, Debug, PartialEq, Eq)]
pub struct Call {
    /// When the call began.
    pub begin: u64,
    /// When it had returned.
    pub end: u64,
}

/// A row that a cache answered, by its place among those that were made.
#[derive(Clone, Copy, Debug, PartialEq, Eq)]
pub struct Sighting {
    /// How many of the key's commits had been made when its row was made.
    pub place: usize,
    /// The first instant whose row may be answered.
    pub since: u64,
    /// When the call had returned.
    pub end: u64,
}

/// An answer that is refused is explained by no placing of the commits.
pub fn sightings_are_sound()
    ensures sound { IsSound }
{}

/// An answer that passes is explained by one.
pub fn sightings_are_complete()
    ensures complete { IsComplete }
{}

/// One placing explains all answers of a key together if and only if the commits, narrowed by each answer, can each be
/// put as early as possible.
pub fn placings_are_found()
    ensures exact { IsExact }
{}

/// Whether an answer may have been the committed row at an instant of its own, if the commits of its key are these.
pub fn passes(calls: &[Call], seen: &Sighting) -> bool
    requires { seen.now.place ≤ length calls.now }
    ensures { result ≡ may_be seen.now.place calls.now seen.now }
{
    for at in 0..calls.len() {
        let call = &calls[at];
        if at < seen.place {
            if call.begin > seen.end {
                return false;
            }
        } else if call.end < seen.since {
            return false;
        }
    }
    true
}
