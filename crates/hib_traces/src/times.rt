//! What the memory of a key says of a commit.
ghost use Rattle.hib_trace_law.specs.Certain.{ended_before, is_new, is_old};
ghost use Rattle.hib_traces.specs.Stands.{Remembers, Stands};
ghost use Rattle.hib_traces.specs.Verdicts.{is_contradicted};
ghost use Rattle.std.specs.Prelude.{◌≡◌, ℕ, nat_lt};

use crate::marks::{furthest_below, least_beyond, least_of};
use crate::order::{Order, version_of};
use hib_trace_law::Commit;

/// The least end of the commits that certainly came after one.
pub fn gone_by(order: &Order, commit: &Commit) -> Option<u64>
    requires { Remembers order.now }
    ensures { (t : ℕ) → is_old order.now.commits.items commit.now t ≡ ended_before result t }
{
    match commit.end {
        None => None,
        Some(end) => {
            let by_calls = least_beyond(&order.calls, end);
            match commit.version {
                None => by_calls,
                Some(version) => least_of(by_calls, least_beyond(&order.versions, version)),
            }
        }
    }
}

/// The first instant for which the row of a commit isn't too new: the greatest begin of it and of those before it.
pub fn ready_of(order: &Order, commit: &Commit) -> u64
    requires { Remembers order.now }
    ensures { (e : ℕ) → is_new order.now.commits.items commit.now e ≡ nat_lt e result }
{
    match version_of(commit) {
        None => commit.begin,
        Some(version) => commit.begin.max(furthest_below(&order.begins, version)),
    }
}

// Whether there is a number, and it is less than another one.
fn is_less(number: Option<u64>, limit: u64) -> bool
    ensures { result ≡ ended_before number limit }
{
    match number {
        None => false,
        Some(one) => one < limit,
    }
}

/// Whether the row of a commit was certainly replaced before an instant. The commit needn't be one of the key's.
pub fn is_too_old(order: &Order, commit: &Commit, instant: u64) -> bool
    requires { Remembers order.now }
    ensures { result ≡ is_old order.now.commits.items commit.now instant }
{
    is_less(gone_by(order, commit), instant)
}

/// Whether a commit of a higher version had ended before a commit of this version began: then the versions don't say
/// in which order the commits were made, or the clock is wrong by more than the trace's calls were widened.
pub fn contradicts(order: &Order, version: Option<u64>, begin: u64) -> bool
    requires { Remembers order.now }
    ensures { result ≡ is_contradicted order.now.commits.items version begin }
{
    match version {
        None => false,
        Some(number) => is_less(least_beyond(&order.versions, number), begin),
    }
}
