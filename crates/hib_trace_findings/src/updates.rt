// What is said of a commit of a key.
ghost use Rattle.hib_trace_findings.specs.Updates as updates;
ghost use Rattle.hib_trace_findings.specs.Updates.{IsLost};
ghost use Rattle.hib_traces.specs.Stands.{Stands};
ghost use Rattle.std.specs.Prelude.{◌≡◌};

use hib_trace_law::{Answer, Commit};
use hib_traces::{Order, Verdict, verdict};

// By when a row was replaced, if a verdict says so.
fn replaced_by(verdict: Verdict) -> Option<u64>
    ensures { result ≡ updates.replaced_by verdict }
{
    match verdict {
        Verdict::Old(gone_by) => Some(gone_by),
        Verdict::Unknown => None,
        Verdict::Possible => None,
        Verdict::New => None,
    }
}

/// By when the row that a commit rests on had been replaced for certain, before the commit's call began: its update
/// was lost then. None if that isn't certain, as of a commit whose outcome is unknown.
pub fn lost_update(order: &Order, commit: &Commit, base: usize) -> Option<u64>
    requires { Stands order.now }
    ensures { IsLost order.now.commits.items commit.now base result }
{
    match commit.end {
        None => None,
        Some(end) => {
            let answer = Answer {
                row: base,
                since: commit.begin,
                end,
            };
            replaced_by(verdict(order, &answer))
        }
    }
}
