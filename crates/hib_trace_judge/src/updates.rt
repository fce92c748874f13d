// The judgement of a write.
ghost use Rattle.hib_trace_calls.specs.Numbers.{IsBelow};
ghost use Rattle.hib_trace_judge.specs.Found.{AreReady, IsWriteFoundIn};
ghost use Rattle.hib_trace_judge.specs.Updates as updates;
ghost use Rattle.hib_trace_judge.specs.Updates.{IsLostIf, IsUpdateJudged};
ghost use Rattle.hib_traces.specs.Stands.{Stands};
ghost use Rattle.std.specs.Prelude.{◌≡◌};

use hib_trace_calls::{Call, Fate, fate_at, write_of};
use hib_trace_filed::{Filed, Limits, commit_of};
use hib_trace_findings::{Judgement, lost_update};
use hib_trace_law::Commit;
use hib_traces::{Order, contradicts};

// By when the row that a commit rests on had been replaced, if that is told and certain.
fn lost_if(order: &Order, commit: &Commit, base: Option<usize>) -> Option<u64>
    requires { Stands order.now }
    ensures { IsLostIf order.now.commits.items commit.now base result }
{
    match base {
        None => None,
        Some(base) => lost_update(order, commit, base),
    }
}

// What is told of a write whose update was lost, or whose commit contradicts the order, or not.
fn update_told(lost: Option<u64>, contradicted: bool) -> Option<Judgement>
    ensures { result ≡ updates.update_told lost contradicted }
{
    match lost {
        Some(_) => Some(Judgement::LostUpdate),
        None => {
            if contradicted {
                Some(Judgement::Contradicted)
            } else {
                None
            }
        }
    }
}

// The judgement of a write that came to this commit, if it was made or may have been.
fn judge_update(order: &Order, commit: Option<Commit>, base: Option<usize>) -> Option<Judgement>
    requires { Stands order.now }
    ensures { IsUpdateJudged order.now.commits.items commit base result }
{
    match commit {
        None => None,
        Some(commit) => {
            let lost = lost_if(order, &commit, base);
            let contradicted = contradicts(order, commit.version, commit.begin);
            update_told(lost, contradicted)
        }
    }
}

/// The judgement of a write, by what became of the transactions.
pub fn judge_write(
    filed: &Filed,
    fates: &[Option<Fate>],
    count: usize,
    call: &Call,
    limits: &Limits,
) -> Option<Judgement>
    requires ready { AreReady count filed.now }
    requires key { IsBelow count call.now.key }
    ensures { IsWriteFoundIn filed.now fates.now limits.now call.now result }
{
    match write_of(call, fate_at(fates, call.transaction)) {
        None => None,
        Some(write) => judge_update(
            &filed.commits[write.key],
            commit_of(&write, limits),
            call.base,
        ),
    }
}
