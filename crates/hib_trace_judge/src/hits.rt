// The judgement of an answer of the cache.
ghost use Rattle.hib_trace_judge.specs.Found.{AreReady, IsHitFoundIn};
ghost use Rattle.hib_trace_judge.specs.Hits as hits;
ghost use Rattle.std.specs.Prelude.{◌≡◌, ◌<◌, ℕ};

use hib_trace_calls::Call;
use hib_trace_filed::{Filed, Limits, earlier_by};
use hib_trace_findings::{Judgement, judged};
use hib_trace_law::Answer;

// An answer of the cache, by its row.
fn answer_of(call: &Call, limits: &Limits) -> Answer
    ensures { result ≡ hits.answer_of limits.now call.now }
{
    Answer {
        row: call.row,
        since: earlier_by(call.begin, limits.allow),
        end: call.end,
    }
}

// What is told of an answer, if its own transaction wrote its row or not.
fn told_as(own: bool, found: Judgement) -> Judgement
    ensures { result ≡ hits.told_as own found }
{
    match (own, found) {
        (true, Judgement::Dirty) => Judgement::Possible,
        (true, Judgement::RolledBack) => Judgement::Possible,
        _ => found,
    }
}

/// The judgement of an answer about a key.
pub fn judge_hit(filed: &Filed, count: usize, key: usize, call: &Call, limits: &Limits) -> Judgement
    requires ready { AreReady count filed.now }
    requires key { key < count }
    ensures { (none : ℕ) → IsHitFoundIn none filed.now key limits.now call.now result }
{
    let answer = answer_of(call, limits);
    let found = judged(
        &filed.commits[key],
        &filed.lives[key],
        &filed.undone[key],
        &answer,
    );
    let own = filed.owns.has(call.transaction, key, call.row);
    told_as(own, found)
}
