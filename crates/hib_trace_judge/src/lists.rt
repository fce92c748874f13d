// The judgement of a list that the cache answered.
ghost use Rattle.hib_trace_judge.specs.Found.{AreListsReady, IsListFound};
ghost use Rattle.hib_trace_calls.specs.Numbers.{IsBelow};

use hib_trace_calls::Call;
use hib_trace_filed::{Limits, earlier_by};
use hib_trace_findings::Judgement;
use hib_trace_lists::Lists;

/// The judgement of a list that the cache answered, if its query is told.
pub fn judge_list(lists: &Lists, count: usize, call: &Call, limits: &Limits) -> Option<Judgement>
    requires ready { AreListsReady count lists.now }
    requires key { IsBelow count call.now.key }
    ensures { IsListFound call.now.key lists.now limits.now call.now result }
{
    match call.key {
        None => None,
        Some(key) => {
            let since = earlier_by(call.begin, limits.allow);
            Some(lists.judge(key, call.row, since, call.end))
        }
    }
}
