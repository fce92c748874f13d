// The judgement of each line of a trace.
ghost use Rattle.hib_trace_calls.specs.Numbers.{IsBelow};
ghost use Rattle.hib_trace_judge.specs.Found.{AreListsReady, AreReady, IsOperationFound};
ghost use Rattle.hib_trace_judge.specs.Lines.{IsCallJudged};
ghost use Rattle.hib_trace_judge.specs.Told.{told_writes};
ghost use Rattle.std.specs.List.{All, AllZip};
ghost use Rattle.std.specs.Prelude.{◌≡◌, ◌<◌, ℕ, IfOk};

use crate::hits::judge_hit;
use crate::lists::judge_list;
use crate::updates::judge_write;
use hib_trace_before::rows_before;
use hib_trace_calls::{Call, Fate, Write, fates_in, writes_in};
use hib_trace_filed::{Filed, Limits, file_writes};
use hib_trace_findings::Judgement;
use hib_trace_lines::Operation;
use hib_trace_lists::{Lists, lists_of};
use std::alloc::{AllocError, Global};

// The judgement of a call, if it is an answer, a list or a write.
fn judge_call(
    filed: &Filed,
    lists: &Lists,
    fates: &[Option<Fate>],
    count: usize,
    call: &Call,
    limits: &Limits,
) -> Option<Judgement>
    requires ready { AreReady count filed.now }
    requires lists { AreListsReady count lists.now }
    requires key { IsBelow count call.now.key }
    ensures { (none : ℕ) → IsOperationFound call.now.operation none filed.now lists.now fates.now limits.now call.now result }
{
    match call.operation {
        Operation::Hit => match call.key {
            Some(key) => Some(judge_hit(filed, count, key, call, limits)),
            None => None,
        },
        Operation::ListHit => judge_list(lists, count, call, limits),
        Operation::Write => judge_write(filed, fates, count, call, limits),
        _ => None,
    }
}

// The writes that calls tell, and the rows that their keys had before.
fn told_in(
    alloc: Global,
    calls: &[Call],
    keys: usize,
    transactions: usize,
    clock: u64,
) -> Result<Vec<Write>, AllocError>
    requires { All (λ c. IsBelow transactions c.transaction) calls.now }
    ensures { IfOk result (λ v. v.items ≡ told_writes clock keys calls.now) }
{
    let mut writes = writes_in(alloc, calls, transactions)?;
    let mut before = rows_before(alloc, calls, &writes, keys, clock)?;
    writes.append(&mut before)?;
    Ok(writes)
}

/// How many texts have numbers, and which row is none.
#[derive(Clone, Copy, Debug, PartialEq, Eq)]
pub struct Counts {
    /// How many keys there are: their numbers are below it.
    pub keys: usize,
    /// How many tables there are.
    pub tables: usize,
    /// How many transactions there are.
    pub transactions: usize,
    /// The number of the row that is told if there is none.
    pub none: usize,
}

/// The judgement of each call of a trace that is an answer of its cache, a list or a write, and none of the
/// others.
pub fn judge_calls(
    alloc: Global,
    calls: &[Call],
    counts: &Counts,
    limits: &Limits,
) -> Result<Vec<Option<Judgement>>, AllocError>
    requires keys { All (λ c. IsBelow counts.now.keys c.key) calls.now }
    requires tables { All (λ c. All (λ k. k < counts.now.tables) c.tables.items) calls.now }
    requires transactions { All (λ c. IsBelow counts.now.transactions c.transaction) calls.now }
    ensures { IfOk result (λ v. AllZip (IsCallJudged limits.now counts.now.none calls.now
        (told_writes limits.now.clock counts.now.keys calls.now)) calls.now v.items) }
{
    let writes = told_in(alloc, calls, counts.keys, counts.transactions, limits.clock)?;
    let filed = file_writes(alloc, &writes, counts.keys, counts.none, limits)?;
    let lists = lists_of(alloc, calls, &writes, counts.keys, counts.tables, limits)?;
    let fates = fates_in(alloc, calls, counts.transactions)?;
    let mut judgements = Vec::new(alloc);
    for call in calls {
        judgements.push(judge_call(&filed, &lists, &fates, counts.keys, call, limits))?;
    }
    Ok(judgements)
}
