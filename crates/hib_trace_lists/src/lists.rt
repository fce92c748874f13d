// The lists that a database gave, and what is told of those that a cache answered.
ghost use Rattle.hib_trace_filed.specs.Keys.{table_commits};
ghost use Rattle.hib_trace_law.specs.declared.commits.Commit.{Commit};
ghost use Rattle.hib_trace_lists.specs.Lists.{IsListJudged};
ghost use Rattle.hib_trace_lists.specs.Loads.{AreAllInOrder, TellLoads};
ghost use Rattle.std.specs.List.{All};
ghost use Rattle.std.specs.Prelude.{◌≡◌, ◌<◌, ℕ, IfOk, List, length};
ghost use Rattle.hib_trace_calls.specs.declared.calls.Call.{Call};

use crate::changes::changes_of;
use crate::loads::{all_ordered, loads_in};
use hib_trace_calls::{Call, Write};
use hib_trace_filed::{By, Limits, Part, file_part};
use hib_trace_findings::Judgement;
use hib_traces::{Place, standing_at};
use std::alloc::{AllocError, Global};

/// The lists that a database gave, by the keys of their queries.
#[derive(Drop)]
pub struct Lists {
    /// When each list that was loaded may have been answered.
    pub loads: Vec<Vec<Place>>,
}

/// The lists that calls tell, by the writes of the trace. Keys and tables have numbers below their counts. The only error
/// is want of memory.
pub fn lists_of(
    alloc: Global,
    calls: &[Call],
    writes: &[Write],
    keys: usize,
    tables: usize,
    limits: &Limits,
) -> Result<Lists, AllocError>
    requires { All (λ c. All (λ k. k < tables) c.tables.items) calls.now }
    ensures count { IfOk result (λ l. length l.loads.items ≡ keys) }
    ensures order { IfOk result (λ l. AreAllInOrder l.loads.items) }
    ensures tell { IfOk result (λ l. TellLoads limits.now.clock (table_commits limits.now writes.now)
        calls.now l.loads.items) }
{
    let files = file_part(alloc, writes, tables, By::Table, Part::Committed, limits)?;
    let changes = changes_of(alloc, &files)?;
    let loads = all_ordered(alloc, loads_in(alloc, calls, &changes, keys, limits.clock)?)?;
    Ok(Lists { loads })
}

impl Lists {
    /// What is told of a list of a query's key that was asked for at `since` and answered by `end`.
    pub fn judge(&self, key: usize, row: usize, since: u64, end: u64) -> Judgement
        requires key { key < length self.now.loads.items }
        requires order { AreAllInOrder self.now.loads.items }
        ensures { (clock : ℕ) (of : ℕ → List Commit) (cs : List Call) → TellLoads clock of cs self.now.loads.items
            → IsListJudged clock of cs key row since end result }
    {
        match standing_at(&self.loads[key], row, end) {
            None => Judgement::OpenList,
            Some(None) => Judgement::OpenList,
            Some(Some(gone)) => {
                if gone < since {
                    Judgement::OldList(gone)
                } else {
                    Judgement::OpenList
                }
            }
        }
    }
}
