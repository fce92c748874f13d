// The engine of the kept results of queries.
ghost use Rattle.std.specs.Prelude.{◌≡◌, ◌<◌, ◌∷◌, ℕ, [], Option, None, false, true, IfOk, OnOk, OnErr, unwrap_or};
ghost use Rattle.std.specs.Option.{option_map_or};
ghost use Rattle.hib_base.specs.declared.entries.Act.{Act};
ghost use Rattle.hib_base.specs.declared.replies.Reply.{Reply};
ghost use Rattle.hib_base.specs.declared.scripts.Script.{Script as Said};
ghost use Rattle.hib_journal.specs.Types.{Part};
ghost use Rattle.hib_journal.specs.Sessions.{Journal};
ghost use Rattle.hib_journal.specs.Lists.{entry_at};
ghost use Rattle.hib_journal.specs.Runs.{is_fault};
ghost use Rattle.hib_query_cache.specs.Ranked.{result_of, used, with_result, dropped_for};
ghost use Rattle.hib_engines.specs.Served.{is_for, IsServed, HasQuery};
ghost use Rattle.hib_engines.specs.Results.{AreResults};

use crate::joined::laws;
use hib_base::{Act, Listing, QueryNo, Reply, Tick, copy_cells};
use hib_query_cache::Results;
use std::alloc::{AllocError, Global};
use std::marker::Model;

/// Makes a query's result the most recently used one, if it is kept.
fn use_result(results: &mut Results, query: QueryNo)
    ensures { results.new ≡ record results.old { kept = used query results.old.kept } }
{
    let _ = results.look(query);
}

/// The results of queries, and what acts on them are answered.
#[derive(Drop)]
pub struct ResultsEngine {
    results: Results,
}

impl Model for ResultsEngine {
    ghost use Rattle.hib_query_cache.specs.Ranked.{Ranked};

    ghost Value = { Ranked };

    ghost view = { λ e. e.results };
}

impl ResultsEngine {
    /// The engine in which no result is kept. The capacity must be at least 1. Fails for want of memory alone.
    pub fn open(alloc: Global, capacity: u32) -> Result<ResultsEngine, AllocError>
        requires { 0 < capacity }
        ensures { IfOk result (λ r. r ≡ record { capacity = capacity; kept = [] }) }
    {
        let results = Results::open(alloc, capacity)?;
        Ok(ResultsEngine { results })
    }

    /// Looks for what is kept of a query, as a reply.
    fn look(&mut self, alloc: Global, query: QueryNo) -> Result<Reply, AllocError>
        ensures reply { IfOk result (λ r. r
            ≡ option_map_or (λ k. Reply.Found k.0 k.1)
            (result_of query self.old.kept) Reply.Absent) }
        ensures state { OnOk result (self.new
            ≡ record self.old { kept = used query self.old.kept }) }
        ensures err { OnErr result (self.new ≡ self.old) }
    {
        let reply = match self.results.peek(query) {
            Some((time, list)) => Reply::Found {
                time: *time,
                list: copy_cells(alloc, list)?,
            },
            None => Reply::Absent,
        };
        use_result(&mut self.results, query);
        Ok(reply)
    }

    /// Keeps a list as the result of a query.
    fn keep(
        &mut self,
        alloc: Global,
        query: QueryNo,
        time: Tick,
        list: &Listing,
    ) -> Result<Reply, AllocError>
        ensures reply { IfOk result (λ r. r ≡ Reply.Kept (dropped_for query self.old)) }
        ensures state { OnOk result (self.new
            ≡ record self.old { kept = with_result query (time, list.now) self.old }) }
        ensures err { OnErr result (self.new ≡ self.old) }
    {
        let list = copy_cells(alloc, list)?;
        let dropped = self.results.keep(query, time, list)?;
        Ok(Reply::Kept { dropped })
    }

    /// Answers an act that is asked of the results. At an error nothing has changed.
    pub fn serve(&mut self, alloc: Global, act: &Act) -> Result<Reply, AllocError>
        ensures answered { IfOk result (λ r. (script : Said) (l : Journal) (by : Option ℕ) (now : ℕ)
            → AreResults script l self.old → is_for Part.Results act.now (unwrap_or by 0) ≡ true
            → HasQuery script act.now → IsServed
            (λ m. AreResults script m self.new) script l by now act.now r) }
        ensures calm { IfOk result (λ r. is_fault r ≡ false) }
        ensures err { OnErr result (self.new ≡ self.old) }
    {
        laws();
        match act {
            Act::Look { query } => self.look(alloc, *query),
            Act::Keep { query, time, list } => self.keep(alloc, *query, *time, list),
            // No other act is asked of the results.
            _ => Ok(Reply::Done),
        }
    }

    /// A restart: no result is kept any more. It takes no memory.
    pub fn restart(&mut self)
        ensures gone { self.new ≡ record self.old { kept = [] } }
        ensures stands { (script : Said) (l : Journal) (now : ℕ) → AreResults script l self.old
            → AreResults script (entry_at now None Act.Restart Reply.Done ∷ l) self.new }
    {
        laws();
        self.results.clear();
    }
}
