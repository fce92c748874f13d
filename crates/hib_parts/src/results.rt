// The kept results of queries as a part, with the list of their entries.
ghost use Rattle.std.specs.Prelude.{◌≡◌, ◌≤◌, ◌^◌, ℕ, Option, [], true, IfOk, OnOk, OnErr, unwrap_or};
ghost use Rattle.std.specs.Option.{option_map_or};
ghost use Rattle.hib_base.specs.declared.entries.Part.{Part};
ghost use Rattle.hib_base.specs.declared.replies.Reply.{Reply};
ghost use Rattle.hib_base.specs.declared.scripts.Script.{Script as Said};
ghost use Rattle.hib_journal.specs.Kept.{past};
ghost use Rattle.hib_journal.specs.Sessions.{Journal as Entries};
ghost use Rattle.hib_query_cache.specs.Ranked.{result_of, used, with_result, dropped_for};
ghost use Rattle.hib_engines.specs.Results.{AreResults};
ghost use Rattle.hib_engines.specs.Served.{is_for, IsServed, HasQuery};
ghost use Rattle.hib_split_law.specs.Apart.{IsPartLegal};
ghost use Rattle.hib_engines.specs.Built.{IsBuilt};
ghost use Rattle.hib_parts.specs.Listed.{AreOf, IsDueOn, IsEntered, IsLater, IsKept, last_of};

use crate::entering::{enter_both, prepared};
use crate::worker::Worker;
use hib_base::{Act, Listing, QueryNo, Reply, Script, Tick, copy_cells};
use hib_engines::{Name, laws};
use hib_journal::Journal;
use hib_query_cache::Results;
use std::alloc::{AllocError, Global};
use std::marker::{Model, PhantomData};

/// The results of queries, with the list of their entries, which is legal by itself. They stand here without their
/// engine of hib_engines: a look changes the order of use, so both copies of its reply must be there before it.
#[derive(Drop)]
pub struct ResultsPart<N: Name> {
    results: Results,
    last: Tick,
    list: Journal,
    of: PhantomData<N>,
}

impl<N: Name> Model for ResultsPart<N> {
    ghost use Rattle.hib_journal.specs.Kept.{past};
    ghost use Rattle.hib_journal.specs.Sessions.{Journal as Entries};
    ghost use Rattle.hib_journal.specs.Types.{Part};
    ghost use Rattle.hib_engines.specs.Results.{AreResults};
    ghost use Rattle.hib_engines.specs.Built.{IsBuilt};
    ghost use Rattle.hib_parts.specs.Listed.{IsPartList};

    ghost Value = { Entries };

    ghost view = { λ p. past p.list };

    ghost invariant = { λ p. IsBuilt N.script
        × IsPartList N.script N.from.tables Part.Results (past p.list) p.last
        × AreResults N.script (past p.list) p.results };
}

/// The reply to a look for a query's result. The order of use stays.
fn found_reply(alloc: Global, results: &Results, query: QueryNo) -> Result<Reply, AllocError>
    ensures { IfOk result (λ r. r ≡ option_map_or (λ k. Reply.Found k.0 k.1)
        (result_of query results.now.kept) Reply.Absent) }
{
    match results.peek(query) {
        Some((time, list)) => Ok(Reply::Found {
            time: *time,
            list: copy_cells(alloc, list)?,
        }),
        None => Ok(Reply::Absent),
    }
}

/// Makes a query's result the most recently used one, if it is kept.
fn use_result(results: &mut Results, query: QueryNo)
    ensures { results.new ≡ record results.old { kept = used query results.old.kept } }
{
    let _ = results.look(query);
}

/// Looks for a kept result. The reply comes twice: for the list of the part and for that of the session.
fn look_twice(
    alloc: Global,
    results: &mut Results,
    query: QueryNo,
) -> Result<(Reply, Reply), AllocError>
    ensures reply { IfOk result (λ r. r.0
        ≡ option_map_or (λ k. Reply.Found k.0 k.1)
        (result_of query results.old.kept) Reply.Absent) }
    ensures twin { IfOk result (λ r. r.1 ≡ r.0) }
    ensures state { OnOk result (results.new
        ≡ record results.old { kept = used query results.old.kept }) }
    ensures err { OnErr result (results.new ≡ results.old) }
{
    let reply = found_reply(alloc, results, query)?;
    let twin = found_reply(alloc, results, query)?;
    use_result(results, query);
    Ok((reply, twin))
}

/// The reply to a keep; `dropped` is the query whose result left for it.
fn kept_reply(dropped: &Option<QueryNo>) -> Reply
    ensures { result ≡ Reply.Kept dropped.now }
{
    Reply::Kept { dropped: *dropped }
}

/// Keeps a result. The reply comes twice.
fn keep_twice(
    alloc: Global,
    results: &mut Results,
    query: QueryNo,
    time: Tick,
    list: &Listing,
) -> Result<(Reply, Reply), AllocError>
    ensures reply { IfOk result (λ r. r.0 ≡ Reply.Kept (dropped_for query results.old)) }
    ensures twin { IfOk result (λ r. r.1 ≡ r.0) }
    ensures state { OnOk result (results.new
        ≡ record results.old { kept = with_result query (time, list.now) results.old }) }
    ensures err { OnErr result (results.new ≡ results.old) }
{
    let list = copy_cells(alloc, list)?;
    let dropped = results.keep(query, time, list)?;
    Ok((kept_reply(&dropped), kept_reply(&dropped)))
}

/// Answers an act that is asked of the results. The reply comes twice. At an error nothing has changed.
fn answer_twice(
    alloc: Global,
    results: &mut Results,
    act: &Act,
) -> Result<(Reply, Reply), AllocError>
    ensures answered { IfOk result (λ r. (script : Said) (l : Entries) (by : Option ℕ) (now : ℕ)
        → AreResults script l results.old → is_for Part.Results act.now (unwrap_or by 0) ≡ true
        → HasQuery script act.now → IsServed
        (λ m. AreResults script m results.new) script l by now act.now r.0) }
    ensures twin { IfOk result (λ r. r.1 ≡ r.0) }
    ensures err { OnErr result (results.new ≡ results.old) }
{
    laws();
    match act {
        Act::Look { query } => look_twice(alloc, results, *query),
        Act::Keep { query, time, list } => keep_twice(alloc, results, *query, *time, list),
        // No other act is asked of the results.
        _ => Ok((Reply::Done, Reply::Done)),
    }
}

impl<N: Name> ResultsPart<N> {
    /// The part in which no result is kept.
    pub fn open(alloc: Global, script: &Script) -> Result<ResultsPart<N>, AllocError>
        requires script { script.now ≡ N.script }
        requires built { IsBuilt N.script }
        ensures { IfOk result (λ p. p ≡ []) }
    {
        laws();
        let results = Results::open(alloc, script.results)?;
        Ok(ResultsPart {
            results,
            last: Tick(0),
            list: Journal::open(alloc),
            of: PhantomData,
        })
    }

    /// The tick of its last entry, or 0.
    pub fn last(&self) -> Tick
        ensures last { result ≡ last_of self.now }
        ensures bounded { result ≤ 2 ^ 62 }
    {
        self.last
    }

    /// Its entries.
    pub fn list(&self) -> &Journal
        ensures list { past result.now ≡ self.now }
        ensures legal { IsPartLegal N.script N.from.tables (past result.now) }
    {
        &self.list
    }

    /// One act of a session. The act must be due in it, and on the results. It is answered at this tick, which must be
    /// after the last ticks of both. Its entry goes to both lists. If memory runs out both lists are as before.
    pub fn serve(
        &mut self,
        alloc: Global,
        worker: &mut Worker<N>,
        script: &Script,
        now: Tick,
    ) -> Result<(), AllocError>
        requires script { script.now ≡ N.script }
        requires due { IsDueOn N.script Part.Results worker.old }
        requires later { IsLater now self.old worker.old.list }
        ensures number { worker.new.number ≡ worker.old.number }
        ensures entered { OnOk result (IsEntered now self.old self.new worker.old worker.new) }
        ensures kept { OnErr result (IsKept worker.old worker.new) }
        ensures same { OnErr result (self.new ≡ self.old) }
    {
        let acts = prepared(alloc, script, worker, &mut self.list)?;
        let replies = answer_twice(alloc, &mut self.results, &acts.act)?;
        enter_both(alloc, script, worker, &mut self.list, acts, replies, now)?;
        self.last = now;
        Ok(())
    }

    /// Its entries, which are legal by themselves.
    pub fn close(self) -> Journal
        ensures list { past result ≡ self }
        ensures legal { IsPartLegal N.script N.from.tables (past result) }
        ensures part { AreOf Part.Results (past result) }
    {
        let ResultsPart {
            results: _,
            last: _,
            list,
            of: _,
        } = self;
        list
    }
}
