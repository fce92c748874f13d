// The engine of the stamps of tables, by which a kept result is checked for freshness.
ghost use Rattle.std.specs.Prelude.{◌≡◌, ◌<◌, ◌≤◌, ◌^◌, ◌+◌, ◌∷◌, ℕ, Option, None, length, false, true, IfOk, OnErr, unwrap_or};
ghost use Rattle.std.specs.List.{All};
ghost use Rattle.hib_base.specs.declared.entries.Act.{Act};
ghost use Rattle.hib_base.specs.declared.replies.Reply.{Reply};
ghost use Rattle.hib_base.specs.declared.scripts.Script.{Script as Said};
ghost use Rattle.hib_journal.specs.Types.{Part};
ghost use Rattle.hib_journal.specs.Sessions.{Journal};
ghost use Rattle.hib_journal.specs.Lists.{entry_at};
ghost use Rattle.hib_journal.specs.Next.{tables_of as tables_in};
ghost use Rattle.hib_journal.specs.Runs.{is_fault};
ghost use Rattle.hib_update_stamps.specs.Stamped.{unstamped, stamped, checked};
ghost use Rattle.hib_engines.specs.Served.{is_for, IsServed, AreWithin};
ghost use Rattle.hib_engines.specs.Stamps.{AreStamps};

use crate::joined::laws;
use crate::queries::tables_of;
use hib_base::{Act, Names, QueryNo, Reply, Script, Tick};
use hib_update_stamps::Stamps;
use std::alloc::{AllocError, Global};
use std::marker::Model;

/// The stamps of tables, and what acts on them are answered.
#[derive(Drop)]
pub struct StampsEngine {
    stamps: Stamps,
}

impl Model for StampsEngine {
    ghost use Rattle.hib_update_stamps.specs.Stamped.{Stamped};

    ghost Value = { Stamped };

    ghost view = { λ e. e.stamps };
}

impl StampsEngine {
    /// The engine in which no table has a stamp. Fails for want of memory alone.
    pub fn open(alloc: Global, tables: u16) -> Result<StampsEngine, AllocError>
        ensures { IfOk result (λ s. s ≡ unstamped tables) }
    {
        let stamps = Stamps::open(alloc, tables)?;
        Ok(StampsEngine { stamps })
    }

    /// Stamps tables that are about to change, with a tick ahead, so that no result of them is fresh meanwhile. The
    /// tables must be the script's.
    fn pre(&mut self, tables: &Names, timeout: u32, now: Tick) -> Reply
        requires tables { All (λ t. t < length self.old) tables.now }
        requires now { now ≤ 2 ^ 62 }
        ensures reply { result ≡ Reply.Stamped (now + timeout) }
        ensures state { self.new ≡ stamped tables.now (now + timeout) self.old }
    {
        let value = self.stamps.pre(tables.as_slice(), timeout, now);
        Reply::Stamped { value }
    }

    /// Stamps tables that have changed. They must be the script's.
    fn stamp(&mut self, tables: &Names, now: Tick) -> Reply
        requires tables { All (λ t. t < length self.old) tables.now }
        requires now { now ≤ 2 ^ 62 }
        ensures reply { result ≡ Reply.Stamped now }
        ensures state { self.new ≡ stamped tables.now now self.old }
    {
        let value = self.stamps.stamp(tables.as_slice(), now);
        Reply::Stamped { value }
    }

    /// Whether a query's result of that time is fresh, as a reply.
    fn check(
        &self,
        alloc: Global,
        script: &Script,
        query: QueryNo,
        time: Tick,
    ) -> Result<Reply, AllocError>
        requires few { length script.now.mapping < 2 ^ 16 }
        requires tables { length self.now ≡ length script.now.mapping }
        ensures { IfOk result (λ r. r ≡ Reply.Check
            (checked time (tables_in script.now query) self.now)) }
    {
        let tables = tables_of(alloc, script, query)?;
        Ok(Reply::Check(self.stamps.check(tables.as_slice(), time)))
    }

    /// Answers an act that is asked of the stamps, at this tick. At an error nothing has changed.
    pub fn serve(
        &mut self,
        alloc: Global,
        script: &Script,
        act: &Act,
        now: Tick,
    ) -> Result<Reply, AllocError>
        requires late { now ≤ 2 ^ 62 }
        requires tables { AreWithin (length self.old) act.now }
        requires entities { length self.old ≡ length script.now.mapping }
        requires mapping { length script.now.mapping < 2 ^ 16 }
        ensures answered { IfOk result (λ r. (l : Journal) (by : Option ℕ)
            → AreStamps script.now l self.old
            → is_for Part.Stamps act.now (unwrap_or by 0) ≡ true
            → IsServed (λ m. AreStamps script.now m self.new) script.now l by now act.now r) }
        ensures calm { IfOk result (λ r. is_fault r ≡ false) }
        ensures length { length self.new ≡ length self.old }
        ensures err { OnErr result (self.new ≡ self.old) }
    {
        laws();
        match act {
            Act::Pre { tables } => Ok(self.pre(tables, script.timeout, now)),
            Act::Stamp { tables } => Ok(self.stamp(tables, now)),
            Act::Check { query, time } => self.check(alloc, script, *query, *time),
            // No other act is asked of the stamps.
            _ => Ok(Reply::Done),
        }
    }

    /// A restart: no table has a stamp any more. It takes no memory.
    pub fn restart(&mut self)
        ensures gone { self.new ≡ unstamped (length self.old) }
        ensures stands { (script : Said) (l : Journal) (now : ℕ) → AreStamps script l self.old
            → AreStamps script (entry_at now None Act.Restart Reply.Done ∷ l) self.new }
    {
        laws();
        self.stamps.clear();
    }
}
