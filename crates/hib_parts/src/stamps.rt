// The stamps of tables as a part, with the list of their entries.
ghost use Rattle.std.specs.Prelude.{◌≡◌, ◌≤◌, ◌^◌, [], IfOk, OnOk, OnErr};
ghost use Rattle.hib_base.specs.declared.entries.Part.{Part};
ghost use Rattle.hib_journal.specs.Kept.{past};
ghost use Rattle.hib_split_law.specs.Apart.{IsPartLegal};
ghost use Rattle.hib_engines.specs.Built.{IsBuilt};
ghost use Rattle.hib_parts.specs.Listed.{AreOf, IsDueOn, IsEntered, IsLater, IsKept, last_of};

use crate::entering::{enter_answer, prepared};
use crate::worker::Worker;
use hib_base::{Script, Tick};
use hib_engines::{Name, StampsEngine, laws};
use hib_journal::Journal;
use std::alloc::{AllocError, Global};
use std::marker::{Model, PhantomData};

/// The stamps of tables, with the list of their entries, which is legal by itself.
#[derive(Drop)]
pub struct StampsPart<N: Name> {
    stamps: StampsEngine,
    last: Tick,
    list: Journal,
    of: PhantomData<N>,
}

impl<N: Name> Model for StampsPart<N> {
    ghost use Rattle.hib_journal.specs.Kept.{past};
    ghost use Rattle.hib_journal.specs.Sessions.{Journal as Entries};
    ghost use Rattle.hib_journal.specs.Types.{Part};
    ghost use Rattle.hib_engines.specs.Stamps.{AreStamps};
    ghost use Rattle.hib_engines.specs.Built.{IsBuilt};
    ghost use Rattle.hib_parts.specs.Listed.{IsPartList};

    ghost Value = { Entries };

    ghost view = { λ p. past p.list };

    ghost invariant = { λ p. IsBuilt N.script
        × IsPartList N.script N.from.tables Part.Stamps (past p.list) p.last
        × AreStamps N.script (past p.list) p.stamps };
}

impl<N: Name> StampsPart<N> {
    /// The part in which no table has a stamp.
    pub fn open(alloc: Global, script: &Script) -> Result<StampsPart<N>, AllocError>
        requires script { script.now ≡ N.script }
        requires built { IsBuilt N.script }
        ensures { IfOk result (λ p. p ≡ []) }
    {
        laws();
        let stamps = StampsEngine::open(alloc, script.mapping.len() as u16)?;
        Ok(StampsPart {
            stamps,
            last: Tick(0),
            list: Journal::open(alloc),
            of: PhantomData,
        })
    }

    /// The tick of its last entry, or 0.
    pub fn last(&self) -> Tick
        ensures last { result ≡ last_of self.now }
        ensures bounded { result ≤ 2 ^ 62 }
    {
        self.last
    }

    /// Its entries.
    pub fn list(&self) -> &Journal
        ensures list { past result.now ≡ self.now }
        ensures legal { IsPartLegal N.script N.from.tables (past result.now) }
    {
        &self.list
    }

    /// One act of a session. The act must be due in it, and on the stamps. It is answered at this tick, which must be
    /// after the last ticks of both. Its entry goes to both lists. If memory runs out both lists are as before.
    pub fn serve(
        &mut self,
        alloc: Global,
        worker: &mut Worker<N>,
        script: &Script,
        now: Tick,
    ) -> Result<(), AllocError>
        requires script { script.now ≡ N.script }
        requires due { IsDueOn N.script Part.Stamps worker.old }
        requires later { IsLater now self.old worker.old.list }
        ensures number { worker.new.number ≡ worker.old.number }
        ensures entered { OnOk result (IsEntered now self.old self.new worker.old worker.new) }
        ensures kept { OnErr result (IsKept worker.old worker.new) }
        ensures same { OnErr result (self.new ≡ self.old) }
    {
        let acts = prepared(alloc, script, worker, &mut self.list)?;
        let reply = self.stamps.serve(alloc, script, &acts.act, now)?;
        enter_answer(alloc, script, worker, &mut self.list, acts, reply, now)?;
        self.last = now;
        Ok(())
    }

    /// Its entries, which are legal by themselves.
    pub fn close(self) -> Journal
        ensures list { past result ≡ self }
        ensures legal { IsPartLegal N.script N.from.tables (past result) }
        ensures part { AreOf Part.Stamps (past result) }
    {
        let StampsPart {
            stamps: _,
            last: _,
            list,
            of: _,
        } = self;
        list
    }
}
