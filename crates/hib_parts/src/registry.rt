// The registry as a part: which sessions are open, with the list of its entries.
ghost use Rattle.std.specs.Prelude.{◌≡◌, ◌≤◌, ◌^◌, [], OnOk, OnErr, Some};
ghost use Rattle.hib_base.specs.declared.entries.Act.{Act};
ghost use Rattle.hib_base.specs.declared.entries.Part.{Part};
ghost use Rattle.hib_journal.specs.Kept.{past};
ghost use Rattle.hib_session.specs.Session.{own_reply};
ghost use Rattle.hib_split_law.specs.Apart.{IsPartLegal};
ghost use Rattle.hib_engines.specs.Built.{IsBuilt};
ghost use Rattle.hib_engines.specs.Registry.{IsLeast};
ghost use Rattle.hib_parts.specs.Listed.{AreOf, IsDueAct, IsDueOn, IsEntered, IsLater, IsKept, last_of};

use crate::entering::{enter_answer, prepared};
use crate::worker::Worker;
use hib_base::{Act, Reply, Script, Tick};
use hib_engines::{Name, Registry};
use hib_journal::Journal;
use std::alloc::{AllocError, Global};
use std::marker::{Model, PhantomData};

/// Which sessions are open, with the list of its entries, which is legal by itself.
#[derive(Drop)]
pub struct RegistryPart<N: Name> {
    registry: Registry,
    last: Tick,
    list: Journal,
    of: PhantomData<N>,
}

impl<N: Name> Model for RegistryPart<N> {
    ghost use Rattle.hib_journal.specs.Kept.{past};
    ghost use Rattle.hib_journal.specs.Sessions.{Journal as Entries};
    ghost use Rattle.hib_journal.specs.Types.{Part};
    ghost use Rattle.hib_engines.specs.Registry.{IsRegistry};
    ghost use Rattle.hib_engines.specs.Built.{IsBuilt};
    ghost use Rattle.hib_parts.specs.Listed.{IsPartList};

    ghost Value = { Entries };

    ghost view = { λ p. past p.list };

    ghost invariant = { λ p. IsBuilt N.script
        × IsPartList N.script N.from.tables Part.Registry (past p.list) p.last
        × IsRegistry p.registry (past p.list) };
}

impl<N: Name> RegistryPart<N> {
    /// The registry in which no session is open. It takes no memory.
    pub fn open(alloc: Global) -> RegistryPart<N>
        requires { IsBuilt N.script }
        ensures { result ≡ [] }
    {
        RegistryPart {
            registry: Registry::new(alloc),
            last: Tick(0),
            list: Journal::open(alloc),
            of: PhantomData,
        }
    }

    /// The tick of its last entry, or 0.
    pub fn last(&self) -> Tick
        ensures last { result ≡ last_of self.now }
        ensures bounded { result ≤ 2 ^ 62 }
    {
        self.last
    }

    /// Its entries.
    pub fn list(&self) -> &Journal
        ensures list { past result.now ≡ self.now }
        ensures legal { IsPartLegal N.script N.from.tables (past result.now) }
    {
        &self.list
    }

    /// The least time of its open sessions, which a fence needs as its floor; none if and only if none is open.
    pub fn least(&self) -> Option<Tick>
        ensures { IsLeast result self.now }
    {
        self.registry.least()
    }

    /// Says to proofs that the script is one that parts take. It does nothing.
    pub fn built(&self)
        ensures { IsBuilt N.script }
    {
        let _ = &self.list;
    }

    /// One act of a session. A Begin or an End must be due in it. It is answered at this tick, which must be after the
    /// last ticks of both. Its entry goes to both lists. If a session is open in the list already, by another worker of
    /// its number, it begins anew. If memory runs out both lists are as before.
    pub fn serve(
        &mut self,
        alloc: Global,
        worker: &mut Worker<N>,
        script: &Script,
        now: Tick,
    ) -> Result<(), AllocError>
        requires script { script.now ≡ N.script }
        requires due { IsDueOn N.script Part.Registry worker.old }
        requires later { IsLater now self.old worker.old.list }
        ensures number { worker.new.number ≡ worker.old.number }
        ensures entered { OnOk result (IsEntered now self.old self.new worker.old worker.new) }
        ensures kept { OnErr result (IsKept worker.old worker.new) }
        ensures same { OnErr result (self.new ≡ self.old) }
    {
        let act = worker.due(alloc, script)?;
        let own = worker.reply_to(alloc, script, &act)?;
        match own {
            Some(reply) => self.end(alloc, worker, script, reply, now),
            None => self.begin(alloc, worker, script, now),
        }
    }

    /// The End of a session, with the session's own reply; for `serve`.
    fn end(
        &mut self,
        alloc: Global,
        worker: &mut Worker<N>,
        script: &Script,
        reply: Reply,
        now: Tick,
    ) -> Result<(), AllocError>
        requires script { script.now ≡ N.script }
        requires due { IsDueAct N.script worker.old Act.End }
        requires reply { own_reply N.script worker.old.list Act.End ≡ Some reply }
        requires later { IsLater now self.old worker.old.list }
        ensures number { worker.new.number ≡ worker.old.number }
        ensures entered { OnOk result (IsEntered now self.old self.new worker.old worker.new) }
        ensures kept { OnErr result (IsKept worker.old worker.new) }
        ensures same { OnErr result (self.new ≡ self.old) }
    {
        let number = worker.number();
        let acts = prepared(alloc, script, worker, &mut self.list)?;
        enter_answer(alloc, script, worker, &mut self.list, acts, reply, now)?;
        self.registry.end(number);
        self.last = now;
        Ok(())
    }

    /// The Begin of a session, which the registry answers; for `serve`.
    fn begin(
        &mut self,
        alloc: Global,
        worker: &mut Worker<N>,
        script: &Script,
        now: Tick,
    ) -> Result<(), AllocError>
        requires script { script.now ≡ N.script }
        requires due { IsDueAct N.script worker.old Act.Begin }
        requires later { IsLater now self.old worker.old.list }
        ensures number { worker.new.number ≡ worker.old.number }
        ensures entered { OnOk result (IsEntered now self.old self.new worker.old worker.new) }
        ensures kept { OnErr result (IsKept worker.old worker.new) }
        ensures same { OnErr result (self.new ≡ self.old) }
    {
        let number = worker.number();
        let acts = prepared(alloc, script, worker, &mut self.list)?;
        let reply = self.registry.serve(number, &acts.act, now)?;
        enter_answer(alloc, script, worker, &mut self.list, acts, reply, now)?;
        self.last = now;
        Ok(())
    }

    /// Its entries, which are legal by themselves.
    pub fn close(self) -> Journal
        ensures list { past result ≡ self }
        ensures legal { IsPartLegal N.script N.from.tables (past result) }
        ensures part { AreOf Part.Registry (past result) }
    {
        let RegistryPart {
            registry: _,
            last: _,
            list,
            of: _,
        } = self;
        list
    }
}
