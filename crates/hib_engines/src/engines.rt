// The engines of a script together, over any keeper: what a factory asks for the reply to each act.
ghost use Rattle.std.specs.Prelude.{◌≡◌, ◌≤◌, ◌<◌, ◌^◌, ◌∷◌, [], ℕ, length, IfOk, IfErr, OnOk, OnErr, Option, Some, None, true, false};
ghost use Rattle.hib_base.specs.Tables.{Tables};
ghost use Rattle.hib_base.specs.Valid.{is_valid};
ghost use Rattle.hib_base.specs.declared.entries.Act.{Act};
ghost use Rattle.hib_base.specs.declared.replies.Reply.{Reply};
ghost use Rattle.hib_base.specs.declared.scripts.Script.{Script as Said};
ghost use Rattle.hib_journal.specs.Types.{Part};
ghost use Rattle.hib_journal.specs.Sessions.{Journal, own, changes};
ghost use Rattle.hib_journal.specs.Next.{is_cached};
ghost use Rattle.hib_journal.specs.Legal.{fault_of};
ghost use Rattle.hib_journal.specs.Lists.{IsLate};
ghost use Rattle.hib_journal.specs.Runs.{told_committed, is_fault};
ghost use Rattle.hib_outside.specs.Causes.{Rose};
ghost use Rattle.hib_store.specs.Stores.{handed_back, is_store_fault};
ghost use Rattle.hib_session.specs.Memory.{brings};
ghost use Rattle.hib_session.specs.Session.{Follows, number_of, own_reply};
ghost use Rattle.hib_engines.specs.Origin.{told_start};
ghost use Rattle.hib_engines.specs.Served.{AreWithin};
ghost use Rattle.hib_engines.specs.Registry.{own_after};
ghost use Rattle.hib_engines.specs.Engines.{AreStanding, IsStill, IsReady, IsAnswered, IsAskedFor, IsRefused, IsTold};

use crate::joined::laws;
use crate::region::Region;
use crate::region_list::{open_regions, restart_regions, serve_region};
use crate::registry::Registry;
use crate::results::ResultsEngine;
use crate::stamps::StampsEngine;
use crate::store::StoreEngine;
use hib_base::{Act, Key, Part, Reply, Script, SessionNo, Tick};
use hib_journal::part_of;
use hib_outside::Keeper;
use hib_session::Session;
use hib_store::OpenFault;
use std::alloc::{AllocError, Global};
use std::marker::Model;

/// The store over a keeper, the open sessions, the stamps of tables, the regions, one for each entity, and the results
/// of queries. What they promise holds for any entries that they stand for, from the rows that are told or from any,
/// and for every tick that is late enough for the part of the act.
pub struct Engines<K: Keeper> {
    store: StoreEngine<K>,
    registry: Registry,
    stamps: StampsEngine,
    regions: Vec<Region>,
    results: ResultsEngine,
}

impl<K: Keeper> Model for Engines<K> {
    ghost use Rattle.hib_engines.specs.Engines.{EnginesState};

    ghost Value = { EnginesState };

    ghost view = { λ e. record {
      store = e.store;
      registry = e.registry;
      stamps = e.stamps;
      regions = e.regions.items;
      results = e.results;
    } };
}

impl<K: Keeper> Engines<K> {
    /// The engines of a script, which must be valid, before any act. The rows that the keeper keeps are widened to the
    /// script's mapping, and each of the script's rows whose key has none is added. Lists of the script's entities are
    /// answered from an index. At an error the keeper is handed back, with the rows that it had.
    pub fn open(alloc: Global, script: &Script, keeper: K) -> Result<Engines<K>, OpenFault<K>>
        requires { is_valid script.now ≡ true }
        ensures standing { IfOk result (λ e. AreStanding script.now
            (told_start script.now (K.tables keeper)) [] e) }
        ensures faults { IfOk result (λ e. K.faults keeper ≤ e.store.faults) }
        ensures asked { IfOk result (λ e. e.store.asked ≡ K.asked keeper) }
        ensures entities { IfOk result (λ e. e.store.entities ≡ length script.now.mapping) }
        ensures back { IfErr result (λ e. K.tables (handed_back e) ≡ K.tables keeper) }
        ensures back_faults { IfErr result (λ e. K.faults keeper ≤ K.faults (handed_back e)) }
        ensures back_asked { IfErr result (λ e. K.asked (handed_back e) ≡ K.asked keeper) }
        ensures fault { IfErr result (λ e. is_store_fault e ≡ true
            → Rose (K.faults keeper) (K.faults (handed_back e))) }
    {
        laws();
        let Ok(regions) = open_regions(alloc, script) else {
            return Err(OpenFault::NoMemory(keeper));
        };
        let Ok(stamps) = StampsEngine::open(alloc, script.mapping.len() as u16) else {
            return Err(OpenFault::NoMemory(keeper));
        };
        let Ok(results) = ResultsEngine::open(alloc, script.results) else {
            return Err(OpenFault::NoMemory(keeper));
        };
        let entities = script.mapping.len() as u16;
        let rows = script.rows.as_slice();
        let store = StoreEngine::open(alloc, keeper, &script.mapping, rows, entities)?;
        Ok(Engines {
            store,
            registry: Registry::new(alloc),
            stamps,
            regions,
            results,
        })
    }

    /// Lets the engines go, and hands back the keeper. What it tells is what the commits among the entries leave.
    pub fn close(self) -> K
        ensures rows { (script : Said) (told : Option Tables) (h : Journal)
            → AreStanding script told h self → K.tables result ≡ told_committed told h }
        ensures tables { K.tables result ≡ self.store.tables }
        ensures faults { K.faults result ≡ self.store.faults }
        ensures asked { K.asked result ≡ self.store.asked }
    {
        let Engines {
            store,
            registry: _,
            stamps: _,
            regions: _,
            results: _,
        } = self;
        store.close()
    }

    /// The open sessions.
    pub fn registry(&self) -> &Registry
        ensures { result.now ≡ self.now.registry }
    {
        &self.registry
    }

    /// Does a kill: the session isn't open any more, and what it has written and not committed is dropped. It takes no
    /// memory, and asks no keeper.
    pub fn kill(&mut self, session: SessionNo)
        ensures answered { (script : Said) (told : Option Tables) (h : Journal) (now : ℕ)
            → AreStanding script told h self.old → IsLate Part.Registry now h
            → IsAnswered script told h None now (Act.Kill session) Reply.Done self.new }
        ensures faults { self.new.store.faults ≡ self.old.store.faults }
        ensures asked { self.new.store.asked ≡ self.old.store.asked }
        ensures entities { self.new.store.entities ≡ self.old.store.entities }
    {
        laws();
        self.registry.kill(session);
        self.store.kill(session);
    }

    /// Does a restart: no session is open, no table has a stamp, no region holds anything, no result is kept, and what
    /// sessions have written and not committed is dropped. It takes no memory, and asks no keeper.
    pub fn restart(&mut self)
        ensures answered { (script : Said) (told : Option Tables) (h : Journal) (now : ℕ)
            → AreStanding script told h self.old → IsLate Part.Registry now h
            → IsAnswered script told h None now Act.Restart Reply.Done self.new }
        ensures faults { self.new.store.faults ≡ self.old.store.faults }
        ensures asked { self.new.store.asked ≡ self.old.store.asked }
        ensures entities { self.new.store.entities ≡ self.old.store.entities }
    {
        laws();
        self.store.restart();
        self.registry.restart();
        self.stamps.restart();
        restart_regions(&mut self.regions);
        self.results.restart();
    }

    /// Evicts a row of a cached entity from its region, as was asked from outside. Answers the reply, which is no
    /// fault. At an error nothing has changed.
    pub fn evict(&mut self, alloc: Global, key: Key, now: Tick) -> Result<Reply, AllocError>
        requires { now ≤ 2 ^ 62 }
        ensures answered { IfOk result (λ r. (script : Said) (told : Option Tables) (h : Journal)
            → AreStanding script told h self.old → is_cached script key.entity ≡ true
            → IsLate (Part.Region key.entity) now h
            → IsAnswered script told h None now (Act.Evict key) r self.new) }
        ensures calm { IfOk result (λ r. is_fault r ≡ false) }
        ensures same { self.new ≡ record self.old { regions = self.new.regions } }
        ensures err { OnErr result (self.new ≡ self.old) }
    {
        laws();
        let entity = key.entity;
        let act = Act::Evict { key };
        serve_region(alloc, &mut self.regions, entity, &act, now)
    }

    /// Follows an act of a session that was answered by a fault in a journal which is audited; these engines weren't
    /// asked. At a commit the store drops what the session has written, as at a kill. A load and a list leave it as it
    /// is. It takes no memory, and asks no keeper.
    pub fn fail(&mut self, session: SessionNo, act: &Act)
        ensures answered { (script : Said) (told : Option Tables) (h : Journal) (now : ℕ)
            (r : Reply) → IsReady script told h session now act.now self.old
            → fault_of (changes session h) act.now ≡ Some r
            → IsAnswered script told h (Some session) now act.now r self.new }
        ensures faults { self.new.store.faults ≡ self.old.store.faults }
        ensures asked { self.new.store.asked ≡ self.old.store.asked }
        ensures entities { self.new.store.entities ≡ self.old.store.entities }
    {
        laws();
        if let Act::Commit = act {
            self.store.kill(session);
        }
    }

    /// What an act that a session answers itself does to the engines: End closes the session.
    fn note_own(&mut self, session: SessionNo, act: &Act)
        ensures { self.new ≡ record self.old
            { registry = own_after session act.now self.old.registry } }
    {
        match act {
            Act::End => self.registry.end(session),
            _ => {}
        }
    }

    /// Has an engine answer an act of a session at this tick, which must not be the session's own. A fault is answered
    /// only if the keeper failed in this call. At an error the engines are as before, but for the keeper's counts.
    fn serve(
        &mut self,
        alloc: Global,
        script: &Script,
        session: SessionNo,
        act: &Act,
        now: Tick,
    ) -> Result<Reply, AllocError>
        requires late { now ≤ 2 ^ 62 }
        requires tables { AreWithin (length self.old.stamps) act.now }
        requires entities { length self.old.stamps ≡ length script.now.mapping }
        requires mapping { length script.now.mapping < 2 ^ 16 }
        ensures answered { IfOk result (λ r. (told : Option Tables) (h : Journal)
            → IsReady script.now told h session now act.now self.old
            → own_reply script.now (own session h) act.now ≡ None
            → IsAnswered script.now told h (Some session) now act.now r self.new) }
        ensures asked { IfOk result (λ _. (told : Option Tables) (h : Journal)
            → IsReady script.now told h session now act.now self.old
            → IsAskedFor h session act.now self.old self.new) }
        ensures fault { IfOk result (λ r. is_fault r ≡ true
            → Rose self.old.store.faults self.new.store.faults) }
        ensures faults { self.old.store.faults ≤ self.new.store.faults }
        ensures entities { self.new.store.entities ≡ self.old.store.entities }
        ensures still { OnOk result (brings act.now ≡ true → IsStill self.old self.new) }
        ensures err { OnErr result (IsStill self.old self.new) }
        ensures passed { OnOk result (brings act.now ≡ true → (told : Option Tables) (h : Journal)
            → IsReady script.now told h session now act.now self.old
            → IsRefused h session act.now self.old self.new) }
        ensures refused { OnErr result ((told : Option Tables) (h : Journal)
            → IsReady script.now told h session now act.now self.old
            → IsRefused h session act.now self.old self.new) }
    {
        laws();
        match part_of(act, session) {
            Part::Registry => self.registry.serve(session, act, now),
            Part::Store => self.store.serve(alloc, script, session, act),
            Part::Stamps => self.stamps.serve(alloc, script, act, now),
            Part::Results => self.results.serve(alloc, act),
            Part::Region(entity) => serve_region(alloc, &mut self.regions, entity, act, now),
            // What is a session's own it answers itself.
            Part::Own(_) => Ok(Reply::Done),
        }
    }

    /// Answers the act that is due in a session, at this tick, by the session itself or by an engine. A fault is
    /// answered only if the keeper failed in this call, and the keeper is asked once at most. At an error the engines
    /// are as before, but for the keeper's counts. So they are if the act brings something to the session. The counts
    /// stay too if the act doesn't call the keeper.
    pub fn answer(
        &mut self,
        alloc: Global,
        script: &Script,
        session: &Session,
        act: &Act,
        now: Tick,
    ) -> Result<Reply, AllocError>
        requires late { now ≤ 2 ^ 62 }
        requires tables { AreWithin (length self.old.stamps) act.now }
        requires entities { length self.old.stamps ≡ length script.now.mapping }
        requires mapping { length script.now.mapping < 2 ^ 16 }
        ensures answered { IfOk result (λ r. (told : Option Tables) (h : Journal)
            → Follows script.now session.now (own (number_of session.now) h)
            → IsReady script.now told h (number_of session.now) now act.now self.old
            → IsTold script.now told h (number_of session.now) now act.now r self.old self.new) }
        ensures faults { self.old.store.faults ≤ self.new.store.faults }
        ensures entities { self.new.store.entities ≡ self.old.store.entities }
        ensures still { OnOk result (brings act.now ≡ true → IsStill self.old self.new) }
        ensures err { OnErr result (IsStill self.old self.new) }
        ensures passed { OnOk result (brings act.now ≡ true → (told : Option Tables) (h : Journal)
            → IsReady script.now told h (number_of session.now) now act.now self.old
            → IsRefused h (number_of session.now) act.now self.old self.new) }
        ensures refused { OnErr result ((told : Option Tables) (h : Journal)
            → IsReady script.now told h (number_of session.now) now act.now self.old
            → IsRefused h (number_of session.now) act.now self.old self.new) }
        ensures left { OnErr result ((told : Option Tables) (h : Journal)
            → AreStanding script.now told h self.old → AreStanding script.now told h self.new) }
    {
        laws();
        let number = session.number();
        if let Some(reply) = session.reply_to(alloc, script, act)? {
            self.note_own(number, act);
            return Ok(reply);
        }
        self.serve(alloc, script, number, act, now)
    }
}
