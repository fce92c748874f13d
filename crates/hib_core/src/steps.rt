// The steps of a factory, each of which adds one entry to its journal, whoever hears of it: a `Factory` is this with
// listeners.
ghost use Rattle.std.specs.Prelude.{◌≡◌, ◌≢◌, ◌+◌, ◌<◌, ◌≤◌, ◌^◌, ◌==◌, ℕ, [], ◌∷◌, length, slice_get, OnOk, OnErr, IfOk, IfErr, IfSome, IsOk, Ok, Some, true, false};
ghost use Rattle.hib_journal.specs.Kept.{past};
ghost use Rattle.hib_base.specs.declared.scripts.Order.{Order};
ghost use Rattle.hib_base.specs.Valid.{is_valid};
ghost use Rattle.hib_journal.specs.Sessions.{was_killed, is_open};
ghost use Rattle.hib_journal.specs.Next.{is_cached};
ghost use Rattle.hib_journal.specs.Played.{has_next};
ghost use Rattle.hib_journal.specs.Legal.{IsLegal};
ghost use Rattle.hib_journal.specs.Runs.{IsNumbered, told_committed, is_fault, fault_count, ask_count};
ghost use Rattle.hib_base.specs.declared.entries.Entry.{Entry};
ghost use Rattle.hib_law.specs.Hits.{AreListsGiven};
ghost use Rattle.hib_law.specs.Law.{Obeys};
ghost use Rattle.hib_engines.specs.Built.{IsSound};
ghost use Rattle.hib_engines.specs.Engines.{IsStill, IsAskedFor};
ghost use Rattle.hib_core.specs.Standing.{RoseBy, RoseWithin, origin_over};
ghost use Rattle.hib_outside.specs.Causes.{Rose};
ghost use Rattle.hib_store.specs.Stores.{handed_back, is_store_fault};
ghost use Rattle.hib_core.specs.Bound.{most_in, outside_count};
ghost use Rattle.hib_session.specs.Sessions.{AreSessions};
ghost use Rattle.hib_core.specs.Factory.{Does, IsOver, IsAsked, IsAskedOnceMore, IsStepRefused, HasGrown};
ghost use Rattle.hib_core.specs.Calls.{IsCarriedOut};

use crate::bounds::{runs_are_short, usual_length};
use crate::outside::{self, opened};
use crate::turns::{has_turn, turn};
use hib_base::{Key, Order, Script, SessionNo};
use hib_engines::{Engines, Name, Stepped};
use hib_journal::Journal;
use hib_law::{law, lists_are_given};
use hib_outside::Keeper;
use hib_session::{Session, open_all};
use hib_store::OpenFault;
use std::alloc::{AllocError, Global};
use std::marker::{Model, PhantomData};

/// Sessions over shared engines, with the journal of their steps, which tells nobody of them. The journal is legal for
/// the name's script from the name's rows.
pub struct Core<K: Keeper, N: Name> {
    script: Script,
    engines: Engines<K>,
    sessions: Vec<Session>,
    journal: Journal,
    /// Whether memory ran out in a call.
    refused: bool,
    of: PhantomData<N>,
}

impl<K: Keeper, N: Name> Model for Core<K, N> {
    ghost use Rattle.std.specs.Prelude.{◌≡◌};
    ghost use Rattle.hib_core.specs.Factory.{CoreState, IsStanding};

    ghost Value = { CoreState };

    ghost view = { λ f. record {
      journal = f.journal;
      engines = f.engines;
      sessions = f.sessions.items;
      refused = f.refused;
    } };

    ghost invariant = { λ f. (f.script ≡ N.script)
        × IsStanding N.script N.from (record {
          journal = f.journal;
          engines = f.engines;
          sessions = f.sessions.items;
          refused = f.refused;
        }) };
}

impl<K: Keeper, N: Name> Core<K, N> {
    /// Opens the core of the factory of this name, in which no session has begun. The rows that the keeper keeps are
    /// widened to the script's mapping, and each of the script's rows whose key has none is added. At an error the
    /// keeper is handed back, with the rows that it had.
    pub fn open(alloc: Global, script: Script, keeper: K) -> Result<Core<K, N>, OpenFault<K>>
        requires script { script ≡ N.script }
        requires valid { is_valid N.script ≡ true }
        requires from { origin_over N.script (K.tables keeper) (K.faults keeper) (K.asked keeper)
            ≡ N.from }
        ensures empty { IfOk result (λ f. past f.journal ≡ []) }
        ensures going { IfOk result (λ f. f.refused ≡ false) }
        ensures back { IfErr result (λ e. K.tables (handed_back e) ≡ K.tables keeper) }
        ensures back_faults { IfErr result (λ e. K.faults keeper ≤ K.faults (handed_back e)) }
        ensures back_asked { IfErr result (λ e. K.asked (handed_back e) ≡ K.asked keeper) }
        ensures fault { IfErr result (λ e. is_store_fault e ≡ true
            → Rose (K.faults keeper) (K.faults (handed_back e))) }
    {
        law();
        let Ok(sessions) = open_all(alloc, &script) else {
            return Err(OpenFault::NoMemory(keeper));
        };
        let engines = Engines::open(alloc, &script, keeper)?;
        let journal = Journal::open_for(alloc, usual_length(&script));
        Ok(Core {
            script,
            engines,
            sessions,
            journal,
            refused: false,
            of: PhantomData,
        })
    }

    /// One step of a session: the act that is due in it, if one is. The other sessions stay as they are. The keeper is
    /// asked once at most, and only if the act asks for rows. If memory runs out no entry is added and nothing has
    /// changed, but the answer of `refused` and, if the act that was due calls the keeper, its counts; so a later call
    /// may succeed. The session must be the script's.
    pub fn step(&mut self, alloc: Global, number: SessionNo) -> Result<Stepped, AllocError>
        requires known { number < length N.script.sessions }
        ensures did { result ≡ Ok Stepped.Did
            → Does N.script number (past self.old.journal)
            (past self.new.journal) self.old.sessions self.new.sessions }
        ensures done { result ≡ Ok Stepped.Done
            → IsOver N.script number (past self.old.journal) (past self.new.journal) }
        ensures law { Obeys N.script N.from.tables (past self.new.journal) }
        ensures given { IfSome N.from.tables
            (λ start. AreListsGiven N.script start (past self.new.journal)) }
        ensures killed { was_killed number (past self.old.journal) ≡ true
            → result ≡ Ok Stepped.Done }
        ensures inside { outside_count (past self.new.journal)
            ≡ outside_count (past self.old.journal) }
        ensures fault { (e : Entry) → past self.new.journal ≡ e ∷ past self.old.journal
            → is_fault e.reply ≡ true → Rose self.old.engines.store.faults
            self.new.engines.store.faults }
        ensures asks_once { (e : Entry) → past self.new.journal ≡ e ∷ past self.old.journal
            → IsAskedFor (past self.old.journal) number e.act self.old.engines self.new.engines }
        ensures going { OnOk result (self.new.refused ≡ self.old.refused) }
        ensures same { OnErr result (past self.new.journal ≡ past self.old.journal) }
        ensures engines { OnErr result (IsStill self.old.engines self.new.engines) }
        ensures counts { OnErr result (IsStepRefused N.script (past self.old.journal) number
            self.old.engines self.new.engines) }
        ensures after { AreSessions N.script (past self.new.journal) self.new.sessions }
        ensures others { (s : ℕ) → (number == s) ≡ false
            → slice_get self.new.sessions s ≡ slice_get self.old.sessions s }
        ensures asks { self.new.refused ≡ false
            → IsAsked N.from (past self.new.journal) self.new.engines }
        ensures asked { OnErr result (self.old.refused ≡ false
            → IsAskedOnceMore N.from (past self.new.journal) self.new.engines) }
        ensures refused { OnErr result (self.new.refused ≡ true) }
    {
        lists_are_given();
        match turn::<K, N>(
            alloc,
            &self.script,
            number,
            &mut self.sessions,
            &mut self.engines,
            &mut self.journal,
        ) {
            Ok(stepped) => Ok(stepped),
            Err(error) => {
                self.refused = true;
                Err(error)
            }
        }
    }

    /// The entries of the steps so far.
    pub fn journal(&self) -> &Journal
        ensures { result.now ≡ self.now.journal }
    {
        &self.journal
    }

    /// The script of this name.
    pub fn script(&self) -> &Script
        ensures { result.now ≡ N.script }
    {
        &self.script
    }

    /// Whether memory ran out in a call.
    pub fn refused(&self) -> bool
        ensures { result ≡ self.now.refused }
    {
        self.refused
    }

    /// How many sessions there are.
    pub fn sessions(&self) -> usize
        ensures count { result ≡ length N.script.sessions }
        ensures few { result < 2 ^ 32 }
    {
        self.script.sessions.len()
    }

    /// How many orders the schedule has.
    pub fn orders(&self) -> usize
        ensures count { result ≡ length N.script.schedule }
    {
        self.script.schedule.len()
    }

    /// An order of the schedule.
    pub fn order(&self, at: usize) -> Order
        requires there { at < length N.script.schedule }
        ensures order { slice_get N.script.schedule at ≡ Some result }
        ensures sound { IsSound N.script result }
    {
        *self.script.schedule.at(at)
    }

    /// The step of a factory that is deaf, which adds no entry: if an act is due, it answers want of memory.
    pub fn idle_step(&self, alloc: Global, number: SessionNo) -> Result<Stepped, AllocError>
        requires known { number < length N.script.sessions }
        ensures none { result ≢ Ok Stepped.Did }
        ensures done { result ≡ Ok Stepped.Done
            → has_next N.script (past self.now.journal) number ≡ false }
        ensures killed { was_killed number (past self.now.journal) ≡ true
            → result ≡ Ok Stepped.Done }
        ensures law { Obeys N.script N.from.tables (past self.now.journal) }
        ensures given { IfSome N.from.tables
            (λ start. AreListsGiven N.script start (past self.now.journal)) }
        ensures sessions { AreSessions N.script (past self.now.journal) self.now.sessions }
    {
        lists_are_given();
        if has_turn::<N>(alloc, &self.script, number, self.sessions.as_slice())? {
            Err(AllocError)
        } else {
            Ok(Stepped::Done)
        }
    }

    /// The kill in a factory that is deaf, which adds no entry: if the session is open, it answers want of memory.
    pub fn idle_kill(&self, number: SessionNo) -> Result<(), AllocError>
        ensures closed { is_open number (past self.now.journal) ≡ false → IsOk result }
        ensures open { IsOk result → is_open number (past self.now.journal) ≡ false }
        ensures law { Obeys N.script N.from.tables (past self.now.journal) }
    {
        self.lawful();
        if self.is_open(number) {
            Err(AllocError)
        } else {
            Ok(())
        }
    }

    /// Whether a session is open: it has begun, and is neither at its end nor killed.
    pub fn is_open(&self, number: SessionNo) -> bool
        ensures { result ≡ is_open number (past self.now.journal) }
    {
        opened::<K, N>(number, &self.engines)
    }

    /// Says to proofs that the journal obeys the law, and that each list from the cache is what its query gave at the
    /// moment of the hit. It does nothing.
    pub fn lawful(&self)
        ensures law { Obeys N.script N.from.tables (past self.now.journal) }
        ensures given { IfSome N.from.tables
            (λ start. AreListsGiven N.script start (past self.now.journal)) }
    {
        lists_are_given();
        let _ = &self.journal;
    }

    /// Kills a session, if it is open: no act of it is due from then on, and its locks stay until their time is over.
    /// If memory runs out nothing has changed but the answer of `refused`.
    pub fn kill(&mut self, number: SessionNo) -> Result<(), AllocError>
        ensures carried { IsCarriedOut N.script N.from (Order.Kill number) result self.old self.new }
        ensures closed { is_open number (past self.old.journal) ≡ false → (IsOk result)
            × (past self.new.journal ≡ past self.old.journal) }
        ensures grown { OnOk result (is_open number (past self.old.journal) ≡ true
            → HasGrown (past self.old.journal) (past self.new.journal)) }
    {
        let killed = outside::kill::<K, N>(
            number,
            &mut self.sessions,
            &mut self.engines,
            &mut self.journal,
        );
        if killed.is_err() {
            self.refused = true;
        }
        killed
    }

    /// Evicts a row from its region. Its entity must be cached. If memory runs out nothing has changed but the answer
    /// of `refused`.
    pub fn evict(&mut self, alloc: Global, key: Key) -> Result<(), AllocError>
        requires cached { is_cached N.script key.entity ≡ true }
        ensures carried { IsCarriedOut N.script N.from (Order.Evict key) result self.old self.new }
        ensures grown { OnOk result (HasGrown (past self.old.journal) (past self.new.journal)) }
    {
        let evicted = outside::evict::<K, N>(alloc, key, &mut self.engines, &mut self.journal);
        if evicted.is_err() {
            self.refused = true;
        }
        evicted
    }

    /// A restart: the sessions that are open are killed, and nothing is cached, locked, stamped or kept any more. If
    /// memory runs out nothing has changed but the answer of `refused`.
    pub fn restart(&mut self) -> Result<(), AllocError>
        ensures carried { IsCarriedOut N.script N.from Order.Restart result self.old self.new }
        ensures grown { OnOk result (HasGrown (past self.old.journal) (past self.new.journal)) }
    {
        let restarted = outside::restart::<K, N>(
            &mut self.sessions,
            &mut self.engines,
            &mut self.journal,
        );
        if restarted.is_err() {
            self.refused = true;
        }
        restarted
    }

    /// Takes the core apart: the keeper, the script and the journal, with what holds of them.
    pub fn close(self) -> (K, Script, Journal)
        ensures script { result.1 ≡ N.script }
        ensures journal { result.2 ≡ self.journal }
        ensures legal { IsLegal N.script N.from.tables (past result.2) }
        ensures law { Obeys N.script N.from.tables (past result.2) }
        ensures short { length (past result.2)
            ≤ most_in N.script.sessions + outside_count (past result.2) }
        ensures numbered { IsNumbered (past result.2) }
        ensures rows { K.tables result.0 ≡ told_committed N.from.tables (past result.2) }
        ensures faults { RoseBy N.from.faults (fault_count (past result.2)) (K.faults result.0) }
        ensures count { K.asked result.0 ≡ self.engines.store.asked }
        ensures asked { self.refused ≡ false
            → RoseWithin N.from.asked (ask_count (past result.2)) (K.asked result.0) }
    {
        runs_are_short();
        let Core {
            script,
            engines,
            sessions: _,
            journal,
            refused: _,
            of: _,
        } = self;
        (engines.close(), script, journal)
    }
}
