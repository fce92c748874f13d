// A live factory without its listeners: what was asked, and the steps that were made of it.
ghost use Rattle.std.specs.Prelude.{◌≡◌, ◌≢◌, ◌∷◌, ◌<◌, ◌≤◌, ◌^◌, ◌==◌, ◌&&◌, ◌⊎◌, ◌↔◌, ℕ, [], length, slice_get, IfOk, IfErr, IfSome, OnOk, OnErr, IsOk, Ok, Err, true, false};
ghost use Rattle.hib_base.specs.declared.entries.Entry.{Entry};
ghost use Rattle.hib_base.specs.declared.scripts.Order.{Order};
ghost use Rattle.hib_base.specs.Fits.{fits_statement};
ghost use Rattle.hib_base.specs.Scripts.{is_known};
ghost use Rattle.hib_base.specs.Valid.{is_valid};
ghost use Rattle.hib_journal.specs.Kept.{past};
ghost use Rattle.hib_journal.specs.Legal.{IsLegal};
ghost use Rattle.hib_journal.specs.Next.{is_cached};
ghost use Rattle.hib_journal.specs.Played.{has_next, play_order};
ghost use Rattle.hib_journal.specs.Runs.{IsNumbered, told_committed, is_fault, fault_count};
ghost use Rattle.hib_journal.specs.Sessions.{was_killed, is_open};
ghost use Rattle.hib_law.specs.Hits.{AreListsGiven};
ghost use Rattle.hib_law.specs.Law.{Obeys};
ghost use Rattle.hib_outside.specs.Causes.{Rose};
ghost use Rattle.hib_session.specs.Session.{number_of};
ghost use Rattle.hib_store.specs.Stores.{handed_back, is_store_fault};
ghost use Rattle.hib_engines.specs.Engines.{IsStill, IsAskedFor};
ghost use Rattle.hib_core.specs.Standing.{RoseBy, origin_over};
ghost use Rattle.hib_core.specs.Factory.{Does, IsOver, IsStepRefused, HasGrown};
ghost use Rattle.hib_core.specs.Playing.{played, Leads};
ghost use Rattle.hib_live_law.specs.Grown.{HasGrown as HasGrownInto};
ghost use Rattle.hib_live.specs.Asked.{with_session};
ghost use Rattle.hib_live.specs.Live.{HasBegun, HasTaken};
ghost use Rattle.hib_live.specs.declared.refusal.Refusal.{Refusal};

use crate::fitting::fits;
use crate::growing::{add_session, add_statement, name_of};
use crate::refusal::Refusal;
use crate::turns::{evict_row, is_due, kill_session, restart_all, take_turn};
use hib_base::{Key, Script, SessionNo, Statement, is_cached};
use hib_core::{Name, Stepped};
use hib_engines::Engines;
use hib_journal::Journal;
use hib_law::{hits_are_true, law};
use hib_outside::Keeper;
use hib_session::{Session, open_all};
use hib_store::OpenFault;
use std::alloc::{AllocError, Global};
use std::marker::{Model, PhantomData};

/// How many sessions may begin: a session's number is less.
const MOST_SESSIONS: usize = (1 << 32) - 1;

/// Sessions over shared engines, which are given their statements one by one, with what was asked so far as a script,
/// and the journal of their steps. The journal is legal for that script from the name's rows.
pub struct LiveCore<K: Keeper, N: Name> {
    script: Script,
    engines: Engines<K>,
    sessions: Vec<Session>,
    journal: Journal,
    of: PhantomData<N>,
}

impl<K: Keeper, N: Name> Model for LiveCore<K, N> {
    ghost use Rattle.std.specs.Coded.{codes};
    ghost use Rattle.hib_base.specs.contracts.scripts.Cond as cond;
    ghost use Rattle.hib_live.specs.Live.{LiveState, IsLive};

    ghost Value = { LiveState };

    ghost coded = { Prim.hlevel (codes, cond.the_row.coded) };

    ghost view = { λ f. record {
      script = f.script;
      journal = f.journal;
      engines = f.engines;
      sessions = f.sessions.items;
    } };

    ghost invariant = { λ f. IsLive N.script N.from (record {
      script = f.script;
      journal = f.journal;
      engines = f.engines;
      sessions = f.sessions.items;
    }) };
}

impl<K: Keeper, N: Name> LiveCore<K, N> {
    /// Opens the core of the live factory of this name, with the sessions that the script has, if any, none of which
    /// has begun. The rows that the keeper keeps are widened to the script's mapping, and each of the script's rows
    /// whose key has none is added. At an error the keeper is handed back, with the rows that it had.
    pub fn open(alloc: Global, script: Script, keeper: K) -> Result<LiveCore<K, N>, OpenFault<K>>
        requires script { script ≡ N.script }
        requires valid { is_valid N.script ≡ true }
        requires from { origin_over N.script (K.tables keeper) (K.faults keeper) (K.asked keeper)
            ≡ N.from }
        ensures asked { IfOk result (λ f. f.script ≡ N.script) }
        ensures empty { IfOk result (λ f. past f.journal ≡ []) }
        ensures back { IfErr result (λ e. K.tables (handed_back e) ≡ K.tables keeper) }
        ensures back_faults { IfErr result (λ e. K.faults keeper ≤ K.faults (handed_back e)) }
        ensures back_asked { IfErr result (λ e. K.asked (handed_back e) ≡ K.asked keeper) }
        ensures fault { IfErr result (λ e. is_store_fault e ≡ true
            → Rose (K.faults keeper) (K.faults (handed_back e))) }
    {
        law();
        let Ok(sessions) = open_all(alloc, &script) else {
            return Err(OpenFault::NoMemory(keeper));
        };
        let engines = Engines::open(alloc, &script, keeper)?;
        Ok(LiveCore {
            script,
            engines,
            sessions,
            journal: Journal::open(alloc),
            of: PhantomData,
        })
    }

    /// One more session, behind the others, which has no statement yet. It is named `s` and its number from 1. At an
    /// error, which is want of memory or too many sessions, nothing has changed.
    pub fn begin(&mut self, alloc: Global) -> Result<SessionNo, AllocError>
        ensures number { IfOk result (λ n. n ≡ length self.old.script.sessions) }
        ensures begun { OnOk result (HasBegun self.old self.new) }
        ensures err { OnErr result (self.new ≡ self.old) }
    {
        law();
        let count = self.sessions.len();
        if count >= MOST_SESSIONS {
            return Err(AllocError);
        }
        let number = count as u32;
        let name = name_of(alloc, number)?;
        self.sessions.reserve(1)?;
        add_session(alloc, &mut self.script, name)?;
        self.sessions
            .push_reserved(Session::open(alloc, SessionNo(number)));
        Ok(SessionNo(number))
    }

    /// Whether a session was killed, by a kill or by a restart. One that isn't there wasn't.
    pub fn was_killed(&self, number: SessionNo) -> bool
        ensures there { number < length self.now.sessions
            → result ≡ was_killed number (past self.now.journal) }
        ensures absent { length self.now.sessions ≤ number → result ≡ false }
    {
        let place = number.0 as usize;
        place < self.sessions.len() && self.sessions[place].was_killed()
    }

    /// Whether a session could take a statement; else why not.
    fn refusal(
        &self,
        alloc: Global,
        number: SessionNo,
        statement: &Statement,
    ) -> Result<(), Refusal>
        ensures there { OnOk result (number < length self.now.script.sessions) }
        ensures live { OnOk result (was_killed number (past self.now.journal) ≡ false) }
        ensures idle { OnOk result (has_next self.now.script (past self.now.journal) number ≡ false) }
        ensures fits { OnOk result ((fits_statement self.now.script.mapping statement.now
            && is_known (length self.now.script.queries) statement.now) ≡ true) }
        ensures unknown { result ≡ Err Refusal.NoSession → length self.now.script.sessions ≤ number }
        ensures alone { result ≢ Err Refusal.Deaf }
        ensures absent { length self.now.script.sessions ≤ number → result ≡ Err Refusal.NoSession }
        ensures dead { number < length self.now.script.sessions
            → was_killed number (past self.now.journal) ≡ true → result ≡ Err Refusal.Killed }
        ensures other { number < length self.now.script.sessions
            → was_killed number (past self.now.journal) ≡ false
            → (fits_statement self.now.script.mapping statement.now
            && is_known (length self.now.script.queries) statement.now) ≡ false
            → result ≡ Err Refusal.Unfit }
        ensures killed { result ≡ Err Refusal.Killed
            → was_killed number (past self.now.journal) ≡ true }
        ensures busy { result ≡ Err Refusal.Busy
            → has_next self.now.script (past self.now.journal) number ≡ true }
        ensures unfit { result ≡ Err Refusal.Unfit
            → (fits_statement self.now.script.mapping statement.now
            && is_known (length self.now.script.queries) statement.now) ≡ false }
    {
        if number.0 as usize >= self.sessions.len() {
            return Err(Refusal::NoSession);
        }
        if self.was_killed(number) {
            return Err(Refusal::Killed);
        }
        if !fits(
            self.script.mapping.as_slice(),
            self.script.queries.len(),
            statement,
        ) {
            return Err(Refusal::Unfit);
        }
        match is_due(alloc, &self.script, number, self.sessions.as_slice()) {
            Ok(false) => Ok(()),
            Ok(true) => Err(Refusal::Busy),
            Err(_) => Err(Refusal::NoMemory),
        }
    }

    /// Gives a session one more statement, which must be of the declared entities, columns and queries. No step of it
    /// is made yet. A session that has steps left takes none. At an error nothing has changed.
    pub fn ask(
        &mut self,
        alloc: Global,
        number: SessionNo,
        statement: Statement,
    ) -> Result<(), Refusal>
        ensures taken { OnOk result (HasTaken number statement self.old self.new) }
        ensures fits { OnOk result ((fits_statement self.old.script.mapping statement
            && is_known (length self.old.script.queries) statement) ≡ true) }
        ensures idle { OnOk result (has_next self.old.script (past self.old.journal) number ≡ false) }
        ensures unknown { result ≡ Err Refusal.NoSession → length self.old.script.sessions ≤ number }
        ensures alone { result ≢ Err Refusal.Deaf }
        ensures absent { length self.old.script.sessions ≤ number → result ≡ Err Refusal.NoSession }
        ensures dead { number < length self.old.script.sessions
            → was_killed number (past self.old.journal) ≡ true → result ≡ Err Refusal.Killed }
        ensures other { number < length self.old.script.sessions
            → was_killed number (past self.old.journal) ≡ false
            → (fits_statement self.old.script.mapping statement
            && is_known (length self.old.script.queries) statement) ≡ false
            → result ≡ Err Refusal.Unfit }
        ensures killed { result ≡ Err Refusal.Killed
            → was_killed number (past self.old.journal) ≡ true }
        ensures busy { result ≡ Err Refusal.Busy
            → has_next self.old.script (past self.old.journal) number ≡ true }
        ensures unfit { result ≡ Err Refusal.Unfit
            → (fits_statement self.old.script.mapping statement
            && is_known (length self.old.script.queries) statement) ≡ false }
        ensures err { OnErr result (self.new ≡ self.old) }
    {
        law();
        self.refusal(alloc, number, &statement)?;
        match add_statement(alloc, &mut self.script, number, statement) {
            Ok(()) => Ok(()),
            Err(_) => Err(Refusal::NoMemory),
        }
    }

    /// One step of a session: the act that is due in it, if one is. The other sessions stay as they are. The keeper is
    /// asked once at most, and only if the act asks for rows. If there is no such session nothing has changed. If
    /// memory runs out no entry is added and nothing has changed, but the keeper's counts if the act calls it; so a
    /// later call may succeed.
    pub fn step(&mut self, alloc: Global, number: SessionNo) -> Result<Stepped, Refusal>
        ensures asked { self.new.script ≡ self.old.script }
        ensures did { result ≡ Ok Stepped.Did
            → Does self.old.script number (past self.old.journal) (past self.new.journal)
            self.old.sessions self.new.sessions }
        ensures done { result ≡ Ok Stepped.Done
            → IsOver self.old.script number (past self.old.journal) (past self.new.journal) }
        ensures killed { number < length self.old.script.sessions
            → was_killed number (past self.old.journal) ≡ true → result ≡ Ok Stepped.Done }
        ensures fault { (e : Entry) → past self.new.journal ≡ e ∷ past self.old.journal
            → is_fault e.reply ≡ true → Rose self.old.engines.store.faults
            self.new.engines.store.faults }
        ensures asks_once { (e : Entry) → past self.new.journal ≡ e ∷ past self.old.journal
            → IsAskedFor (past self.old.journal) number e.act self.old.engines self.new.engines }
        ensures reason { IfErr result (λ r. (r ≡ Refusal.NoMemory) ⊎ (r ≡ Refusal.NoSession)) }
        ensures unknown { (result ≡ Err Refusal.NoSession)
            ↔ (length self.old.script.sessions ≤ number) }
        ensures untouched { result ≡ Err Refusal.NoSession → self.new ≡ self.old }
        ensures same { OnErr result (past self.new.journal ≡ past self.old.journal) }
        ensures engines { OnErr result (IsStill self.old.engines self.new.engines) }
        ensures counts { result ≡ Err Refusal.NoMemory → IsStepRefused self.old.script
            (past self.old.journal) number self.old.engines self.new.engines }
        ensures others { (s : ℕ) → (number == s) ≡ false
            → slice_get self.new.sessions s ≡ slice_get self.old.sessions s }
    {
        if number.0 as usize >= self.sessions.len() {
            return Err(Refusal::NoSession);
        }
        match take_turn::<K, N>(
            alloc,
            &self.script,
            number,
            &mut self.sessions,
            &mut self.engines,
            &mut self.journal,
        ) {
            Ok(stepped) => Ok(stepped),
            Err(_) => Err(Refusal::NoMemory),
        }
    }

    /// Whether a session is open: it has begun a transaction, and neither ended it nor was killed.
    pub fn is_open(&self, number: SessionNo) -> bool
        ensures { result ≡ is_open number (past self.now.journal) }
    {
        self.engines.registry().is_open(number)
    }

    /// What was asked so far, as a script.
    pub fn script(&self) -> &Script
        ensures { result.now ≡ self.now.script }
    {
        &self.script
    }

    /// The entries of the steps so far.
    pub fn journal(&self) -> &Journal
        ensures { result.now ≡ self.now.journal }
    {
        &self.journal
    }

    /// How many sessions there are.
    pub fn sessions(&self) -> usize
        ensures { result ≡ length self.now.script.sessions }
    {
        self.script.sessions.len()
    }

    /// Kills a session, if it is open: no act of it is due from then on, and its locks stay until their time is over.
    /// If memory runs out nothing has changed.
    pub fn kill(&mut self, number: SessionNo) -> Result<(), AllocError>
        ensures asked { self.new.script ≡ self.old.script }
        ensures killed { OnOk result (Leads (play_order self.old.script (Order.Kill number)) played
            (past self.old.journal) (past self.new.journal)) }
        ensures closed { is_open number (past self.old.journal) ≡ false → (IsOk result)
            × (past self.new.journal ≡ past self.old.journal) }
        ensures grown { OnOk result (is_open number (past self.old.journal) ≡ true
            → HasGrown (past self.old.journal) (past self.new.journal)) }
        ensures same { OnErr result (past self.new.journal ≡ past self.old.journal) }
        ensures engines { OnErr result (self.new.engines ≡ self.old.engines) }
        ensures err { OnErr result (self.new.sessions ≡ self.old.sessions) }
    {
        kill_session::<K, N>(
            &self.script,
            number,
            &mut self.sessions,
            &mut self.engines,
            &mut self.journal,
        )
    }

    /// Evicts a row from its region. If its entity isn't cached, or memory runs out, nothing has changed.
    pub fn evict(&mut self, alloc: Global, key: Key) -> Result<(), Refusal>
        ensures asked { self.new.script ≡ self.old.script }
        ensures evicted { OnOk result (Leads (play_order self.old.script (Order.Evict key)) played
            (past self.old.journal) (past self.new.journal)) }
        ensures grown { OnOk result (HasGrown (past self.old.journal) (past self.new.journal)) }
        ensures uncached { (result ≡ Err Refusal.Unfit)
            ↔ (is_cached self.old.script key.entity ≡ false) }
        ensures reason { IfErr result (λ r. (r ≡ Refusal.NoMemory) ⊎ (r ≡ Refusal.Unfit)) }
        ensures same { OnErr result (past self.new.journal ≡ past self.old.journal) }
        ensures engines { OnErr result (self.new.engines ≡ self.old.engines) }
        ensures sessions { self.new.sessions ≡ self.old.sessions }
    {
        if !is_cached(self.script.mapping.as_slice(), key.entity) {
            return Err(Refusal::Unfit);
        }
        match evict_row::<K, N>(
            alloc,
            &self.script,
            key,
            &mut self.engines,
            &mut self.journal,
        ) {
            Ok(()) => Ok(()),
            Err(_) => Err(Refusal::NoMemory),
        }
    }

    /// A restart: the sessions that are open are killed, and nothing is cached, locked, stamped or kept any more. If
    /// memory runs out nothing has changed.
    pub fn restart(&mut self) -> Result<(), AllocError>
        ensures asked { self.new.script ≡ self.old.script }
        ensures restarted { OnOk result (Leads (play_order self.old.script Order.Restart) played
            (past self.old.journal) (past self.new.journal)) }
        ensures grown { OnOk result (HasGrown (past self.old.journal) (past self.new.journal)) }
        ensures same { OnErr result (past self.new.journal ≡ past self.old.journal) }
        ensures engines { OnErr result (self.new.engines ≡ self.old.engines) }
        ensures err { OnErr result (self.new.sessions ≡ self.old.sessions) }
    {
        restart_all::<K, N>(
            &self.script,
            &mut self.sessions,
            &mut self.engines,
            &mut self.journal,
        )
    }

    /// Says to proofs what holds of the journal at any time: it is legal for what was asked, its ticks are numbered, it
    /// obeys the law, and each list from the cache is what its query gave at the moment of the hit. It does nothing.
    pub fn lawful(&self)
        ensures grown { HasGrownInto N.script self.now.script }
        ensures legal { IsLegal self.now.script N.from.tables (past self.now.journal) }
        ensures numbered { IsNumbered (past self.now.journal) }
        ensures law { Obeys self.now.script N.from.tables (past self.now.journal) }
        ensures given { IfSome N.from.tables
            (λ start. AreListsGiven self.now.script start (past self.now.journal)) }
    {
        hits_are_true();
        let _ = &self.journal;
    }

    /// Takes the core apart: the keeper, what was asked as a script, and the journal, with what holds of them.
    pub fn close(self) -> (K, Script, Journal)
        ensures asked { result.1 ≡ self.script }
        ensures journal { result.2 ≡ self.journal }
        ensures legal { IsLegal result.1 N.from.tables (past result.2) }
        ensures law { Obeys result.1 N.from.tables (past result.2) }
        ensures given { IfSome N.from.tables
            (λ start. AreListsGiven result.1 start (past result.2)) }
        ensures numbered { IsNumbered (past result.2) }
        ensures rows { K.tables result.0 ≡ told_committed N.from.tables (past result.2) }
        ensures faults { RoseBy N.from.faults (fault_count (past result.2)) (K.faults result.0) }
        ensures count { K.asked result.0 ≡ self.engines.store.asked }
    {
        hits_are_true();
        let LiveCore {
            script,
            engines,
            sessions: _,
            journal,
            of: _,
        } = self;
        (engines.close(), script, journal)
    }
}
