// A live factory: the core, and the listeners that hear of each step.
ghost use Rattle.std.specs.Prelude.{◌≡◌, ◌≢◌, ◌∷◌, ◌<◌, ◌≤◌, ◌&&◌, ◌⊎◌, ◌↔◌, [], length, is_ok, IfOk, IfErr, IfSome, OnOk, OnErr, IsOk, Ok, Err, true, false, ◌==◌, ℕ, slice_get};
ghost use Rattle.hib_base.specs.declared.entries.Entry.{Entry};
ghost use Rattle.hib_base.specs.declared.scripts.Order.{Order};
ghost use Rattle.hib_base.specs.Fits.{fits_statement};
ghost use Rattle.hib_base.specs.Scripts.{is_known};
ghost use Rattle.hib_base.specs.Valid.{is_valid};
ghost use Rattle.hib_journal.specs.Kept.{past};
ghost use Rattle.hib_journal.specs.Legal.{IsLegal};
ghost use Rattle.hib_journal.specs.Next.{is_cached};
ghost use Rattle.hib_journal.specs.Played.{has_next, play_order};
ghost use Rattle.hib_journal.specs.Runs.{IsNumbered, told_committed, fault_count, is_fault};
ghost use Rattle.hib_journal.specs.Sessions.{was_killed, is_open};
ghost use Rattle.hib_law.specs.Hits.{AreListsGiven};
ghost use Rattle.hib_law.specs.Law.{Obeys};
ghost use Rattle.hib_outside.specs.Causes.{Rose};
ghost use Rattle.hib_store.specs.Stores.{handed_back, is_store_fault};
ghost use Rattle.hib_engines.specs.Engines.{IsAskedFor};
ghost use Rattle.hib_core.specs.Standing.{RoseBy, origin_over};
ghost use Rattle.hib_core.specs.Factory.{Does, IsOver, IsStepRefused, Hears};
ghost use Rattle.hib_core.specs.Playing.{played, Leads};
ghost use Rattle.hib_listeners.specs.Told.{tells};
ghost use Rattle.hib_listeners.specs.Heard.{HaveHeard};
ghost use Rattle.hib_live_law.specs.Grown.{HasGrown as HasGrownInto};
ghost use Rattle.hib_live.specs.Live.{HasBegun, HasTaken, live_of};
ghost use Rattle.hib_live.specs.declared.refusal.Refusal.{Refusal};

use crate::refusal::Refusal;
use crate::steps::LiveCore;
use hib_base::{Key, Script, SessionNo, Statement};
use hib_core::{Name, OpenRefused, Stepped, tell};
use hib_journal::Journal;
use hib_listeners::{Listeners, nothing_was_told};
use hib_outside::{Keeper, Listener};
use std::alloc::{AllocError, Global};
use std::marker::Model;

/// Sessions that are given their statements one by one, over shared engines, with the journal of their steps and the
/// listeners. The step that adds an entry tells it to the listeners. If a listener has no memory for an entry, the
/// entry stands, but no call adds one more: it answers `Deaf`.
pub struct Live<K: Keeper, N: Name, L: Listener> {
    core: LiveCore<K, N>,
    listeners: Listeners<L>,
    /// Whether a listener had no memory for the newest entry.
    deaf: bool,
}

impl<K: Keeper, N: Name, L: Listener> Model for Live<K, N, L> {
    ghost use Rattle.std.specs.Coded.{codes};
    ghost use Rattle.hib_base.specs.contracts.scripts.Cond as cond;
    ghost use Rattle.hib_live.specs.Live.{HeardState};
    ghost use Rattle.hib_listeners.specs.Told.{tells};
    ghost use Rattle.hib_listeners.specs.Heard.{HaveHeard};

    ghost Value = { HeardState };

    ghost coded = { Prim.hlevel (codes, cond.the_row.coded) };

    ghost view = { λ f. record {
      script = f.core.script;
      journal = f.core.journal;
      engines = f.core.engines;
      sessions = f.core.sessions;
      told = tells L.heard L.left f.listeners;
      deaf = f.deaf;
    } };

    ghost invariant = { λ f. HaveHeard f.deaf f.core.journal.list N.told (tells L.heard L.left
        f.listeners) };
}

impl<K: Keeper, N: Name, L: Listener> Live<K, N, L> {
    /// Opens the live factory of this name, with the sessions that the script has, if any, none of which has begun. The
    /// keeper is seeded with the script's mapping and rows, each of which it takes if its key has none. At an error the
    /// keeper is handed back with the rows that it had, and the listeners untold.
    pub fn open(
        alloc: Global,
        script: Script,
        keeper: K,
        listeners: Vec<L>,
    ) -> Result<Live<K, N, L>, OpenRefused<K, L>>
        requires script { script ≡ N.script }
        requires valid { is_valid N.script ≡ true }
        requires from { origin_over N.script (K.tables keeper) (K.faults keeper) (K.asked keeper)
            ≡ N.from }
        requires told { tells L.heard L.left listeners.items ≡ N.told }
        ensures asked { IfOk result (λ f. f.script ≡ N.script) }
        ensures empty { IfOk result (λ f. past f.journal ≡ []) }
        ensures hears { IfOk result (λ f. f.deaf ≡ false) }
        ensures untold { IfOk result (λ f. f.told ≡ N.told) }
        ensures back { IfErr result (λ e. K.tables (handed_back e.fault) ≡ K.tables keeper) }
        ensures back_faults { IfErr result (λ e. K.faults keeper ≤ K.faults (handed_back e.fault)) }
        ensures back_asked { IfErr result (λ e. K.asked (handed_back e.fault) ≡ K.asked keeper) }
        ensures fault { IfErr result (λ e. is_store_fault e.fault ≡ true
            → Rose (K.faults keeper) (K.faults (handed_back e.fault))) }
        ensures listeners { IfErr result (λ e. e.listeners ≡ listeners) }
    {
        nothing_was_told();
        match LiveCore::open(alloc, script, keeper) {
            Ok(core) => Ok(Live {
                core,
                listeners: Listeners::open(listeners),
                deaf: false,
            }),
            Err(fault) => Err(OpenRefused { fault, listeners }),
        }
    }

    /// One more session, behind the others, as `LiveCore::begin`. Nobody is told.
    pub fn begin(&mut self, alloc: Global) -> Result<SessionNo, AllocError>
        ensures number { IfOk result (λ n. n ≡ length self.old.script.sessions) }
        ensures begun { OnOk result (HasBegun (live_of self.old) (live_of self.new)) }
        ensures err { OnErr result (self.new ≡ self.old) }
        ensures told { self.new.told ≡ self.old.told }
        ensures deaf { self.new.deaf ≡ self.old.deaf }
    {
        let _ = &self.deaf;
        self.core.begin(alloc)
    }

    /// Gives a session one more statement, as `LiveCore::ask`. Nobody is told.
    pub fn ask(
        &mut self,
        alloc: Global,
        number: SessionNo,
        statement: Statement,
    ) -> Result<(), Refusal>
        ensures taken { OnOk result (HasTaken number statement (live_of self.old)
            (live_of self.new)) }
        ensures fits { OnOk result ((fits_statement self.old.script.mapping statement
            && is_known (length self.old.script.queries) statement) ≡ true) }
        ensures idle { OnOk result (has_next self.old.script (past self.old.journal) number ≡ false) }
        ensures unknown { result ≡ Err Refusal.NoSession → length self.old.script.sessions ≤ number }
        ensures hears { result ≢ Err Refusal.Deaf }
        ensures absent { length self.old.script.sessions ≤ number → result ≡ Err Refusal.NoSession }
        ensures dead { number < length self.old.script.sessions
            → was_killed number (past self.old.journal) ≡ true → result ≡ Err Refusal.Killed }
        ensures other { number < length self.old.script.sessions
            → was_killed number (past self.old.journal) ≡ false
            → (fits_statement self.old.script.mapping statement
            && is_known (length self.old.script.queries) statement) ≡ false
            → result ≡ Err Refusal.Unfit }
        ensures killed { result ≡ Err Refusal.Killed
            → was_killed number (past self.old.journal) ≡ true }
        ensures busy { result ≡ Err Refusal.Busy
            → has_next self.old.script (past self.old.journal) number ≡ true }
        ensures unfit { result ≡ Err Refusal.Unfit
            → (fits_statement self.old.script.mapping statement
            && is_known (length self.old.script.queries) statement) ≡ false }
        ensures err { OnErr result (self.new ≡ self.old) }
        ensures told { self.new.told ≡ self.old.told }
        ensures deaf { self.new.deaf ≡ self.old.deaf }
    {
        let _ = &self.deaf;
        self.core.ask(alloc, number, statement)
    }

    /// One step of a session, as `LiveCore::step`, and then the listeners hear of its entry. If one has no memory for
    /// it the entry stands, the answer is `Deaf`, and so is that of each later call that would add an entry.
    pub fn step(&mut self, alloc: Global, number: SessionNo) -> Result<Stepped, Refusal>
        ensures asked { self.new.script ≡ self.old.script }
        ensures did { result ≡ Ok Stepped.Did
            → Does self.old.script number (past self.old.journal) (past self.new.journal)
            self.old.sessions self.new.sessions }
        ensures done { result ≡ Ok Stepped.Done
            → IsOver self.old.script number (past self.old.journal) (past self.new.journal) }
        ensures fault { (e : Entry) → past self.new.journal ≡ e ∷ past self.old.journal
            → is_fault e.reply ≡ true → Rose self.old.engines.store.faults
            self.new.engines.store.faults }
        ensures asks_once { (e : Entry) → past self.new.journal ≡ e ∷ past self.old.journal
            → IsAskedFor (past self.old.journal) number e.act self.old.engines self.new.engines }
        ensures hears { Hears (past self.old.journal) (past self.new.journal)
            (is_ok result) self.old.told self.new.told }
        ensures killed { self.old.deaf ≡ false → number < length self.old.script.sessions
            → was_killed number (past self.old.journal) ≡ true → result ≡ Ok Stepped.Done }
        ensures unknown { self.old.deaf ≡ false → length self.old.script.sessions ≤ number
            → result ≡ Err Refusal.NoSession }
        ensures counts { result ≡ Err Refusal.NoMemory → IsStepRefused self.old.script
            (past self.old.journal) number self.old.engines self.new.engines }
        ensures others { (s : ℕ) → (number == s) ≡ false
            → slice_get self.new.sessions s ≡ slice_get self.old.sessions s }
        ensures unheard { result ≡ Err Refusal.Deaf → self.old.deaf ≡ false
            → Does self.old.script number (past self.old.journal) (past self.new.journal)
            self.old.sessions self.new.sessions }
        ensures deaf { self.old.deaf ≡ true → (result ≡ Err Refusal.Deaf) × (self.new ≡ self.old) }
        ensures turned { result ≡ Err Refusal.Deaf → self.new.deaf ≡ true }
        ensures hearing { OnOk result (self.new.deaf ≡ false) }
        ensures same { OnErr result (self.new.deaf ≡ self.old.deaf
            → past self.new.journal ≡ past self.old.journal) }
    {
        if self.deaf {
            return Err(Refusal::Deaf);
        }
        match self.core.step(alloc, number)? {
            Stepped::Done => Ok(Stepped::Done),
            Stepped::Did => match tell(
                alloc,
                self.core.journal(),
                &mut self.listeners,
                &mut self.deaf,
            ) {
                Ok(()) => Ok(Stepped::Did),
                Err(_) => Err(Refusal::Deaf),
            },
        }
    }

    /// Kills a session, if it is open, as `LiveCore::kill`, and then the listeners hear of it. What want of memory
    /// leaves is as after `step`.
    pub fn kill(&mut self, alloc: Global, number: SessionNo) -> Result<(), Refusal>
        ensures asked { self.new.script ≡ self.old.script }
        ensures obeyed { OnOk result (Leads (play_order self.old.script (Order.Kill number)) played
            (past self.old.journal) (past self.new.journal)) }
        ensures hears { Hears (past self.old.journal) (past self.new.journal)
            (is_ok result) self.old.told self.new.told }
        ensures deaf { self.old.deaf ≡ true → (result ≡ Err Refusal.Deaf) × (self.new ≡ self.old) }
        ensures turned { result ≡ Err Refusal.Deaf → self.new.deaf ≡ true }
        ensures hearing { OnOk result (self.new.deaf ≡ false) }
        ensures same { OnErr result (self.new.deaf ≡ self.old.deaf
            → past self.new.journal ≡ past self.old.journal) }
    {
        if self.deaf {
            return Err(Refusal::Deaf);
        }
        if !self.core.is_open(number) {
            return Ok(());
        }
        if self.core.kill(number).is_err() {
            return Err(Refusal::NoMemory);
        }
        match tell(
            alloc,
            self.core.journal(),
            &mut self.listeners,
            &mut self.deaf,
        ) {
            Ok(()) => Ok(()),
            Err(_) => Err(Refusal::Deaf),
        }
    }

    /// Evicts a row from its region, as `LiveCore::evict`, and then the listeners hear of it. What want of memory
    /// leaves is as after `step`.
    pub fn evict(&mut self, alloc: Global, key: Key) -> Result<(), Refusal>
        ensures asked { self.new.script ≡ self.old.script }
        ensures obeyed { OnOk result (Leads (play_order self.old.script (Order.Evict key)) played
            (past self.old.journal) (past self.new.journal)) }
        ensures hears { Hears (past self.old.journal) (past self.new.journal)
            (is_ok result) self.old.told self.new.told }
        ensures uncached { result ≡ Err Refusal.Unfit
            → is_cached self.old.script key.entity ≡ false }
        ensures deaf { self.old.deaf ≡ true → (result ≡ Err Refusal.Deaf) × (self.new ≡ self.old) }
        ensures turned { result ≡ Err Refusal.Deaf → self.new.deaf ≡ true }
        ensures hearing { OnOk result (self.new.deaf ≡ false) }
        ensures same { OnErr result (self.new.deaf ≡ self.old.deaf
            → past self.new.journal ≡ past self.old.journal) }
    {
        if self.deaf {
            return Err(Refusal::Deaf);
        }
        self.core.evict(alloc, key)?;
        match tell(
            alloc,
            self.core.journal(),
            &mut self.listeners,
            &mut self.deaf,
        ) {
            Ok(()) => Ok(()),
            Err(_) => Err(Refusal::Deaf),
        }
    }

    /// A restart, as `LiveCore::restart`, and then the listeners hear of it. What want of memory leaves is as after
    /// `step`.
    pub fn restart(&mut self, alloc: Global) -> Result<(), Refusal>
        ensures asked { self.new.script ≡ self.old.script }
        ensures obeyed { OnOk result (Leads (play_order self.old.script Order.Restart) played
            (past self.old.journal) (past self.new.journal)) }
        ensures hears { Hears (past self.old.journal) (past self.new.journal)
            (is_ok result) self.old.told self.new.told }
        ensures deaf { self.old.deaf ≡ true → (result ≡ Err Refusal.Deaf) × (self.new ≡ self.old) }
        ensures turned { result ≡ Err Refusal.Deaf → self.new.deaf ≡ true }
        ensures hearing { OnOk result (self.new.deaf ≡ false) }
        ensures same { OnErr result (self.new.deaf ≡ self.old.deaf
            → past self.new.journal ≡ past self.old.journal) }
    {
        if self.deaf {
            return Err(Refusal::Deaf);
        }
        if self.core.restart().is_err() {
            return Err(Refusal::NoMemory);
        }
        match tell(
            alloc,
            self.core.journal(),
            &mut self.listeners,
            &mut self.deaf,
        ) {
            Ok(()) => Ok(()),
            Err(_) => Err(Refusal::Deaf),
        }
    }

    /// Whether a session is open, as `LiveCore::is_open`.
    pub fn is_open(&self, number: SessionNo) -> bool
        ensures { result ≡ is_open number (past self.now.journal) }
    {
        self.core.is_open(number)
    }

    /// Whether a session was killed, as `LiveCore::was_killed`.
    pub fn was_killed(&self, number: SessionNo) -> bool
        ensures there { number < length self.now.sessions
            → result ≡ was_killed number (past self.now.journal) }
        ensures absent { length self.now.sessions ≤ number → result ≡ false }
    {
        self.core.was_killed(number)
    }

    /// What was asked so far, as a script.
    pub fn script(&self) -> &Script
        ensures { result.now ≡ self.now.script }
    {
        self.core.script()
    }

    /// The entries of the steps so far.
    pub fn journal(&self) -> &Journal
        ensures { result.now ≡ self.now.journal }
    {
        self.core.journal()
    }

    /// Whether a listener had no memory for the newest entry, so that no call adds one more.
    pub fn is_deaf(&self) -> bool
        ensures { result ≡ self.now.deaf }
    {
        self.deaf
    }

    /// Says to proofs what holds of the journal at any time, as `LiveCore::lawful`. It does nothing.
    pub fn lawful(&self)
        ensures grown { HasGrownInto N.script self.now.script }
        ensures legal { IsLegal self.now.script N.from.tables (past self.now.journal) }
        ensures numbered { IsNumbered (past self.now.journal) }
        ensures law { Obeys self.now.script N.from.tables (past self.now.journal) }
        ensures given { IfSome N.from.tables
            (λ start. AreListsGiven self.now.script start (past self.now.journal)) }
    {
        self.core.lawful();
    }

    /// Takes the factory apart: the keeper, what was asked as a script, the journal and the listeners that stayed, with
    /// what holds of them.
    pub fn close(self) -> (K, Script, Journal, Vec<L>)
        ensures asked { result.1 ≡ self.script }
        ensures journal { result.2 ≡ self.journal }
        ensures legal { IsLegal result.1 N.from.tables (past result.2) }
        ensures law { Obeys result.1 N.from.tables (past result.2) }
        ensures given { IfSome N.from.tables
            (λ start. AreListsGiven result.1 start (past result.2)) }
        ensures numbered { IsNumbered (past result.2) }
        ensures rows { K.tables result.0 ≡ told_committed N.from.tables (past result.2) }
        ensures faults { RoseBy N.from.faults (fault_count (past result.2)) (K.faults result.0) }
        ensures count { K.asked result.0 ≡ self.engines.store.asked }
        ensures heard { HaveHeard self.deaf result.2.list N.told
            (tells L.heard L.left result.3.items) }
    {
        let Live {
            core,
            listeners,
            deaf: _,
        } = self;
        let (keeper, script, journal) = core.close();
        (keeper, script, journal, listeners.close())
    }
}
