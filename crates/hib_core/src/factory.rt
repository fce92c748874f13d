// The factory: sessions over shared engines, the journal of their steps, and the listeners that hear of each. The top
// call opens and plays one for `play`; hib_workers has threads step one for `work`.
ghost use Rattle.std.specs.Prelude.{◌≡◌, ◌+◌, ◌<◌, ◌≤◌, ◌^◌, ◌==◌, ℕ, [], ◌∷◌, length, slice_get, is_ok, OnOk, OnErr, IfOk, IfErr, IfSome, IsOk, Ok, Some, true, false};
ghost use Rattle.hib_journal.specs.Kept.{past};
ghost use Rattle.hib_base.specs.declared.scripts.Order.{Order};
ghost use Rattle.hib_base.specs.Valid.{is_valid};
ghost use Rattle.hib_journal.specs.Sessions.{was_killed, is_open};
ghost use Rattle.hib_journal.specs.Next.{is_cached};
ghost use Rattle.hib_journal.specs.Played.{play_steps, play_order, play_orders, is_played};
ghost use Rattle.hib_journal.specs.Legal.{IsLegal};
ghost use Rattle.hib_journal.specs.Runs.{IsNumbered, told_committed, is_fault, fault_count, ask_count};
ghost use Rattle.hib_base.specs.declared.entries.Entry.{Entry};
ghost use Rattle.hib_law.specs.Hits.{AreListsGiven};
ghost use Rattle.hib_law.specs.Law.{Obeys};
ghost use Rattle.hib_engines.specs.Built.{IsSound};
ghost use Rattle.hib_engines.specs.Engines.{IsStill, IsAskedFor};
ghost use Rattle.hib_core.specs.Standing.{RoseBy, RoseWithin, origin_over};
ghost use Rattle.hib_outside.specs.Causes.{Rose};
ghost use Rattle.hib_store.specs.Stores.{handed_back, is_store_fault};
ghost use Rattle.hib_core.specs.Bound.{most_in, outside_count};
ghost use Rattle.hib_session.specs.Sessions.{AreSessions};
ghost use Rattle.hib_core.specs.Factory.{Does, IsOver, IsAskedOnceMore, IsStepRefused, AreOver, Hears};
ghost use Rattle.hib_core.specs.Calls.{HasRun, IsObeyed};
ghost use Rattle.hib_core.specs.Playing.{played, play_script, GoesOn, Leads, AreNamed};
ghost use Rattle.hib_listeners.specs.Told.{tells};
ghost use Rattle.hib_listeners.specs.Heard.{HaveHeard};

use crate::opening::OpenRefused;
use crate::steps::Core;
use crate::telling::tell;
use hib_base::{Key, Order, Script, SessionNo};
use hib_engines::{Name, Stepped};
use hib_journal::Journal;
use hib_listeners::{Listeners, nothing_was_told};
use hib_outside::{Keeper, Listener};
use std::alloc::{AllocError, Global};
use std::marker::Model;

/// Sessions over shared engines, with the journal of their steps and the listeners. The journal is legal for the name's
/// script from the name's rows. The step that adds an entry tells it to the listeners. If a listener has no memory for
/// an entry, the entry stands, but no call adds one more: it answers want of memory and changes nothing.
pub struct Factory<K: Keeper, N: Name, L: Listener> {
    core: Core<K, N>,
    listeners: Listeners<L>,
    /// Whether a listener had no memory for the newest entry.
    deaf: bool,
}

impl<K: Keeper, N: Name, L: Listener> Model for Factory<K, N, L> {
    ghost use Rattle.std.specs.Prelude.{◌≡◌, ◌||◌};
    ghost use Rattle.hib_core.specs.Factory.{FactoryState};
    ghost use Rattle.hib_listeners.specs.Told.{tells};
    ghost use Rattle.hib_listeners.specs.Heard.{HaveHeard};

    ghost Value = { FactoryState };

    ghost view = { λ f. record {
      journal = f.core.journal;
      engines = f.core.engines;
      sessions = f.core.sessions;
      refused = f.core.refused || f.deaf;
      told = tells L.heard L.left f.listeners;
      deaf = f.deaf;
    } };

    ghost invariant = { λ f. HaveHeard f.deaf f.core.journal.list N.told (tells L.heard L.left
        f.listeners) };
}

impl<K: Keeper, N: Name, L: Listener> Factory<K, N, L> {
    /// Opens the factory of this name, in which no session has begun. The keeper is seeded with the script's mapping
    /// and rows, each of which it takes if its key has none. At an error the keeper is handed back with the rows that
    /// it had, and the listeners untold.
    pub fn open(
        alloc: Global,
        script: Script,
        keeper: K,
        listeners: Vec<L>,
    ) -> Result<Factory<K, N, L>, OpenRefused<K, L>>
        requires script { script ≡ N.script }
        requires valid { is_valid N.script ≡ true }
        requires from { origin_over N.script (K.tables keeper) (K.faults keeper) (K.asked keeper)
            ≡ N.from }
        requires told { tells L.heard L.left listeners.items ≡ N.told }
        ensures empty { IfOk result (λ f. past f.journal ≡ []) }
        ensures going { IfOk result (λ f. f.refused ≡ false) }
        ensures untold { IfOk result (λ f. f.told ≡ N.told) }
        ensures back { IfErr result (λ e. K.tables (handed_back e.fault) ≡ K.tables keeper) }
        ensures back_faults { IfErr result (λ e. K.faults keeper ≤ K.faults (handed_back e.fault)) }
        ensures back_asked { IfErr result (λ e. K.asked (handed_back e.fault) ≡ K.asked keeper) }
        ensures fault { IfErr result (λ e. is_store_fault e.fault ≡ true
            → Rose (K.faults keeper) (K.faults (handed_back e.fault))) }
        ensures listeners { IfErr result (λ e. e.listeners ≡ listeners) }
    {
        nothing_was_told();
        match Core::open(alloc, script, keeper) {
            Ok(core) => Ok(Factory {
                core,
                listeners: Listeners::open(listeners),
                deaf: false,
            }),
            Err(fault) => Err(OpenRefused { fault, listeners }),
        }
    }

    /// One step of a session: the act that is due in it, if one is, and then the listeners hear of its entry. The other
    /// sessions stay as they are. The keeper is asked once at most, and only if the act asks for rows. If memory runs
    /// out no entry is added and nothing has changed, but the answer of `refused` and, if the act that was due calls
    /// the keeper, its counts; so a later call may succeed. Only if a listener had none does the entry stand, and no
    /// call adds another. The session must be the script's.
    pub fn step(&mut self, alloc: Global, number: SessionNo) -> Result<Stepped, AllocError>
        requires known { number < length N.script.sessions }
        ensures did { result ≡ Ok Stepped.Did
            → Does N.script number (past self.old.journal) (past self.new.journal) self.old.sessions
            self.new.sessions }
        ensures done { result ≡ Ok Stepped.Done
            → IsOver N.script number (past self.old.journal) (past self.new.journal) }
        ensures ran { HasRun N.script N.from result self.old self.new }
        ensures given { IfSome N.from.tables
            (λ start. AreListsGiven N.script start (past self.new.journal)) }
        ensures killed { was_killed number (past self.old.journal) ≡ true
            → result ≡ Ok Stepped.Done }
        ensures inside { outside_count (past self.new.journal)
            ≡ outside_count (past self.old.journal) }
        ensures fault { (e : Entry) → past self.new.journal ≡ e ∷ past self.old.journal
            → is_fault e.reply ≡ true
            → Rose self.old.engines.store.faults self.new.engines.store.faults }
        ensures asks_once { (e : Entry) → past self.new.journal ≡ e ∷ past self.old.journal
            → IsAskedFor (past self.old.journal) number e.act self.old.engines self.new.engines }
        ensures hears { Hears (past self.old.journal) (past self.new.journal)
            (is_ok result) self.old.told self.new.told }
        ensures same { OnErr result (self.new.deaf ≡ self.old.deaf
            → past self.new.journal ≡ past self.old.journal) }
        ensures engines { OnErr result (self.new.deaf ≡ self.old.deaf
            → IsStill self.old.engines self.new.engines) }
        ensures counts { OnErr result (self.new.deaf ≡ self.old.deaf
            → IsStepRefused N.script (past self.old.journal) number self.old.engines
            self.new.engines) }
        ensures unheard { OnErr result (self.old.deaf ≡ false → self.new.deaf ≡ true
            → Does N.script number (past self.old.journal) (past self.new.journal) self.old.sessions
            self.new.sessions) }
        ensures deaf { self.old.deaf ≡ true → self.new ≡ self.old }
        ensures sessions { OnErr result
            (AreSessions N.script (past self.new.journal) self.new.sessions) }
        ensures others { (s : ℕ) → (number == s) ≡ false
            → slice_get self.new.sessions s ≡ slice_get self.old.sessions s }
    {
        if self.deaf {
            return self.core.idle_step(alloc, number);
        }
        match self.core.step(alloc, number)? {
            Stepped::Did => {
                match tell(
                    alloc,
                    self.core.journal(),
                    &mut self.listeners,
                    &mut self.deaf,
                ) {
                    Ok(()) => Ok(Stepped::Did),
                    Err(error) => Err(error),
                }
            }
            Stepped::Done => Ok(Stepped::Done),
        }
    }

    /// The entries of the steps so far.
    pub fn journal(&self) -> &Journal
        ensures { result.now ≡ self.now.journal }
    {
        self.core.journal()
    }

    /// The script of this name.
    pub fn script(&self) -> &Script
        ensures { result.now ≡ N.script }
    {
        self.core.script()
    }

    /// Whether memory ran out in a call, a listener's among them.
    pub fn refused(&self) -> bool
        ensures { result ≡ self.now.refused }
    {
        self.core.refused() || self.deaf
    }

    /// How many sessions there are.
    pub fn sessions(&self) -> usize
        ensures count { result ≡ length N.script.sessions }
        ensures few { result < 2 ^ 32 }
    {
        self.core.sessions()
    }

    /// How many orders the schedule has.
    fn orders(&self) -> usize
        ensures count { result ≡ length N.script.schedule }
    {
        self.core.orders()
    }

    /// An order of the schedule.
    fn order(&self, at: usize) -> Order
        requires there { at < length N.script.schedule }
        ensures order { slice_get N.script.schedule at ≡ Some result }
        ensures sound { IsSound N.script result }
    {
        self.core.order(at)
    }

    /// Says to proofs that the journal obeys the law, and that each list from the cache is what its query gave at the
    /// moment of the hit. It does nothing.
    pub fn lawful(&self)
        ensures law { Obeys N.script N.from.tables (past self.now.journal) }
        ensures given { IfSome N.from.tables
            (λ start. AreListsGiven N.script start (past self.now.journal)) }
    {
        self.core.lawful();
    }

    /// Runs a session for `steps` steps, or to its end if that comes before. A session that isn't there has none. If
    /// memory runs out the steps so far stand.
    pub fn run_steps(
        &mut self,
        alloc: Global,
        number: SessionNo,
        steps: u32,
    ) -> Result<(), AllocError>
        ensures played { OnOk result (Leads (play_steps N.script number steps) played
            (past self.old.journal) (past self.new.journal)) }
        ensures inside { outside_count (past self.new.journal)
            ≡ outside_count (past self.old.journal) }
        ensures ran { HasRun N.script N.from result self.old self.new }
    {
        if number.0 as usize >= self.sessions() {
            self.lawful();
            return Ok(());
        }
        for step in 0..steps {
            match self.step(alloc, number)? {
                Stepped::Did => {}
                Stepped::Done => return Ok(()),
            }
        }
        self.lawful();
        Ok(())
    }

    /// Kills a session, if it is open: no act of it is due from then on, and its locks stay until their time is over.
    /// What want of memory leaves is as after `step`.
    pub fn kill(&mut self, alloc: Global, number: SessionNo) -> Result<(), AllocError>
        ensures obeyed { IsObeyed N.script N.from (Order.Kill number) result self.old self.new }
        ensures closed { is_open number (past self.old.journal) ≡ false → IsOk result }
    {
        if self.deaf {
            return self.core.idle_kill(number);
        }
        if !self.core.is_open(number) {
            return self.core.kill(number);
        }
        self.core.kill(number)?;
        tell(
            alloc,
            self.core.journal(),
            &mut self.listeners,
            &mut self.deaf,
        )
    }

    /// Evicts a row from its region. Its entity must be cached. What want of memory leaves is as after `step`.
    pub fn evict(&mut self, alloc: Global, key: Key) -> Result<(), AllocError>
        requires cached { is_cached N.script key.entity ≡ true }
        ensures { IsObeyed N.script N.from (Order.Evict key) result self.old self.new }
    {
        if self.deaf {
            self.core.lawful();
            return Err(AllocError);
        }
        self.core.evict(alloc, key)?;
        tell(
            alloc,
            self.core.journal(),
            &mut self.listeners,
            &mut self.deaf,
        )
    }

    /// A restart: the sessions that are open are killed, and nothing is cached, locked, stamped or kept any more. What
    /// want of memory leaves is as after `step`.
    pub fn restart(&mut self, alloc: Global) -> Result<(), AllocError>
        ensures { IsObeyed N.script N.from Order.Restart result self.old self.new }
    {
        if self.deaf {
            self.core.lawful();
            return Err(AllocError);
        }
        self.core.restart()?;
        tell(
            alloc,
            self.core.journal(),
            &mut self.listeners,
            &mut self.deaf,
        )
    }

    /// Carries an order of the schedule out.
    fn obey(&mut self, alloc: Global, order: Order) -> Result<(), AllocError>
        requires sound { IsSound N.script order }
        ensures played { OnOk result (Leads (play_order N.script order) played
            (past self.old.journal) (past self.new.journal)) }
        ensures outside { outside_count (past self.new.journal) ≤ outside_count
            (past self.old.journal) + 1 }
        ensures ran { HasRun N.script N.from result self.old self.new }
        ensures named { AreNamed (past self.old.journal) (past self.new.journal) }
    {
        let _ = &self.deaf;
        match order {
            Order::Run { session, steps } => self.run_steps(alloc, session, steps),
            Order::Kill { session } => self.kill(alloc, session),
            Order::Evict { key } => self.evict(alloc, key),
            Order::Restart => self.restart(alloc),
        }
    }

    /// Carries the orders of the schedule out, one after the other.
    fn follow_schedule(&mut self, alloc: Global) -> Result<(), AllocError>
        ensures played { OnOk result (Leads (play_orders N.script N.script.schedule) played
            (past self.old.journal) (past self.new.journal)) }
        ensures outside { outside_count (past self.new.journal) ≤ outside_count
            (past self.old.journal) + length N.script.schedule }
        ensures law { OnErr result (Obeys N.script N.from.tables (past self.new.journal)) }
        ensures going { OnOk result (self.new.refused ≡ self.old.refused) }
        ensures stands { OnErr result (GoesOn (past self.old.journal) (past self.new.journal)) }
        ensures named { AreNamed (past self.old.journal) (past self.new.journal) }
        ensures asked { OnErr result (self.old.refused ≡ false
            → IsAskedOnceMore N.from (past self.new.journal) self.new.engines) }
        ensures refused { OnErr result (self.new.refused ≡ true) }
    {
        for at in 0..self.orders() {
            let order = self.order(at);
            self.obey(alloc, order)?;
        }
        Ok(())
    }

    /// Plays the script: the orders of its schedule, one after the other, and then each session to its end, the first
    /// one first. If memory runs out it stops there, and the steps so far stand. If memory ran out in no call before,
    /// the keeper was asked once more than the journal says at most. What it evicts has an identifier.
    pub fn play(&mut self, alloc: Global) -> Result<(), AllocError>
        ensures played { OnOk result (past self.old.journal ≡ []
            → is_played N.script (past self.new.journal) ≡ true) }
        ensures leads { OnOk result (Leads (play_script N.script) played (past self.old.journal)
            (past self.new.journal)) }
        ensures over { OnOk result (AreOver N.script (past self.new.journal)) }
        ensures outside { outside_count (past self.new.journal) ≤ outside_count
            (past self.old.journal) + length N.script.schedule }
        ensures law { Obeys N.script N.from.tables (past self.new.journal) }
        ensures going { OnOk result (self.new.refused ≡ self.old.refused) }
        ensures stands { OnErr result (GoesOn (past self.old.journal) (past self.new.journal)) }
        ensures named { AreNamed (past self.old.journal) (past self.new.journal) }
        ensures asked { OnErr result (self.old.refused ≡ false
            → IsAskedOnceMore N.from (past self.new.journal) self.new.engines) }
        ensures refused { OnErr result (self.new.refused ≡ true) }
    {
        self.follow_schedule(alloc)?;
        self.finish(alloc)
    }

    /// Takes the factory apart: the keeper, the script, the journal and the listeners that stayed, with what the
    /// factory promises of them.
    pub fn close(self) -> (K, Script, Journal, Vec<L>)
        ensures script { result.1 ≡ N.script }
        ensures journal { result.2 ≡ self.journal }
        ensures legal { IsLegal N.script N.from.tables (past result.2) }
        ensures law { Obeys N.script N.from.tables (past result.2) }
        ensures short { length (past result.2) ≤ most_in N.script.sessions
            + outside_count (past result.2) }
        ensures numbered { IsNumbered (past result.2) }
        ensures rows { K.tables result.0 ≡ told_committed N.from.tables (past result.2) }
        ensures faults { RoseBy N.from.faults (fault_count (past result.2)) (K.faults result.0) }
        ensures count { K.asked result.0 ≡ self.engines.store.asked }
        ensures asked { self.refused ≡ false
            → RoseWithin N.from.asked (ask_count (past result.2)) (K.asked result.0) }
        ensures heard { HaveHeard self.deaf result.2.list N.told
            (tells L.heard L.left result.3.items) }
        ensures deaf { self.refused ≡ false → self.deaf ≡ false }
    {
        let Factory {
            core,
            listeners,
            deaf: _,
        } = self;
        let (keeper, script, journal) = core.close();
        (keeper, script, journal, listeners.close())
    }
}
