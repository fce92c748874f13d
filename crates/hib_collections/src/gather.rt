// The factory of `collect`, which hib_section_calls opens and plays: sessions over engines and over the regions of
// collections, the journal of their steps, and the listeners.
ghost use Rattle.std.specs.Prelude.{◌≡◌, ◌<◌, ◌≤◌, ◌^◌, ℕ, [], ◌∷◌, length, slice_get, Some, is_ok, OnOk, OnErr, IfOk};
ghost use Rattle.std.specs.Prelude.{IfErr, Ok, true, false};
ghost use Rattle.hib_journal.specs.Runs.{told_committed, fault_count};
ghost use Rattle.hib_outside.specs.Causes.{Rose};
ghost use Rattle.hib_store.specs.Stores.{handed_back, is_store_fault};
ghost use Rattle.hib_engines.specs.Counts.{RoseBy, RoseWithin};
ghost use Rattle.hib_engines.specs.Engines.{IsStill};
ghost use Rattle.hib_engines.specs.Origin.{origin_over};
ghost use Rattle.hib_listeners.specs.Told.{tells};
ghost use Rattle.hib_listeners.specs.Heard.{HaveHeard};
ghost use Rattle.hib_collections_law.specs.declared.entries.GatherEntry.{GatherEntry};
ghost use Rattle.hib_collections_law.specs.Gathered.{plain};
ghost use Rattle.hib_collections.specs.Kept.{past};
ghost use Rattle.hib_collections.specs.Run.{AreSet, IsAskedAt, IsAskedOnceMore, IsStepRefused, ask_count, says_fault};
ghost use Rattle.hib_collections.specs.Obeyed.{Obeys};
ghost use Rattle.hib_collections.specs.Gather.{Hears, HasStepped, IsOver, heard_in};
ghost use Rattle.hib_playing.specs.Playing.{GoesOn};
ghost use Rattle.hib_collections.specs.Played.{has_next};

use crate::gathered::Gathered;
use crate::names::Name;
use crate::steps::GatherCore;
use crate::telling::tell;
use hib_base::{Order, Script, SessionNo};
use hib_collections_law::Defs;
use hib_engines::Stepped;
use hib_listeners::{Listeners, nothing_was_told, telling_goes_on};
use hib_outside::{Keeper, Listener};
use hib_store::OpenFault;
use std::alloc::{AllocError, Global};
use std::marker::Model;

/// Why a run with collections wasn't opened, with the listeners that were handed in.
#[derive(Drop)]
pub struct GatherRefused<K, L> {
    /// Why, with the keeper.
    pub fault: OpenFault<K>,
    /// The listeners, untold.
    pub listeners: Vec<L>,
}

/// Sessions over shared engines and over the regions of collections, with the journal of their steps and the listeners.
/// The journal is legal for the name's script and collections from the name's rows. The step that adds an entry of a
/// session's plan tells it to the listeners; it tells a hit as the list that it stands for. If a listener has no memory
/// for an entry, the entry stands, but no call adds one more: it answers want of memory and changes nothing.
pub struct Gather<K: Keeper, N: Name, L: Listener> {
    core: GatherCore<K, N>,
    listeners: Listeners<L>,
    /// Whether a listener had no memory for the newest entry that is told.
    deaf: bool,
}

impl<K: Keeper, N: Name, L: Listener> Model for Gather<K, N, L> {
    ghost use Rattle.std.specs.Prelude.{◌≡◌, ◌||◌};
    ghost use Rattle.hib_listeners.specs.Told.{tells};
    ghost use Rattle.hib_listeners.specs.Heard.{HaveHeard};
    ghost use Rattle.hib_collections.specs.Kept.{past};
    ghost use Rattle.hib_collections.specs.Gather.{GatherState, heard_in};

    ghost Value = { GatherState };

    ghost view = { λ f. record {
      journal = f.core.journal;
      engines = f.core.engines;
      refused = f.core.refused || f.deaf;
      told = tells L.heard L.left f.listeners;
      deaf = f.deaf;
    } };

    ghost invariant = { λ f. HaveHeard f.deaf (heard_in N.script (past f.core.journal)) N.told
        (tells L.heard L.left f.listeners) };
}

impl<K: Keeper, N: Name, L: Listener> Gather<K, N, L> {
    /// Opens the factory of this name, in which no session has begun. The keeper is seeded with the script's mapping
    /// and rows, each of which it takes if its key has none. At an error the keeper is handed back with the rows that
    /// it had, and the listeners untold.
    pub fn open(
        alloc: Global,
        script: Script,
        defs: Defs,
        keeper: K,
        listeners: Vec<L>,
    ) -> Result<Gather<K, N, L>, GatherRefused<K, L>>
        requires script { script ≡ N.script }
        requires defs { defs ≡ N.defs }
        requires set { AreSet N.script N.defs }
        requires from { origin_over N.script (K.tables keeper) (K.faults keeper) (K.asked keeper)
            ≡ N.from }
        requires told { tells L.heard L.left listeners.items ≡ N.told }
        ensures empty { IfOk result (λ f. past f.journal ≡ []) }
        ensures going { IfOk result (λ f. f.refused ≡ false) }
        ensures untold { IfOk result (λ f. f.told ≡ N.told) }
        ensures back { IfErr result (λ e. K.tables (handed_back e.fault) ≡ K.tables keeper) }
        ensures back_faults { IfErr result (λ e. K.faults keeper ≤ K.faults (handed_back e.fault)) }
        ensures back_asked { IfErr result (λ e. K.asked (handed_back e.fault) ≡ K.asked keeper) }
        ensures fault { IfErr result (λ e. is_store_fault e.fault ≡ true
            → Rose (K.faults keeper) (K.faults (handed_back e.fault))) }
        ensures listeners { IfErr result (λ e. e.listeners ≡ listeners) }
    {
        nothing_was_told();
        match GatherCore::open(alloc, script, defs, keeper) {
            Ok(core) => Ok(Gather {
                core,
                listeners: Listeners::open(listeners),
                deaf: false,
            }),
            Err(fault) => Err(GatherRefused { fault, listeners }),
        }
    }

    /// One step of a session: what is due in it, if anything is, and then the listeners hear of its entry. The other
    /// sessions stay as they are. The keeper is asked once at most, and only if an act of the session's plan asks for
    /// rows: a hit asks it nothing. If memory runs out no entry is added and nothing has changed, but the answer of
    /// `refused` and, if what was due calls the keeper, its counts; so a later call may succeed. Only if a listener had
    /// none does the entry stand, and no call adds another. The session must be the script's.
    pub fn step(&mut self, alloc: Global, number: SessionNo) -> Result<Stepped, AllocError>
        requires known { number < length N.script.sessions }
        ensures did { result ≡ Ok Stepped.Did → HasStepped N.script N.defs number
            (past self.old.journal) (past self.new.journal) }
        ensures done { result ≡ Ok Stepped.Done → IsOver N.script N.defs number
            (past self.old.journal) (past self.new.journal) }
        ensures law { Obeys N.script N.defs N.from.tables (past self.new.journal) }
        ensures fault { (x : GatherEntry) → past self.new.journal ≡ x ∷ past self.old.journal
            → says_fault x ≡ true
            → Rose self.old.engines.store.faults self.new.engines.store.faults }
        ensures asks_once { (x : GatherEntry) → past self.new.journal ≡ x ∷ past self.old.journal
            → IsAskedAt N.script x (past self.old.journal) self.old.engines self.new.engines }
        ensures going { OnOk result (self.new.refused ≡ self.old.refused) }
        ensures hears { Hears (plain N.script (past self.old.journal))
            (plain N.script (past self.new.journal)) (is_ok result) self.old.told self.new.told }
        ensures same { OnErr result (self.new.deaf ≡ self.old.deaf
            → past self.new.journal ≡ past self.old.journal) }
        ensures still { OnErr result (self.new.deaf ≡ self.old.deaf
            → IsStill self.old.engines self.new.engines) }
        ensures counts { OnErr result (self.new.deaf ≡ self.old.deaf
            → IsStepRefused N.script N.defs (past self.old.journal) number self.old.engines
            self.new.engines) }
        ensures unheard { OnErr result (self.old.deaf ≡ false → self.new.deaf ≡ true
            → HasStepped N.script N.defs number (past self.old.journal) (past self.new.journal)) }
        ensures deaf { self.old.deaf ≡ true → self.new ≡ self.old }
        ensures stands { OnErr result (GoesOn (past self.old.journal) (past self.new.journal)) }
        ensures asked { OnErr result (self.old.refused ≡ false
            → IsAskedOnceMore N.script N.from (past self.new.journal) self.new.engines) }
        ensures refused { OnErr result (self.new.refused ≡ true) }
    {
        telling_goes_on();
        if self.deaf {
            self.core.lawful();
            return self.core.idle_step(alloc, number);
        }
        let stepped = self.core.step(alloc, number);
        self.core.lawful();
        let turned = stepped?;
        if turned.is_done() {
            return Ok(Stepped::Done);
        }
        tell(
            alloc,
            &turned,
            self.core.journal(),
            &mut self.listeners,
            &mut self.deaf,
        )?;
        Ok(Stepped::Did)
    }

    /// The entries of the steps so far.
    pub fn journal(&self) -> &Gathered
        ensures { result.now ≡ self.now.journal }
    {
        self.core.journal()
    }

    /// The script of this name.
    pub fn script(&self) -> &Script
        ensures { result.now ≡ N.script }
    {
        self.core.script()
    }

    /// The collections of this name.
    pub fn defs(&self) -> &Defs
        ensures { result.now ≡ N.defs }
    {
        self.core.defs()
    }

    /// How many sessions there are. In others nothing is due.
    pub fn sessions(&self) -> usize
        ensures count { result ≡ length N.script.sessions }
        ensures few { result < 2 ^ 32 }
        ensures unknown { (s : ℕ) → length N.script.sessions ≤ s
            → has_next N.script N.defs (past self.now.journal) s ≡ false }
    {
        self.core.sessions()
    }

    /// How many orders the schedule has.
    pub fn orders(&self) -> usize
        ensures count { result ≡ length N.script.schedule }
    {
        self.core.orders()
    }

    /// An order of the schedule.
    pub fn order(&self, at: usize) -> Order
        requires there { at < length N.script.schedule }
        ensures { slice_get N.script.schedule at ≡ Some result }
    {
        self.core.order(at)
    }

    /// Says to proofs that the journal is short. It does nothing.
    pub fn short(&self)
        ensures { length (past self.now.journal) < 2 ^ 62 }
    {
        self.core.short();
    }

    /// Whether memory ran out in a call, a listener's among them.
    pub fn refused(&self) -> bool
        ensures { result ≡ self.now.refused }
    {
        self.core.refused() || self.deaf
    }

    /// Says to proofs that the journal obeys the law of collections. It does nothing.
    pub fn lawful(&self)
        ensures { Obeys N.script N.defs N.from.tables (past self.now.journal) }
    {
        self.core.lawful();
    }

    /// Takes the factory apart: the keeper, the script, the collections, the journal and the listeners that stayed,
    /// with what the run promises of them.
    pub fn close(self) -> (K, Script, Defs, Gathered, Vec<L>)
        ensures script { result.1 ≡ N.script }
        ensures defs { result.2 ≡ N.defs }
        ensures journal { result.3 ≡ self.journal }
        ensures law { Obeys N.script N.defs N.from.tables (past result.3) }
        ensures rows { K.tables result.0
            ≡ told_committed N.from.tables (plain N.script (past result.3)) }
        ensures faults { RoseBy N.from.faults (fault_count (plain N.script (past result.3)))
            (K.faults result.0) }
        ensures count { K.asked result.0 ≡ self.engines.store.asked }
        ensures asked { self.refused ≡ false → RoseWithin N.from.asked
            (ask_count N.script (past result.3)) (K.asked result.0) }
        ensures heard { HaveHeard self.deaf (heard_in N.script (past result.3)) N.told
            (tells L.heard L.left result.4.items) }
        ensures deaf { self.refused ≡ false → self.deaf ≡ false }
    {
        self.lawful();
        let Gather {
            core,
            listeners,
            deaf: _,
        } = self;
        let (keeper, script, defs, journal) = core.close();
        (keeper, script, defs, journal, listeners.close())
    }
}
