// The steps of `collect`, each of which adds one entry to its journal, whoever hears of it: a `Gather` without its
// listeners.
ghost use Rattle.std.specs.Prelude.{◌≡◌, ◌≢◌, ◌≤◌, ◌<◌, ◌^◌, ℕ, [], length, slice_get, Some, OnOk, OnErr, IfOk, IfErr};
ghost use Rattle.std.specs.Prelude.{Ok, false, true};
ghost use Rattle.hib_journal.specs.Runs.{told_committed, fault_count};
ghost use Rattle.hib_outside.specs.Causes.{Rose};
ghost use Rattle.hib_store.specs.Stores.{handed_back, is_store_fault};
ghost use Rattle.hib_engines.specs.Counts.{RoseBy, RoseWithin};
ghost use Rattle.hib_engines.specs.Engines.{IsStill};
ghost use Rattle.hib_engines.specs.Origin.{origin_over};
ghost use Rattle.hib_collections_law.specs.Gathered.{plain};
ghost use Rattle.hib_collections.specs.Kept.{past};
ghost use Rattle.hib_collections.specs.Run.{AreSet, Does, IsAsked, IsAskedOnceMore, IsStepRefused, ask_count};
ghost use Rattle.hib_collections.specs.Obeyed.{Obeys};
ghost use Rattle.hib_collections.specs.Played.{has_next};

use crate::gathered::Gathered;
use crate::members::{Gatherer, open_all};
use crate::names::Name;
use crate::shared::{GatherShared, open_regions};
use crate::turns::{Turned, has_turn, turn};
use hib_base::{Order, Script, SessionNo};
use hib_collections_law::{Defs, collections_cohere, sessions_end};
use hib_engines::{Engines, Stepped};
use hib_outside::Keeper;
use hib_store::OpenFault;
use std::alloc::{AllocError, Global};
use std::marker::{Model, PhantomData};

/// Sessions over engines and over the regions of collections, with the journal of their steps, which tells nobody of
/// them. The journal is legal for the name's script and collections, from the name's rows.
pub struct GatherCore<K: Keeper, N: Name> {
    script: Script,
    defs: Defs,
    gatherers: Vec<Gatherer>,
    shared: GatherShared<K>,
    /// Whether memory ran out in a call.
    refused: bool,
    of: PhantomData<N>,
}

impl<K: Keeper, N: Name> Model for GatherCore<K, N> {
    ghost use Rattle.std.specs.Prelude.{◌≡◌, false};
    ghost use Rattle.hib_collections.specs.Kept.{past};
    ghost use Rattle.hib_collections.specs.Gatherers.{AreGatherers};
    ghost use Rattle.hib_collections.specs.Run.{GatherCoreState, IsAsked, IsRun};

    ghost Value = { GatherCoreState };

    ghost view = { λ c. record {
      journal = c.shared.journal;
      engines = c.shared.engines;
      refused = c.refused;
    } };

    ghost invariant = { λ c. (c.script ≡ N.script)
        × (c.defs ≡ N.defs)
        × IsRun N.script N.defs N.from (past c.shared.journal) c.shared.engines c.shared.regions.items
        × AreGatherers N.script (past c.shared.journal) c.gatherers.items
        × (c.refused ≡ false → IsAsked N.script N.from (past c.shared.journal) c.shared.engines) };
}

impl<K: Keeper, N: Name> GatherCore<K, N> {
    /// Opens the core of this name, in which no session has begun. The rows that the keeper keeps are widened to the
    /// script's mapping, and each of the script's rows whose key has none is added. At an error the keeper is handed
    /// back, with the rows that it had.
    pub fn open(
        alloc: Global,
        script: Script,
        defs: Defs,
        keeper: K,
    ) -> Result<GatherCore<K, N>, OpenFault<K>>
        requires script { script ≡ N.script }
        requires defs { defs ≡ N.defs }
        requires set { AreSet N.script N.defs }
        requires from { origin_over N.script (K.tables keeper) (K.faults keeper) (K.asked keeper)
            ≡ N.from }
        ensures empty { IfOk result (λ c. past c.journal ≡ []) }
        ensures going { IfOk result (λ c. c.refused ≡ false) }
        ensures back { IfErr result (λ e. K.tables (handed_back e) ≡ K.tables keeper) }
        ensures back_faults { IfErr result (λ e. K.faults keeper ≤ K.faults (handed_back e)) }
        ensures back_asked { IfErr result (λ e. K.asked (handed_back e) ≡ K.asked keeper) }
        ensures fault { IfErr result (λ e. is_store_fault e ≡ true
            → Rose (K.faults keeper) (K.faults (handed_back e))) }
    {
        let Ok(regions) = open_regions(alloc, &script, &defs) else {
            return Err(OpenFault::NoMemory(keeper));
        };
        let Ok(gatherers) = open_all(alloc, &script) else {
            return Err(OpenFault::NoMemory(keeper));
        };
        let engines = Engines::open(alloc, &script, keeper)?;
        Ok(GatherCore {
            script,
            defs,
            gatherers,
            shared: GatherShared {
                engines,
                regions,
                journal: Gathered::open(alloc),
            },
            refused: false,
            of: PhantomData,
        })
    }

    /// One step of a session: what is due in it, if anything is. The keeper is asked once at most, and only if an act
    /// of the session's plan asks for rows: a hit asks it nothing. If memory runs out no entry is added and nothing has
    /// changed, but the answer of `refused` and, if what was due calls the keeper, its counts; so a later call may
    /// succeed. The session must be the script's.
    pub fn step(&mut self, alloc: Global, number: SessionNo) -> Result<Turned, AllocError>
        requires known { number < length N.script.sessions }
        ensures does { IfOk result (Does N.script N.defs number (past self.old.journal)
            (past self.new.journal) self.old.engines self.new.engines) }
        ensures going { OnOk result (self.new.refused ≡ self.old.refused) }
        ensures within { OnOk result (self.old.refused ≡ false
            → IsAsked N.script N.from (past self.new.journal) self.new.engines) }
        ensures same { OnErr result (past self.new.journal ≡ past self.old.journal) }
        ensures still { OnErr result (IsStill self.old.engines self.new.engines) }
        ensures counts { OnErr result (IsStepRefused N.script N.defs (past self.old.journal) number
            self.old.engines self.new.engines) }
        ensures asked { OnErr result (self.old.refused ≡ false
            → IsAskedOnceMore N.script N.from (past self.new.journal) self.new.engines) }
        ensures refused { OnErr result (self.new.refused ≡ true) }
    {
        match turn::<K, N>(
            alloc,
            &self.script,
            &self.defs,
            number,
            &mut self.gatherers,
            &mut self.shared,
        ) {
            Ok(turned) => Ok(turned),
            Err(error) => {
                self.refused = true;
                Err(error)
            }
        }
    }

    /// The step of a run that is deaf, which adds no entry: if anything is due, it answers want of memory.
    pub fn idle_step(&self, alloc: Global, number: SessionNo) -> Result<Stepped, AllocError>
        requires known { number < length N.script.sessions }
        ensures none { result ≢ Ok Stepped.Did }
        ensures done { result ≡ Ok Stepped.Done
            → has_next N.script N.defs (past self.now.journal) number ≡ false }
    {
        if has_turn::<N>(
            alloc,
            &self.script,
            number,
            self.gatherers.as_slice(),
            &self.shared.journal,
        )? {
            Err(AllocError)
        } else {
            Ok(Stepped::Done)
        }
    }

    /// The entries of the steps so far.
    pub fn journal(&self) -> &Gathered
        ensures { result.now ≡ self.now.journal }
    {
        &self.shared.journal
    }

    /// The script of this name.
    pub fn script(&self) -> &Script
        ensures { result.now ≡ N.script }
    {
        &self.script
    }

    /// The collections of this name.
    pub fn defs(&self) -> &Defs
        ensures { result.now ≡ N.defs }
    {
        &self.defs
    }

    /// How many sessions there are. In others nothing is due.
    pub fn sessions(&self) -> usize
        ensures count { result ≡ length N.script.sessions }
        ensures few { result < 2 ^ 32 }
        ensures unknown { (s : ℕ) → length N.script.sessions ≤ s
            → has_next N.script N.defs (past self.now.journal) s ≡ false }
    {
        sessions_end();
        self.script.sessions.len()
    }

    /// How many orders the schedule has.
    pub fn orders(&self) -> usize
        ensures count { result ≡ length N.script.schedule }
    {
        self.script.schedule.len()
    }

    /// An order of the schedule.
    pub fn order(&self, at: usize) -> Order
        requires there { at < length N.script.schedule }
        ensures { slice_get N.script.schedule at ≡ Some result }
    {
        *self.script.schedule.at(at)
    }

    /// Says to proofs that the journal is short. It does nothing.
    pub fn short(&self)
        ensures { length (past self.now.journal) < 2 ^ 62 }
    {
        let _ = &self.shared;
    }

    /// Whether memory ran out in a call.
    pub fn refused(&self) -> bool
        ensures { result ≡ self.now.refused }
    {
        self.refused
    }

    /// Says to proofs that the journal obeys the law of collections. It does nothing.
    pub fn lawful(&self)
        ensures { Obeys N.script N.defs N.from.tables (past self.now.journal) }
    {
        collections_cohere();
        let _ = &self.shared;
    }

    /// Takes the core apart: the keeper, the script, the collections and the journal.
    pub fn close(self) -> (K, Script, Defs, Gathered)
        ensures script { result.1 ≡ N.script }
        ensures defs { result.2 ≡ N.defs }
        ensures journal { result.3 ≡ self.journal }
        ensures rows { K.tables result.0
            ≡ told_committed N.from.tables (plain N.script (past result.3)) }
        ensures faults { RoseBy N.from.faults (fault_count (plain N.script (past result.3)))
            (K.faults result.0) }
        ensures count { K.asked result.0 ≡ self.engines.store.asked }
        ensures asked { self.refused ≡ false → RoseWithin N.from.asked
            (ask_count N.script (past result.3)) (K.asked result.0) }
    {
        let GatherCore {
            script,
            defs,
            gatherers: _,
            shared,
            refused: _,
            of: _,
        } = self;
        let GatherShared {
            engines,
            regions: _,
            journal,
        } = shared;
        (engines.close(), script, defs, journal)
    }
}
