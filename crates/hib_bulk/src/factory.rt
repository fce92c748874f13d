// The factory of `bulk`, which hib_section_calls opens and plays: sessions and bulk lines over shared parts, with the
// journal of their steps. A line is here a bulk line, and is numbered after the sessions.
ghost use Rattle.std.specs.Prelude.{◌≡◌, ◌≢◌, ◌≤◌, ◌+◌, ◌<◌, ◌^◌, [], ◌∷◌, ℕ, true, false, length, slice_get, Ok, Some};
ghost use Rattle.std.specs.Prelude.{None, IfOk, IfErr};
ghost use Rattle.hib_outside.specs.Causes.{Rose};
ghost use Rattle.hib_store.specs.Stores.{handed_back, is_store_fault};
ghost use Rattle.hib_engines.specs.Counts.{RoseBy};
ghost use Rattle.hib_engines.specs.Origin.{origin_over};
ghost use Rattle.hib_bulk.specs.Factory.{HasGoneOn};
ghost use Rattle.hib_bulk.specs.Types.{BulkEntry};
ghost use Rattle.hib_bulk_law.specs.Acts.{next};
ghost use Rattle.hib_bulk_law.specs.Legal.{IsLegal};
ghost use Rattle.hib_bulk.specs.Changed.{is_fault};
ghost use Rattle.hib_bulk.specs.Kept.{past};
ghost use Rattle.hib_bulk.specs.Run.{AreSet, Obeys, fault_count};
ghost use Rattle.hib_bulk.specs.Standing.{IsStill, told_committed};
ghost use Rattle.hib_bulk.specs.Steps.{Adds, HasTurned};
ghost use Rattle.hib_bulk.specs.Played.{has_next, number_count};

use crate::journal::Bulked;
use crate::lines::LineProgress;
use crate::names::Name;
use crate::opening::open_lines;
use crate::parts::BulkParts;
use crate::steps::{step_line, step_session};
use hib_base::{Order, Script, SessionNo};
use hib_bulk_law::{BulkDefs, Bulks, loads_are_views, rows_cohere, steps_are_in_order};
use hib_engines::Stepped;
use hib_outside::Keeper;
use hib_session::{Session, open_all};
use hib_store::OpenFault;
use std::alloc::{AllocError, Global};
use std::marker::{Model, PhantomData};

/// Sessions and bulk lines over shared parts, with the journal of their steps, which is legal for the name's script and
/// lines from the name's rows.
pub struct BulkFactory<K: Keeper, N: Name> {
    script: Script,
    bulks: Bulks,
    parts: BulkParts<K>,
    sessions: Vec<Session>,
    progress: Vec<LineProgress>,
    journal: Bulked,
    of: PhantomData<N>,
}

impl<K: Keeper, N: Name> Model for BulkFactory<K, N> {
    ghost use Rattle.std.specs.Prelude.{◌≡◌};
    ghost use Rattle.hib_bulk.specs.Factory.{FactoryState, IsStanding};

    ghost Value = { FactoryState };

    ghost view = { λ f. record {
      journal = f.journal;
      parts = f.parts;
      sessions = f.sessions.items;
      progress = f.progress.items;
    } };

    ghost invariant = { λ f. (f.script ≡ N.script) × (f.bulks.lines ≡ N.lines) × (f.bulks.orders ≡ N.orders)
        × IsStanding N.script N.lines N.from (record {
          journal = f.journal;
          parts = f.parts;
          sessions = f.sessions.items;
          progress = f.progress.items;
        }) };
}

impl<K: Keeper, N: Name> BulkFactory<K, N> {
    /// Opens the factory of this name, in which no session and no line has begun. The keeper is seeded with the
    /// script's mapping and rows, each of which it takes if its key has none. At an error the keeper is handed back
    /// with the rows that it had.
    pub fn open(
        alloc: Global,
        script: Script,
        bulks: Bulks,
        keeper: K,
    ) -> Result<BulkFactory<K, N>, OpenFault<K>>
        requires script { script ≡ N.script }
        requires lines { bulks.lines ≡ N.lines }
        requires orders { bulks.orders ≡ N.orders }
        requires set { AreSet N.script N.lines }
        requires from { origin_over N.script (K.tables keeper) (K.faults keeper) (K.asked keeper)
            ≡ N.from }
        ensures empty { IfOk result (λ f. past f.journal ≡ []) }
        ensures back { IfErr result (λ e. K.tables (handed_back e) ≡ K.tables keeper) }
        ensures back_faults { IfErr result (λ e. K.faults keeper ≤ K.faults (handed_back e)) }
        ensures back_asked { IfErr result (λ e. K.asked (handed_back e) ≡ K.asked keeper) }
        ensures fault { IfErr result (λ e. is_store_fault e ≡ true
            → Rose (K.faults keeper) (K.faults (handed_back e))) }
    {
        let Ok(sessions) = open_all(alloc, &script) else {
            return Err(OpenFault::NoMemory(keeper));
        };
        let Ok(progress) = open_lines(alloc, bulks.lines.as_slice()) else {
            return Err(OpenFault::NoMemory(keeper));
        };
        let parts = BulkParts::open(alloc, &script, keeper)?;
        Ok(BulkFactory {
            script,
            bulks,
            parts,
            sessions,
            progress,
            journal: Bulked::open(alloc),
            of: PhantomData,
        })
    }

    /// One act of a session or a line, if one is due in it.
    fn turn(&mut self, alloc: Global, number: SessionNo) -> Result<Stepped, AllocError>
        requires known { number < length N.script.sessions + length N.lines }
        ensures { HasTurned N.script N.lines N.from number result (past self.old.journal)
            (past self.new.journal) self.old.parts self.new.parts }
    {
        let at = number.0 as usize;
        let sessions = self.sessions.len();
        if at < sessions {
            step_session::<K, N>(
                alloc,
                &self.script,
                number,
                &mut self.sessions,
                &mut self.parts,
                &mut self.journal,
            )
        } else {
            step_line::<K, N>(
                alloc,
                &self.script,
                self.bulks.lines.as_slice(),
                at - sessions,
                &mut self.progress,
                &mut self.parts,
                &mut self.journal,
            )
        }
    }

    /// One step of a session or a line: the act that is due in it, if one is. If memory runs out no entry is added, and
    /// nothing has changed but the keeper's counts; so a later call may succeed. There must be one of this number.
    pub fn step(&mut self, alloc: Global, number: SessionNo) -> Result<Stepped, AllocError>
        requires known { number < length N.script.sessions + length N.lines }
        ensures did { result ≡ Ok Stepped.Did
            → Adds N.script N.lines number (past self.old.journal) (past self.new.journal) }
        ensures done { result ≡ Ok Stepped.Done
            → next N.script N.lines (past self.new.journal) number ≡ None }
        ensures same { result ≢ Ok Stepped.Did → past self.new.journal ≡ past self.old.journal }
        ensures still { result ≢ Ok Stepped.Did → IsStill self.old.parts self.new.parts }
        ensures fault { (e : BulkEntry) → past self.new.journal ≡ e ∷ past self.old.journal
            → is_fault e.reply ≡ true
            → Rose self.old.parts.store.faults self.new.parts.store.faults }
        ensures stands { HasGoneOn self.old self.new }
        ensures law { Obeys N.script N.lines N.from.tables (past self.new.journal) }
    {
        let stepped = self.turn(alloc, number);
        self.lawful();
        stepped
    }

    /// Says to proofs that the journal obeys the law. It does nothing.
    pub fn lawful(&self)
        ensures legal { IsLegal N.script N.lines N.from.tables (past self.now.journal) }
        ensures law { Obeys N.script N.lines N.from.tables (past self.now.journal) }
    {
        rows_cohere();
        loads_are_views();
        steps_are_in_order();
        let _ = &self.script;
    }

    /// The entries of the steps so far.
    pub fn journal(&self) -> &Bulked
        ensures { result.now ≡ self.now.journal }
    {
        &self.journal
    }

    /// The script of this name.
    pub fn script(&self) -> &Script
        ensures { result.now ≡ N.script }
    {
        &self.script
    }

    /// The lines of this name.
    pub fn lines(&self) -> &BulkDefs
        ensures { result.now ≡ N.lines }
    {
        &self.bulks.lines
    }

    /// How many sessions and lines there are. In other numbers nothing is due.
    pub fn numbers(&self) -> usize
        ensures count { result ≡ number_count N.script N.lines }
        ensures few { result < 2 ^ 32 }
        ensures unknown { (s : ℕ) → number_count N.script N.lines ≤ s
            → has_next N.script N.lines (past self.now.journal) s ≡ false }
    {
        self.script.sessions.len() + self.bulks.lines.len()
    }

    /// How many orders there are.
    pub fn orders(&self) -> usize
        ensures count { result ≡ length N.orders }
    {
        self.bulks.orders.len()
    }

    /// An order: which session or line does how many steps.
    pub fn order(&self, at: usize) -> Order
        requires there { at < length N.orders }
        ensures { slice_get N.orders at ≡ Some result }
    {
        *self.bulks.orders.at(at)
    }

    /// Says to proofs that the journal is short. It does nothing.
    pub fn short(&self)
        ensures { length (past self.now.journal) ≤ 2 ^ 62 }
    {
        let _ = self.journal.len();
    }

    /// Takes the factory apart: the keeper, the script, the lines with their orders, and the journal, with what the
    /// factory promises of them.
    pub fn close(self) -> (K, Script, Bulks, Bulked)
        ensures script { result.1 ≡ N.script }
        ensures lines { result.2.lines ≡ N.lines }
        ensures orders { result.2.orders ≡ N.orders }
        ensures journal { result.3 ≡ self.journal }
        ensures legal { IsLegal N.script N.lines N.from.tables (past result.3) }
        ensures law { Obeys N.script N.lines N.from.tables (past result.3) }
        ensures rows { K.tables result.0 ≡ told_committed N.script N.lines N.from.tables
            (past result.3) }
        ensures faults { RoseBy N.from.faults (fault_count (past result.3)) (K.faults result.0) }
    {
        self.lawful();
        let BulkFactory {
            script,
            bulks,
            parts,
            sessions: _,
            progress: _,
            journal,
            of: _,
        } = self;
        let BulkParts {
            store,
            registry: _,
            stamps: _,
            regions: _,
            results: _,
        } = parts;
        (store.close(), script, bulks, journal)
    }
}
