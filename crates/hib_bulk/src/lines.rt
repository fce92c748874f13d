// One turn of a bulk line: its next act is answered by a part, and the entry added. Its acts are at most five: it
// begins, locks the region, changes the rows, gives the region back, and ends. `laws` and the functions of `wide` tell
// proofs what engines and regions with lines do; they do nothing.
ghost use Rattle.std.specs.Prelude.{◌≡◌, ◌≢◌, ◌≤◌, ◌<◌, ◌+◌, ◌^◌, ◌||◌, ℕ, Bool, true, false, slice_get, length};
ghost use Rattle.std.specs.Prelude.{nat_lt, Ok, None, Some, Option, List, IfOk, OnErr};
ghost use Rattle.hib_base.specs.Tables.{Tables};
ghost use Rattle.hib_journal.specs.Next.{is_cached as cached};
ghost use Rattle.hib_journal.specs.Types.{Act as Did, Script as Said};
ghost use Rattle.hib_outside.specs.Causes.{Rose};
ghost use Rattle.hib_store.specs.Stores.{MeetsBelow};
ghost use Rattle.hib_bulk.specs.Types.{BulkAct as Doing, BulkDef as LineSpec, BulkReply as Replied};
ghost use Rattle.hib_bulk_law.specs.Plain.{Bulked as Past};
ghost use Rattle.hib_bulk_law.specs.Rows.{line as line_of};
ghost use Rattle.hib_bulk_law.specs.Acts.{next, acts_of, part_of as part_by};
ghost use Rattle.hib_bulk_law.specs.Legal.{fails};
ghost use Rattle.hib_bulk.specs.Changed.{is_fault};
ghost use Rattle.hib_bulk.specs.Kept.{past};
ghost use Rattle.hib_bulk.specs.Standing.{IsStill, IsAnswered};
ghost use Rattle.hib_bulk.specs.Regions.{region_of, held_by, locked_all, unlocked_all, IsAtRegion};
ghost use Rattle.hib_bulk.specs.Run.{IsRun, IsLine, IsLineTurn, LineMoves, outcome_of};

use crate::journal::Bulked;
use crate::names::Name;
use crate::parts::BulkParts;
use crate::storing::change_rows;
use crate::turns::reserve_tick;
use hib_base::{Act, EntityNo, Outcome, Part, Reply, Script, SessionNo, Strategy, Tick};
use hib_bulk_law::{BulkAct, BulkDef, BulkEntry, BulkReply, regions_are_given_back};
use hib_bulk_region::laws as wide;
use hib_engines::{Stepped, laws};
use hib_outside::Keeper;
use std::alloc::{AllocError, Global};

/// How far a line has come.
#[derive(Clone, Copy, Debug)]
pub struct LineProgress {
    /// How many of its acts are done.
    pub steps: u8,
    /// Whether its change was answered by a fault.
    pub failed: bool,
}

/// Whether an entity has a region.
fn is_cached(script: &Script, entity: EntityNo) -> bool
    ensures { result ≡ cached script.now entity }
{
    match script.mapping.as_slice().get(entity.0 as usize) {
        Some(entity) => entity.strategy != Strategy::Uncached,
        None => false,
    }
}

/// The act that is next in a line which has done `steps` acts; none if it is at its end.
fn act_of_line(script: &Script, line: &BulkDef, number: SessionNo, steps: u8) -> Option<BulkAct>
    ensures act { result ≡ slice_get (acts_of script.now number line.now) steps }
    ensures few { (a : Doing) → result ≡ Some a → steps < 5 }
{
    let entity = line.entity;
    let cached = is_cached(script, entity);
    match (steps, cached) {
        (0, _) => Some(BulkAct::Plain(Act::Begin)),
        (1, true) => Some(BulkAct::LockAll { entity }),
        (1, false) | (2, true) => Some(BulkAct::Bulk { line: number }),
        (3, true) => Some(BulkAct::UnlockAll { entity }),
        (2, false) | (4, true) => Some(BulkAct::Plain(Act::End)),
        _ => None,
    }
}

/// The part that answers an act of a line.
fn part_of(act: &BulkAct) -> Part
    ensures { (d : LineSpec) (script : Said) (s n : ℕ)
        → slice_get (acts_of script s d) n ≡ Some act.now → result ≡ part_by act.now s }
{
    match act {
        BulkAct::LockAll { entity } | BulkAct::UnlockAll { entity } => Part::Region(*entity),
        BulkAct::Bulk { .. } => Part::Store,
        // Its Begin and its End.
        _ => Part::Registry,
    }
}

/// Whether this act is the change, and was answered by a fault.
fn has_failed(act: &BulkAct, reply: &BulkReply) -> bool
    ensures { result ≡ fails act.now reply.now }
{
    match (act, reply) {
        (BulkAct::Bulk { .. }, BulkReply::Plain(_)) => true,
        _ => false,
    }
}

/// The outcome with which a line ends, by whether its change was answered by a fault.
fn outcome(failed: bool) -> Outcome
    ensures { result ≡ outcome_of failed }
{
    if failed {
        Outcome::Fault
    } else {
        Outcome::Committed
    }
}

impl<K: Keeper> BulkParts<K> {
    /// Locks the region of an entity for a line. It takes no memory.
    fn lock_all(&mut self, entity: EntityNo) -> BulkReply
        requires { held_by (region_of self.old.regions entity) < 2 ^ 62 }
        ensures reply { result ≡ Replied.Held (held_by (region_of self.new.regions entity)) }
        ensures here { region_of self.new.regions entity
            ≡ locked_all (region_of self.old.regions entity) }
        ensures others { IsAtRegion entity self.old.regions self.new.regions }
        ensures same { self.new ≡ record self.old { regions = self.new.regions } }
    {
        let at = entity.0 as usize;
        if at < self.regions.len() {
            let holders = self.regions[at].lock_all();
            return BulkReply::Held { holders };
        }
        BulkReply::Held { holders: 0 }
    }

    /// Gives the region of an entity back for a line. A line must hold it. It takes no memory.
    fn unlock_all(&mut self, entity: EntityNo, now: Tick) -> BulkReply
        requires { 1 ≤ held_by (region_of self.old.regions entity) }
        ensures reply { result ≡ Replied.Released (held_by (region_of self.new.regions entity)) }
        ensures here { region_of self.new.regions entity
            ≡ unlocked_all now (region_of self.old.regions entity) }
        ensures others { IsAtRegion entity self.old.regions self.new.regions }
        ensures same { self.new ≡ record self.old { regions = self.new.regions } }
    {
        let at = entity.0 as usize;
        if at < self.regions.len() {
            let holders = self.regions[at].unlock_all(now);
            return BulkReply::Released { holders };
        }
        BulkReply::Released { holders: 0 }
    }

    /// Has the registry answer the Begin of a line.
    fn begin_line(&mut self, number: SessionNo, now: Tick) -> Result<BulkReply, AllocError>
        ensures answered { IfOk result (λ r. (script : Said) (lines : List LineSpec)
            (told : Option Tables) (h : Past) (d : LineSpec) (steps : ℕ) (failed : Bool)
            → now ≡ length h + 1
            → IsLineTurn script lines told h number d steps failed (Doing.Plain Did.Begin) self.old
            → IsAnswered script lines told h number now (Doing.Plain Did.Begin) r self.new) }
        ensures calm { IfOk result (λ r. is_fault r ≡ false) }
        ensures store { self.new.store ≡ self.old.store }
        ensures err { OnErr result (self.new ≡ self.old) }
    {
        laws();
        wide::stays();
        let reply = self.registry.serve(number, &Act::Begin, now)?;
        Ok(BulkReply::Plain(reply))
    }

    /// Ends a line: with a fault if its change was answered by one. It takes no memory.
    fn end_line(&mut self, number: SessionNo, failed: bool, now: Tick) -> BulkReply
        ensures answered { (script : Said) (lines : List LineSpec)
            (told : Option Tables) (h : Past) (d : LineSpec) (steps : ℕ)
            → now ≡ length h + 1
            → IsLineTurn script lines told h number d steps failed (Doing.Plain Did.End) self.old
            → IsAnswered script lines told h number now (Doing.Plain Did.End) result self.new }
        ensures calm { is_fault result ≡ false }
        ensures store { self.new.store ≡ self.old.store }
    {
        laws();
        wide::stays();
        self.registry.end(number);
        BulkReply::Plain(Reply::Ended {
            outcome: outcome(failed),
        })
    }

    /// Answers the Begin or the End of a line.
    fn own_line(
        &mut self,
        number: SessionNo,
        failed: bool,
        act: &Act,
        now: Tick,
    ) -> Result<BulkReply, AllocError>
        ensures answered { IfOk result (λ r. (script : Said) (lines : List LineSpec)
            (told : Option Tables) (h : Past) (d : LineSpec) (steps : ℕ)
            → now ≡ length h + 1
            → IsLineTurn script lines told h number d steps failed (Doing.Plain act.now) self.old
            → IsAnswered script lines told h number now (Doing.Plain act.now) r self.new) }
        ensures calm { IfOk result (λ r. is_fault r ≡ false) }
        ensures store { self.new.store ≡ self.old.store }
        ensures err { OnErr result (self.new ≡ self.old) }
    {
        match act {
            Act::Begin => self.begin_line(number, now),
            Act::End => Ok(self.end_line(number, failed, now)),
            // A line does nothing else.
            _ => Ok(BulkReply::Plain(Reply::Done)),
        }
    }

    /// Has a region answer the lock of a line: it does what `lock_all` does, and says that this is the answer that is due.
    /// The number and the tick are for the contract alone.
    fn lock_line(&mut self, entity: EntityNo, number: SessionNo, now: Tick) -> BulkReply
        requires { held_by (region_of self.old.regions entity) < 2 ^ 62 }
        ensures answered { (script : Said) (lines : List LineSpec)
            (told : Option Tables) (h : Past) (d : LineSpec) (steps : ℕ) (failed : Bool)
            → now ≡ length h + 1
            → IsLineTurn script lines told h number d steps failed (Doing.LockAll entity) self.old
            → IsAnswered script lines told h number now (Doing.LockAll entity) result self.new }
        ensures calm { is_fault result ≡ false }
        ensures store { self.new.store ≡ self.old.store }
    {
        wide::answers();
        wide::grows();
        wide::stays();
        self.lock_all(entity)
    }

    /// Has a region answer a line that gives it back: it does what `unlock_all` does, and says that this is the answer
    /// that is due. The number is for the contract alone.
    fn unlock_line(&mut self, entity: EntityNo, number: SessionNo, now: Tick) -> BulkReply
        requires { 1 ≤ held_by (region_of self.old.regions entity) }
        ensures answered { (script : Said) (lines : List LineSpec)
            (told : Option Tables) (h : Past) (d : LineSpec) (steps : ℕ) (failed : Bool)
            → now ≡ length h + 1
            → IsLineTurn script lines told h number d steps failed (Doing.UnlockAll entity) self.old
            → IsAnswered script lines told h number now (Doing.UnlockAll entity) result self.new }
        ensures calm { is_fault result ≡ false }
        ensures store { self.new.store ≡ self.old.store }
    {
        wide::answers();
        wide::grows();
        wide::stays();
        self.unlock_all(entity, now)
    }

    /// Has the store answer the change of a line. A fault is answered only if the keeper failed in this call. At an
    /// error the parts are as before, but for the keeper's counts.
    fn change_line(
        &mut self,
        alloc: Global,
        line: &BulkDef,
        number: SessionNo,
        now: Tick,
    ) -> Result<BulkReply, AllocError>
        requires below { MeetsBelow self.old.store.entities line.now.entity line.now.condition }
        ensures answered { IfOk result (λ r. (script : Said) (lines : List LineSpec)
            (told : Option Tables) (h : Past) (steps : ℕ) (failed : Bool)
            → now ≡ length h + 1
            → IsLineTurn script lines told h number line.now steps failed (Doing.Bulk number)
            self.old
            → IsAnswered script lines told h number now (Doing.Bulk number) r self.new) }
        ensures fault { IfOk result (λ r. is_fault r ≡ true
            → Rose self.old.store.faults self.new.store.faults) }
        ensures faults { self.old.store.faults ≤ self.new.store.faults }
        ensures entities { self.new.store.entities ≡ self.old.store.entities }
        ensures err { OnErr result (IsStill self.old self.new) }
    {
        wide::stays();
        change_rows(alloc, &mut self.store, line)
    }

    /// Answers the act that is due in a line, at this tick. A fault is answered only if the keeper failed in this call.
    /// At an error the parts are as before, but for the keeper's counts.
    fn answer_line(
        &mut self,
        alloc: Global,
        line: &BulkDef,
        number: SessionNo,
        failed: bool,
        act: &BulkAct,
        now: Tick,
    ) -> Result<BulkReply, AllocError>
        requires below { MeetsBelow self.old.store.entities line.now.entity line.now.condition }
        requires locks { (n : ℕ) → act.now ≡ Doing.LockAll n
            → held_by (region_of self.old.regions n) < 2 ^ 62 }
        requires unlocks { (n : ℕ) → act.now ≡ Doing.UnlockAll n
            → 1 ≤ held_by (region_of self.old.regions n) }
        ensures answered { IfOk result (λ r. (script : Said) (lines : List LineSpec)
            (told : Option Tables) (h : Past) (steps : ℕ) → now ≡ length h + 1
            → IsLineTurn script lines told h number line.now steps failed act.now self.old
            → IsAnswered script lines told h number now act.now r self.new) }
        ensures fault { IfOk result (λ r. is_fault r ≡ true
            → Rose self.old.store.faults self.new.store.faults) }
        ensures faults { self.old.store.faults ≤ self.new.store.faults }
        ensures entities { self.new.store.entities ≡ self.old.store.entities }
        ensures err { OnErr result (IsStill self.old self.new) }
    {
        match act {
            BulkAct::Plain(own) => self.own_line(number, failed, own, now),
            BulkAct::LockAll { entity } => Ok(self.lock_line(*entity, number, now)),
            BulkAct::Bulk { .. } => self.change_line(alloc, line, number, now),
            BulkAct::UnlockAll { entity } => Ok(self.unlock_line(*entity, number, now)),
            // A line sweeps nothing.
            BulkAct::Sweep { .. } => Ok(BulkReply::Swept),
        }
    }
}

/// One act of a line, unless it is at its end. If memory runs out nothing has changed, but for the keeper's counts.
pub fn line_turn<K: Keeper, N: Name>(
    alloc: Global,
    script: &Script,
    line: &BulkDef,
    number: SessionNo,
    progress: &mut LineProgress,
    parts: &mut BulkParts<K>,
    journal: &mut Bulked,
) -> Result<Stepped, AllocError>
    requires script { script.now ≡ N.script }
    requires run { IsRun N.script N.lines N.from (past journal.old) parts.old }
    requires known { nat_lt number (length N.script.sessions) ≡ false }
    requires line { line_of N.script N.lines number ≡ Some line.now }
    requires below { MeetsBelow parts.old.store.entities line.now.entity line.now.condition }
    requires stands { IsLine N.script (past journal.old) number line.now progress.old.steps
        progress.old.failed }
    ensures did { result ≡ Ok Stepped.Did
        → LineMoves N.script N.lines N.from number line.now (past journal.old)
        (past journal.new) parts.old parts.new progress.new.steps progress.new.failed }
    ensures less { result ≡ Ok Stepped.Did → (progress.new.steps ≡ progress.old.steps + 1)
        × (progress.old.steps < 5) }
    ensures done { result ≡ Ok Stepped.Done
        → next N.script N.lines (past journal.old) number ≡ None }
    ensures same { result ≢ Ok Stepped.Did → (past journal.new ≡ past journal.old)
        × (progress.new ≡ progress.old) }
    ensures still { result ≢ Ok Stepped.Did → IsStill parts.old parts.new }
    ensures entities { parts.new.store.entities ≡ parts.old.store.entities }
{
    regions_are_given_back();
    let Some(act) = act_of_line(script, line, number, progress.steps) else {
        return Ok(Stepped::Done);
    };
    let tick = reserve_tick(journal)?;
    let part = part_of(&act);
    let reply = parts.answer_line(alloc, line, number, progress.failed, &act, tick)?;
    progress.steps += 1;
    progress.failed = progress.failed | has_failed(&act, &reply);
    journal.push(BulkEntry {
        tick,
        session: number,
        part,
        act,
        reply,
    });
    Ok(Stepped::Did)
}
