// The region of an entity as a part, with the list of its entries.
ghost use Rattle.std.specs.Prelude.{◌≡◌, ◌<◌, ◌≤◌, ◌^◌, [], length, OnOk, OnErr};
ghost use Rattle.hib_base.specs.declared.entries.Part.{Part};
ghost use Rattle.hib_base.specs.declared.scripts.Strategy.{Strategy};
ghost use Rattle.hib_journal.specs.Kept.{past};
ghost use Rattle.hib_journal.specs.Next.{strategy};
ghost use Rattle.hib_split_law.specs.Apart.{IsPartLegal};
ghost use Rattle.hib_engines.specs.Built.{IsBuilt};
ghost use Rattle.hib_parts.specs.Listed.{AreFenced, AreOf, IsDueOn, IsEntered, IsLater, IsKept, last_of};

use crate::entering::{enter_answer, prepared};
use crate::worker::{Worker, add};
use hib_base::{EntityNo, Key, Script, Tick};
use hib_engines::{Name, Region, fence_entries, laws};
use hib_journal::Journal;
use std::alloc::{AllocError, Global};
use std::marker::{Model, PhantomData};

/// The region of an entity, with the list of its entries, which is legal by itself.
#[derive(Drop)]
pub struct RegionPart<N: Name> {
    entity: EntityNo,
    region: Region,
    last: Tick,
    list: Journal,
    of: PhantomData<N>,
}

impl<N: Name> Model for RegionPart<N> {
    ghost use Rattle.hib_journal.specs.Kept.{past};
    ghost use Rattle.hib_journal.specs.Types.{Part};
    ghost use Rattle.hib_engines.specs.Region.{IsPlaced};
    ghost use Rattle.hib_engines.specs.Built.{IsBuilt};
    ghost use Rattle.hib_parts.specs.Listed.{IsPartList, RegionState};

    ghost Value = { RegionState };

    ghost view = { λ p. record { entity = p.entity; list = past p.list } };

    ghost invariant = { λ p. IsBuilt N.script
        × IsPartList N.script N.from.tables (Part.Region p.entity) (past p.list) p.last
        × IsPlaced N.script p.entity (past p.list) p.region };
}

impl<N: Name> RegionPart<N> {
    /// The region of an entity of the script, which holds nothing. The entity must be there. It takes no memory.
    pub fn open(alloc: Global, script: &Script, entity: EntityNo) -> RegionPart<N>
        requires script { script.now ≡ N.script }
        requires built { IsBuilt N.script }
        requires there { entity < length script.now.mapping }
        ensures entity { result.entity ≡ entity }
        ensures list { result.list ≡ [] }
    {
        laws();
        let kept = script.mapping.at(entity.0 as usize);
        RegionPart {
            entity,
            region: Region::open(alloc, kept.strategy, kept.capacity, script.timeout),
            last: Tick(0),
            list: Journal::open(alloc),
            of: PhantomData,
        }
    }

    /// Whose region it is.
    pub fn entity(&self) -> EntityNo
        ensures { result ≡ self.now.entity }
    {
        self.entity
    }

    /// The tick of its last entry, or 0.
    pub fn last(&self) -> Tick
        ensures last { result ≡ last_of self.now.list }
        ensures bounded { result ≤ 2 ^ 62 }
    {
        self.last
    }

    /// Its entries.
    pub fn list(&self) -> &Journal
        ensures list { past result.now ≡ self.now.list }
        ensures legal { IsPartLegal N.script N.from.tables (past result.now) }
    {
        &self.list
    }

    /// One act of a session. The act must be due in it, and on this region. It is answered at this tick, which must be
    /// after the last ticks of both. Its entry goes to both lists. If memory runs out both lists are as before.
    pub fn serve(
        &mut self,
        alloc: Global,
        worker: &mut Worker<N>,
        script: &Script,
        now: Tick,
    ) -> Result<(), AllocError>
        requires script { script.now ≡ N.script }
        requires due { IsDueOn N.script (Part.Region self.old.entity) worker.old }
        requires later { IsLater now self.old.list worker.old.list }
        ensures entity { self.new.entity ≡ self.old.entity }
        ensures number { worker.new.number ≡ worker.old.number }
        ensures entered { OnOk result (IsEntered now self.old.list self.new.list worker.old
            worker.new) }
        ensures kept { OnErr result (IsKept worker.old worker.new) }
        ensures same { OnErr result (self.new ≡ self.old) }
    {
        let acts = prepared(alloc, script, worker, &mut self.list)?;
        let reply = self.region.serve(alloc, &acts.act, now)?;
        enter_answer(alloc, script, worker, &mut self.list, acts, reply, now)?;
        self.last = now;
        Ok(())
    }

    /// A fence of a key of this region: its lock is taken at this tick, which must be after the last one, for no
    /// session, and given back at the next one. Both entries are added, or if memory runs out none is, and nothing has
    /// changed. It is there for whoever runs parts at nodes; `nodes` itself stands on the engines.
    pub fn fence(&mut self, key: Key, floor: Tick, now: Tick) -> Result<(), AllocError>
        requires entity { key.entity ≡ self.old.entity }
        requires strategy { strategy N.script key.entity ≡ Strategy.ReadWrite }
        requires later { last_of self.old.list < now }
        requires bounded { now < 2 ^ 62 }
        ensures entity { self.new.entity ≡ self.old.entity }
        ensures fenced { OnOk result (AreFenced now key floor self.old.list self.new.list) }
        ensures same { OnErr result (self.new ≡ self.old) }
    {
        self.list.reserve_two()?;
        let (locked, unlocked) = self.region.fence(key, floor, now)?;
        let (lock, unlock) = fence_entries(&key, floor, now, &locked, &unlocked);
        self.last = unlock.tick;
        add(&mut self.list, lock);
        add(&mut self.list, unlock);
        Ok(())
    }

    /// Its entries, which are legal by themselves.
    pub fn close(self) -> Journal
        ensures list { past result ≡ self.list }
        ensures legal { IsPartLegal N.script N.from.tables (past result) }
        ensures part { AreOf (Part.Region self.entity) (past result) }
    {
        let RegionPart {
            entity: _,
            region: _,
            last: _,
            list,
            of: _,
        } = self;
        list
    }
}
