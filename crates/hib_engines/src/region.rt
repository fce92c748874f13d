// The engine of a region of an entity, by its strategy: it has the region of that strategy answer, and makes a reply of
// it.
ghost use Rattle.std.specs.Prelude.{◌≡◌, ◌≤◌, ◌<◌, ◌^◌, ◌∷◌, ℕ, Option, Some, None, true, false, IsOk, IfOk, OnOk, OnErr};
ghost use Rattle.hib_base.specs.declared.entries.Act.{Act};
ghost use Rattle.hib_base.specs.declared.replies.Reply.{Reply};
ghost use Rattle.hib_base.specs.declared.scripts.Script.{Script as Said};
ghost use Rattle.hib_journal.specs.Types.{Part, Strategy};
ghost use Rattle.hib_journal.specs.Sessions.{Journal};
ghost use Rattle.hib_journal.specs.Next.{strategy};
ghost use Rattle.hib_journal.specs.Lists.{entry_at, IsLate};
ghost use Rattle.hib_journal.specs.Runs.{is_fault};
ghost use Rattle.hib_engines.specs.Fenced.{IsFenced};
ghost use Rattle.hib_engines.specs.Region.{answer_in, region_after, emptied, entity_in, has_slot, IsPlaced, Suits};
ghost use Rattle.hib_engines.specs.Served.{IsServed, reads};

use crate::joined::laws;
use hib_base::{
    Act, Evicted, Got, Inserted, Key, Locked, Miss, Put, Reply, Row, Strategy, Tick, Unlocked,
    Updated,
};
use hib_other_regions::{NonstrictRegion, ReadOnlyRegion};
use hib_rw_region::RwRegion;
use std::alloc::{AllocError, Global};

/// The region of an entity.
#[derive(Drop)]
pub enum Region {
    /// The entity isn't cached.
    Uncached,
    /// Its rows never change.
    ReadOnly(ReadOnlyRegion),
    /// Its rows may be stale.
    Nonstrict(NonstrictRegion),
    /// Its rows are guarded by soft locks.
    ReadWrite(RwRegion),
}

/// A row that was found, as a reply.
fn hit(alloc: Global, row: &Row) -> Result<Reply, AllocError>
    ensures { IfOk result (λ r. r ≡ Reply.Hit row.now) }
{
    let row = row.copy(alloc)?;
    Ok(Reply::Hit(row))
}

impl Region {
    ghost use Rattle.hib_engines.specs.declared.region.Region.{Region};

    /// Answers a reader: the row at an identifier, or why there is none.
    fn get(&self, alloc: Global, id: u64, time: Tick) -> Result<Reply, AllocError>
        ensures { IfOk result (λ r. r ≡ Rattle.hib_engines.specs.Region.got self.now id time) }
    {
        match self {
            Region::Uncached => Ok(Reply::Miss(Miss::Absent)),
            Region::ReadOnly(items) => match items.get(id, time) {
                Got::Hit(row) => hit(alloc, row),
                Got::Miss(miss) => Ok(Reply::Miss(miss)),
            },
            Region::Nonstrict(items) => match items.get(id, time) {
                Got::Hit(row) => hit(alloc, row),
                Got::Miss(miss) => Ok(Reply::Miss(miss)),
            },
            Region::ReadWrite(slots) => match slots.get(id, time) {
                Got::Hit(row) => hit(alloc, row),
                Got::Miss(miss) => Ok(Reply::Miss(miss)),
            },
        }
    }

    /// Offers a row that was loaded as the item.
    fn put(
        &mut self,
        id: u64,
        row: Row,
        time: Tick,
        floor: Tick,
        now: Tick,
    ) -> Result<Put, AllocError>
        ensures answer { IfOk result (λ p. p
            ≡ Rattle.hib_engines.specs.Region.put self.old id row time floor) }
        ensures state { OnOk result (self.new
            ≡ Rattle.hib_engines.specs.Region.after_put self.old id row time floor now) }
        ensures err { OnErr result (self.new ≡ self.old) }
    {
        match self {
            Region::Uncached => Ok(Put::Crowded),
            Region::ReadOnly(items) => items.put(id, row, now),
            Region::Nonstrict(items) => items.put(id, row, now),
            Region::ReadWrite(slots) => slots.put(id, row, time, floor, now),
        }
    }

    /// Locks a key, in a read-write region.
    fn lock(
        &mut self,
        id: u64,
        version: Option<u32>,
        floor: Tick,
        now: Tick,
    ) -> Result<Locked, AllocError>
        requires { now ≤ 2 ^ 62 }
        ensures answer { IfOk result (λ l. l
            ≡ Rattle.hib_engines.specs.Region.lock self.old id floor now) }
        ensures state { OnOk result (self.new
            ≡ Rattle.hib_engines.specs.Region.after_lock self.old id version floor now) }
        ensures err { OnErr result (self.new ≡ self.old) }
    {
        match self {
            Region::ReadWrite(slots) => slots.lock(id, version, floor, now),
            _ => Ok(Locked {
                id: Tick(0),
                until: Tick(0),
                evicted: None,
            }),
        }
    }

    /// Gives a lock back, or answers `Expired` if the key has no such lock. It takes no memory if the key has a slot.
    fn unlock(&mut self, id: u64, lock: Tick, now: Tick) -> Result<Unlocked, AllocError>
        requires { now ≤ 2 ^ 62 }
        ensures answer { IfOk result (λ u. u
            ≡ Rattle.hib_engines.specs.Region.unlock self.old id lock) }
        ensures state { OnOk result (self.new
            ≡ Rattle.hib_engines.specs.Region.after_unlock self.old id lock now) }
        ensures err { OnErr result (self.new ≡ self.old) }
        ensures there { has_slot self.old id ≡ true → IsOk result }
    {
        match self {
            Region::ReadWrite(slots) => slots.unlock(id, lock, now),
            _ => Ok(Unlocked::Expired),
        }
    }

    /// Offers a row whose insert was committed as the item.
    fn after_insert(
        &mut self,
        id: u64,
        row: Row,
        floor: Tick,
        now: Tick,
    ) -> Result<Inserted, AllocError>
        ensures answer { IfOk result (λ i. i
            ≡ Rattle.hib_engines.specs.Region.insert self.old id floor) }
        ensures state { OnOk result (self.new
            ≡ Rattle.hib_engines.specs.Region.after_insert self.old id row floor now) }
        ensures err { OnErr result (self.new ≡ self.old) }
    {
        match self {
            Region::ReadOnly(items) => items.after_insert(id, row, now),
            Region::ReadWrite(slots) => slots.after_insert(id, row, floor, now),
            _ => Ok(Inserted::Crowded),
        }
    }

    /// Makes a row whose update was committed the item, in the place of its lock.
    fn after_update(
        &mut self,
        id: u64,
        lock: Tick,
        row: Row,
        now: Tick,
    ) -> Result<Updated, AllocError>
        requires { now ≤ 2 ^ 62 }
        ensures answer { IfOk result (λ u. u
            ≡ Rattle.hib_engines.specs.Region.update self.old id lock) }
        ensures state { OnOk result (self.new
            ≡ Rattle.hib_engines.specs.Region.after_update self.old id lock row now) }
        ensures err { OnErr result (self.new ≡ self.old) }
    {
        match self {
            Region::ReadWrite(slots) => slots.after_update(id, lock, row, now),
            _ => Ok(Updated::Expired),
        }
    }

    /// Removes an item before its row is changed.
    fn remove(&mut self, id: u64) -> Reply
        ensures answer { result ≡ Rattle.hib_engines.specs.Region.remove self.old id }
        ensures state { self.new ≡ Rattle.hib_engines.specs.Region.after_remove self.old id }
    {
        let dropped = match self {
            Region::ReadOnly(items) => items.remove(id),
            Region::Nonstrict(items) => items.remove(id),
            _ => false,
        };
        if dropped {
            Reply::Dropped
        } else {
            Reply::Absent
        }
    }

    /// Evicts an item as was asked from outside.
    fn evict(&mut self, id: u64, now: Tick) -> Evicted
        ensures answer { result ≡ Rattle.hib_engines.specs.Region.evict self.old id }
        ensures state { self.new ≡ Rattle.hib_engines.specs.Region.after_evict self.old id now }
    {
        match self {
            Region::Uncached => Evicted::Absent,
            Region::ReadOnly(items) => items.evict(id),
            Region::Nonstrict(items) => items.evict(id),
            Region::ReadWrite(slots) => slots.evict(id, now),
        }
    }

    /// The empty region of a strategy.
    pub fn open(alloc: Global, strategy: Strategy, capacity: u32, timeout: u32) -> Region
        ensures { result ≡ Rattle.hib_engines.specs.Region.empty strategy capacity timeout }
    {
        match strategy {
            Strategy::Uncached => Region::Uncached,
            Strategy::ReadOnly => Region::ReadOnly(ReadOnlyRegion::open(alloc, capacity)),
            Strategy::Nonstrict => Region::Nonstrict(NonstrictRegion::open(alloc, capacity)),
            Strategy::ReadWrite => Region::ReadWrite(RwRegion::open(alloc, capacity, timeout)),
        }
    }

    /// A restart: it drops all that it holds. It takes no memory.
    pub fn restart(&mut self)
        ensures gone { self.new ≡ emptied self.old }
        ensures stands { (script : Said) (l : Journal) (n now : ℕ) → IsPlaced script n l self.old
            → IsPlaced script n (entry_at now None Act.Restart Reply.Done ∷ l) self.new }
    {
        laws();
        self.clear();
    }

    /// Drops all that it holds.
    fn clear(&mut self)
        ensures { self.new ≡ emptied self.old }
    {
        match self {
            Region::Uncached => {}
            Region::ReadOnly(items) => items.clear(),
            Region::Nonstrict(items) => items.clear(),
            Region::ReadWrite(slots) => slots.clear(),
        }
    }

    /// Has the region do an act, at this tick. An act that isn't a region's is answered Done, and changes nothing. At
    /// an error nothing has changed.
    fn act_on(&mut self, alloc: Global, act: &Act, now: Tick) -> Result<Reply, AllocError>
        requires { now ≤ 2 ^ 62 }
        ensures answer { IfOk result (λ r. r ≡ answer_in self.old now act.now) }
        ensures state { OnOk result (self.new ≡ region_after self.old now act.now) }
        ensures err { OnErr result (self.new ≡ self.old) }
    {
        match act {
            Act::Get { key, time } => self.get(alloc, key.id, *time),
            Act::Put {
                key,
                row,
                time,
                floor,
            } => {
                let row = row.copy(alloc)?;
                let put = self.put(key.id, row, *time, *floor, now)?;
                Ok(Reply::Put(put))
            }
            Act::Lock {
                key,
                version,
                floor,
            } => {
                let locked = self.lock(key.id, *version, *floor, now)?;
                Ok(Reply::Locked(locked))
            }
            Act::Unlock { key, lock } => {
                let unlocked = self.unlock(key.id, *lock, now)?;
                Ok(Reply::Unlocked(unlocked))
            }
            Act::AfterInsert { key, row, floor } => {
                let row = row.copy(alloc)?;
                let inserted = self.after_insert(key.id, row, *floor, now)?;
                Ok(Reply::Inserted(inserted))
            }
            Act::AfterUpdate { key, lock, row } => {
                let row = row.copy(alloc)?;
                let updated = self.after_update(key.id, *lock, row, now)?;
                Ok(Reply::Updated(updated))
            }
            Act::RegionRemove { key } => Ok(self.remove(key.id)),
            Act::Evict { key } => Ok(Reply::Evicted(self.evict(key.id, now))),
            _ => Ok(Reply::Done),
        }
    }

    /// Answers an act that is asked of the region, at this tick. At an error nothing has changed.
    pub fn serve(&mut self, alloc: Global, act: &Act, now: Tick) -> Result<Reply, AllocError>
        requires { now ≤ 2 ^ 62 }
        ensures answered { IfOk result (λ r. (script : Said) (l : Journal) (n : ℕ) (by : Option ℕ)
            → IsPlaced script n l self.old → IsLate (Part.Region n) now l
            → entity_in act.now ≡ Some n → Suits (strategy script n) act.now
            → IsServed (λ m. IsPlaced script n m self.new) script l by now act.now r) }
        ensures calm { IfOk result (λ r. is_fault r ≡ false) }
        // A get changes nothing.
        ensures still { OnOk result (reads act.now ≡ true → self.new ≡ self.old) }
        ensures err { OnErr result (self.new ≡ self.old) }
    {
        laws();
        self.act_on(alloc, act, now)
    }

    /// A fence of a key: its lock is taken at this tick for no session, and given back at the next one. It takes its
    /// memory with the lock, so that both are done or neither. At an error nothing has changed.
    pub fn fence(
        &mut self,
        key: Key,
        floor: Tick,
        now: Tick,
    ) -> Result<(Locked, Unlocked), AllocError>
        requires { now < 2 ^ 62 }
        ensures fenced { IfOk result (λ f. (script : Said) (l : Journal)
            → IsPlaced script key.entity l self.old → IsLate (Part.Region key.entity) now l
            → strategy script key.entity ≡ Strategy.ReadWrite
            → IsFenced (λ m. IsPlaced script key.entity m self.new) script l now key floor f.0 f.1) }
        ensures err { OnErr result (self.new ≡ self.old) }
    {
        laws();
        let locked = self.lock(key.id, None, floor, now)?;
        match self.unlock(key.id, locked.id, Tick(now.0 + 1)) {
            Ok(unlocked) => Ok((locked, unlocked)),
            // The key has its lock.
            Err(_) => unreachable!(),
        }
    }
}
