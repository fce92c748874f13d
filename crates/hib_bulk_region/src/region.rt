// The read-write region with its wide lock, which bulk lines hold on the region as a whole.
ghost use Rattle.std.specs.Prelude.{◌≡◌, ◌+◌, ◌-◌, ◌≤◌, ◌<◌, ◌^◌, true, false, cond, IsOk, IfOk, OnOk, OnErr};
ghost use Rattle.hib_journal.specs.Regions as Regions;
ghost use Rattle.hib_journal.specs.Room.{has_entry};
ghost use Rattle.hib_rw_region.specs.Region.{slot_in, room_in};
ghost use Rattle.hib_bulk_law.specs.Legal.{given_back as given};
ghost use Rattle.hib_bulk_region.specs.Region.{shuts, has_old};
ghost use Rattle.hib_bulk_region.specs.Answers.{got_reply};
ghost use Rattle.hib_bulk_region.specs.Steps.{unheld, locked_all, unlocked_all, swept, got, put, after_put, inserted, after_insert as with_insert, updated, after_update as with_update, after_lock, after_unlock};

use crate::answers::{BulkGot, BulkInserted, BulkPut};
use hib_base::{Locked, Row, Tick, Unlocked, Updated};
use hib_rw_region::RwRegion;
use std::alloc::{AllocError, Global};
use std::marker::Model;

/// The region of a read-write entity whose rows bulk lines change. While lines hold it, it neither gives nor takes
/// rows. What dates from before it was last given back is shut out of it. Contracts see how many lines hold it, when it
/// was last given back, and the read-write region inside. Each `now` should be greater than every tick that the region
/// was given before, yet no call requires it.
#[derive(Drop)]
pub struct BulkRegion {
    inner: RwRegion,
    holders: u64,
    unlock: Tick,
}

impl Model for BulkRegion {
    ghost use Rattle.hib_bulk_region.specs.Region.{BulkState};

    ghost Value = { BulkState };

    ghost view = { λ r. record {
      holders = r.holders;
      unlock = r.unlock;
      inner = r.inner;
    } };
}

/// What a holder is answered who gives a lock back that is shut out: the row isn't stored.
fn given_back(unlocked: Unlocked) -> Updated
    ensures { result ≡ given unlocked }
{
    match unlocked {
        Unlocked::Released { holders } => Updated::Shared { holders },
        Unlocked::Expired => Updated::Expired,
    }
}

impl BulkRegion {
    /// An empty region that nobody holds, for `capacity` keys, from 1 to 100000, whose soft locks are good for
    /// `timeout` ticks. It takes no memory.
    pub fn open(alloc: Global, capacity: u32, timeout: u32) -> BulkRegion
        ensures { result ≡ unheld capacity timeout }
    {
        BulkRegion {
            inner: RwRegion::open(alloc, capacity, timeout),
            holders: 0,
            unlock: Tick(0),
        }
    }

    /// Locks the region for a line. Answers how many hold it now.
    pub fn lock_all(&mut self) -> u64
        requires { self.old.holders < 2 ^ 62 }
        ensures answer { result ≡ self.old.holders + 1 }
        ensures state { self.new ≡ locked_all self.old }
    {
        self.holders += 1;
        self.holders
    }

    /// Gives the region back for a line. Answers how many hold it still. A line must hold it.
    pub fn unlock_all(&mut self, now: Tick) -> u64
        requires { 1 ≤ self.old.holders }
        ensures answer { result ≡ self.old.holders - 1 }
        ensures state { self.new ≡ unlocked_all now self.old }
    {
        self.holders -= 1;
        self.unlock = now;
        self.holders
    }

    /// Whether what dates from this tick is shut out: lines hold the region, or it was given back at that tick or
    /// later.
    fn is_shut(&self, tick: Tick) -> bool
        ensures { result ≡ shuts self.now tick }
    {
        self.holders > 0 || tick <= self.unlock
    }

    /// Whether the item of a key is old: it was stored when it is shut out now.
    pub fn old(&self, id: u64) -> bool
        ensures { result ≡ has_old self.now id }
    {
        match self.inner.stamp(id) {
            Some(stamp) => self.is_shut(stamp),
            None => false,
        }
    }

    /// Evicts an old item. There must be one. It takes no memory.
    pub fn sweep(&mut self, id: u64, now: Tick)
        requires { has_old self.old id ≡ true }
        ensures { self.new ≡ swept id now self.old }
    {
        self.inner.evict(id, now);
    }

    /// The row of an identifier, for a reader that began at `time`, or why there is none. An item there must not be
    /// old.
    pub fn get(&self, id: u64, time: Tick) -> BulkGot<'_>
        requires { has_old self.now id ≡ false }
        ensures { got_reply result ≡ got self.now id time }
    {
        if self.holders > 0 {
            return BulkGot::Wide {
                holders: self.holders,
            };
        }
        BulkGot::Plain(self.inner.get(id, time))
    }

    /// Offers a row as the item, which a reader that began at `time` has loaded; `floor` is the least time of the open
    /// sessions. An item there must not be old. At an error nothing has changed. If the row is shut out, there is no
    /// error.
    pub fn put(
        &mut self,
        id: u64,
        row: Row,
        time: Tick,
        floor: Tick,
        now: Tick,
    ) -> Result<BulkPut, AllocError>
        requires { has_old self.old id ≡ false }
        ensures answer { IfOk result (λ p. p ≡ put self.old id row.version time floor) }
        ensures state { OnOk result (self.new ≡ after_put id row time floor now self.old) }
        ensures err { OnErr result (self.new ≡ self.old) }
        ensures shut { shuts self.old time ≡ true → IsOk result }
    {
        if self.holders > 0 {
            return Ok(BulkPut::Wide {
                holders: self.holders,
            });
        }
        if time <= self.unlock {
            return Ok(BulkPut::WideEarly {
                unlock: self.unlock,
            });
        }
        let put = self.inner.put(id, row, time, floor, now)?;
        Ok(BulkPut::Plain(put))
    }

    /// Stores a row whose insert was committed by a session that began at `time`, if its key has no slot and there is
    /// room. At an error nothing has changed. If the row is shut out, there is no error.
    pub fn after_insert(
        &mut self,
        id: u64,
        row: Row,
        time: Tick,
        floor: Tick,
        now: Tick,
    ) -> Result<BulkInserted, AllocError>
        ensures answer { IfOk result (λ p. p ≡ inserted self.old id time floor) }
        ensures state { OnOk result (self.new ≡ with_insert id row time floor now self.old) }
        ensures err { OnErr result (self.new ≡ self.old) }
        ensures shut { shuts self.old time ≡ true → IsOk result }
    {
        if self.holders > 0 {
            return Ok(BulkInserted::Wide {
                holders: self.holders,
            });
        }
        if time <= self.unlock {
            return Ok(BulkInserted::WideEarly {
                unlock: self.unlock,
            });
        }
        let inserted = self.inner.after_insert(id, row, floor, now)?;
        Ok(BulkInserted::Plain(inserted))
    }

    /// Stores a row whose update was committed under a lock, unless others have locked the key too, and gives the lock
    /// back. If the lock is shut out, it is given back without the row. At an error nothing has changed. If the key has
    /// a slot, there is no error.
    pub fn after_update(
        &mut self,
        id: u64,
        lock: Tick,
        row: Row,
        now: Tick,
    ) -> Result<Updated, AllocError>
        requires { now ≤ 2 ^ 62 }
        ensures answer { IfOk result (λ u. u ≡ updated self.old id lock) }
        ensures state { OnOk result (self.new ≡ with_update id lock row now self.old) }
        ensures err { OnErr result (self.new ≡ self.old) }
        ensures there { has_entry (slot_in self.old.inner id) ≡ true → IsOk result }
    {
        if self.is_shut(lock) {
            let unlocked = self.inner.unlock(id, lock, now)?;
            return Ok(given_back(unlocked));
        }
        self.inner.after_update(id, lock, row, now)
    }

    /// Takes the soft lock of a key, for a session whose base has this version. An item there must not be old. At an
    /// error nothing has changed. If a lock has as many holders as `now` has ticks, it fails as if memory ran out; if
    /// ticks rise there is no such lock.
    pub fn lock(
        &mut self,
        id: u64,
        version: Option<u32>,
        floor: Tick,
        now: Tick,
    ) -> Result<Locked, AllocError>
        requires late { now ≤ 2 ^ 62 }
        requires swept { has_old self.old id ≡ false }
        ensures answer { IfOk result (λ locked. locked
            ≡ Regions.lock self.old.inner.timeout (slot_in self.old.inner id)
            (room_in self.old.inner floor) now) }
        ensures state { OnOk result (self.new ≡ after_lock id version floor now self.old) }
        ensures err { OnErr result (self.new ≡ self.old) }
    {
        self.inner.lock(id, version, floor, now)
    }

    /// Gives a soft lock back. If the key has no lock of this number that is held, it gets one without holder that is
    /// good for the timeout. At an error nothing has changed. If the key has a slot, there is no error.
    pub fn unlock(&mut self, id: u64, lock: Tick, now: Tick) -> Result<Unlocked, AllocError>
        requires { now ≤ 2 ^ 62 }
        ensures answer { IfOk result (λ unlocked. unlocked
            ≡ Regions.unlock (slot_in self.old.inner id) lock) }
        ensures state { OnOk result (self.new ≡ after_unlock id lock now self.old) }
        ensures err { OnErr result (self.new ≡ self.old) }
        ensures there { has_entry (slot_in self.old.inner id) ≡ true → IsOk result }
    {
        self.inner.unlock(id, lock, now)
    }
}
