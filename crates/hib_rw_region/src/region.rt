// The read-write region, which hib_engines asks for a read-write entity.
ghost use Rattle.std.specs.Prelude.{◌≡◌, ◌+◌, ◌≤◌, ◌<◌, ◌^◌, ℕ, None, Some, true, false, IsOk, IfOk, OnOk, OnErr, ◌==◌};
ghost use Rattle.std.specs.Option.{option_flatten, option_map_or};
ghost use Rattle.hib_journal.specs.Regions as Regions;
ghost use Rattle.hib_journal.specs.Room.{has_entry};
ghost use Rattle.hib_soft_lock.specs.Steps.{holders_in};
ghost use Rattle.hib_room_laws.specs.Answers.{got_reply};
ghost use Rattle.hib_rw_region.specs.Region.{kept_in, slot_in, stamp_in, room_in};
ghost use Rattle.hib_rw_region.specs.Steps.{empty, with_slot, without, new_item, barred, after_put, after_insert as inserted, after_lock, after_unlock, after_update as updated, after_evict, after_clear};

use crate::{queue, slots};
use hib_base::{Evicted, Got, Inserted, Locked, Miss, Put, Row, Tick, Unlocked, Updated};
use hib_soft_lock::Slot;
use indexmap::IndexMap;
use std::alloc::{AllocError, Global};
use std::marker::Model;

/// The region of a read-write entity. Contracts see the capacity, the timeout, and the slots in order of insertion.
/// Each `now` should be greater than every tick that the region was given before, yet no call requires it: if it isn't,
/// a lock that has as many holders as `now` has ticks takes no more.
#[derive(Drop)]
pub struct RwRegion {
    front: IndexMap<u64, Slot>,
    back: IndexMap<u64, Slot>,
    capacity: u32,
    timeout: u32,
}

impl Model for RwRegion {
    ghost use Rattle.hib_room_laws.specs.Answers.{got_reply};
    ghost use Rattle.hib_room_laws.specs.Queued.{queued};
    ghost use Rattle.hib_rw_region.specs.Region.{RegionState};

    ghost Value = { RegionState };

    ghost view = { λ r. record {
      capacity = r.capacity;
      timeout = r.timeout;
      slots = queued r.front.entries r.back.entries;
    } };
}

impl RwRegion {
    /// An empty region for `capacity` keys, from 1 to 100000, whose locks are good for `timeout` ticks. It takes no
    /// memory.
    pub fn open(alloc: Global, capacity: u32, timeout: u32) -> RwRegion
        ensures { result ≡ empty capacity timeout }
    {
        RwRegion {
            front: IndexMap::new(alloc),
            back: IndexMap::new(alloc),
            capacity,
            timeout,
        }
    }

    /// The row of an identifier, for a reader that began at `time`, or why there is none.
    pub fn get(&self, id: u64, time: Tick) -> Got<'_>
        ensures { got_reply result ≡ Regions.got (slot_in self.now id) time }
    {
        match queue::look(&self.front, &self.back, id) {
            None => Got::Miss(Miss::Absent),
            Some(Slot::Item { row, stamp }) if *stamp < time => Got::Hit(row),
            Some(slot) => Got::Miss(slot.miss()),
        }
    }

    /// When the item of an identifier was stored; none if it has no item.
    pub fn stamp(&self, id: u64) -> Option<Tick>
        ensures { result ≡ stamp_in (slot_in self.now id) }
    {
        match queue::look(&self.front, &self.back, id) {
            Some(Slot::Item { stamp, .. }) => Some(*stamp),
            _ => None,
        }
    }

    /// How many hold the lock of an identifier; 0 if it has none.
    pub fn holders(&self, id: u64) -> u64
        ensures { result ≡ holders_in (slot_in self.now id) }
    {
        match queue::look(&self.front, &self.back, id) {
            Some(Slot::Lock { holders, .. }) => *holders,
            _ => 0,
        }
    }

    // The room for a new key: the key that has to leave for it, if one has to; the outer none if no key may.
    fn room(&self, floor: Tick) -> Option<Option<u64>>
        ensures room { result ≡ room_in self.now floor }
        ensures apart { (id : ℕ) → kept_in self.now id ≡ None
            → option_map_or (λ v. v == id) (option_flatten result) false ≡ false }
    {
        if self.front.len() + self.back.len() < self.capacity as usize {
            return Some(None);
        }
        let victim = queue::victim(&self.front, &self.back, floor)?;
        Some(Some(victim))
    }

    // Places a slot on a new key, and then lets the other leave, if one has to. That must be another key.
    fn place(&mut self, id: u64, slot: Slot, evicted: Option<u64>) -> Result<(), AllocError>
        requires { option_map_or (λ v. v == id) evicted false ≡ false }
        ensures ok { OnOk result (self.new ≡ with_slot id slot (without evicted self.old)) }
        ensures err { OnErr result (self.new ≡ self.old) }
    {
        queue::set(&mut self.front, &mut self.back, id, slot)?;
        if let Some(key) = evicted {
            queue::remove(&mut self.front, &mut self.back, key);
        }
        Ok(())
    }

    // Places an item on a key, which must have no slot, if there is room. Answers the room.
    fn place_item(
        &mut self,
        id: u64,
        row: Row,
        floor: Tick,
        now: Tick,
    ) -> Result<Option<Option<u64>>, AllocError>
        requires { kept_in self.old id ≡ None }
        ensures room { IfOk result (λ room. room ≡ room_in self.old floor) }
        ensures state { OnOk result (self.new
            ≡ new_item id row now (room_in self.old floor) self.old) }
        ensures err { OnErr result (self.new ≡ self.old) }
    {
        let room = self.room(floor);
        if let Some(evicted) = room {
            self.place(id, Slot::Item { row, stamp: now }, evicted)?;
        }
        Ok(room)
    }

    /// Offers a row as the item, which a reader that began at `time` has loaded; `floor` is the least time of the open
    /// sessions. If the key has a slot, that decides; a new key needs room. At an error nothing has changed.
    pub fn put(
        &mut self,
        id: u64,
        row: Row,
        time: Tick,
        floor: Tick,
        now: Tick,
    ) -> Result<Put, AllocError>
        ensures answer { IfOk result (λ put. put
            ≡ Regions.put (slot_in self.old id) (room_in self.old floor) time row.version) }
        ensures state { OnOk result (self.new ≡ after_put id row time floor now self.old) }
        ensures err { OnErr result (self.new ≡ self.old) }
    {
        let Some(slot) = queue::look(&self.front, &self.back, id) else {
            return match self.place_item(id, row, floor, now)? {
                None => Ok(Put::Crowded),
                Some(evicted) => Ok(Put::Stored {
                    evicted,
                    late: false,
                }),
            };
        };
        let put = slot.writable(time, row.version);
        if let Put::Stored { .. } = put {
            queue::set(
                &mut self.front,
                &mut self.back,
                id,
                Slot::Item { row, stamp: now },
            )?;
        }
        Ok(put)
    }

    /// Takes the lock of a key, for a session whose base has this version. A new key gets a lock whether or not
    /// another may leave for it. At an error nothing has changed. A lock that has as many holders as `now` has ticks is
    /// answered as if memory ran out; if ticks rise there is none.
    pub fn lock(
        &mut self,
        id: u64,
        version: Option<u32>,
        floor: Tick,
        now: Tick,
    ) -> Result<Locked, AllocError>
        requires { now ≤ 2 ^ 62 }
        ensures answer { IfOk result (λ locked. locked
            ≡ Regions.lock self.old.timeout (slot_in self.old id)
            (room_in self.old floor) now) }
        ensures state { OnOk result (self.new ≡ after_lock id version floor now self.old) }
        ensures err { OnErr result (self.new ≡ self.old) }
    {
        if self.holders(id) >= now.0 {
            return Err(AllocError);
        }
        let until = Tick(now.0 + self.timeout as u64);
        if let Some(lock) = queue::lock(&mut self.front, &mut self.back, id, now, self.timeout) {
            return Ok(Locked {
                id: lock,
                until,
                evicted: None,
            });
        }
        let evicted = self.room(floor).unwrap_or(None);
        self.place(id, Slot::taken(version, now, self.timeout), evicted)?;
        Ok(Locked {
            id: now,
            until,
            evicted,
        })
    }

    // Bars a key of which a lock was to be given back that isn't there: for as long as it was good, nothing is put.
    fn expire(&mut self, id: u64, now: Tick) -> Result<(), AllocError>
        requires { now ≤ 2 ^ 62 }
        ensures ok { OnOk result (self.new
            ≡ with_slot id (barred now (now + self.old.timeout)) self.old) }
        ensures err { OnErr result (self.new ≡ self.old) }
        ensures there { has_entry (slot_in self.old id) ≡ true → IsOk result }
    {
        let until = Tick(now.0 + self.timeout as u64);
        queue::set(&mut self.front, &mut self.back, id, slots::bar(now, until))
    }

    /// Gives a lock back. If the key has no lock of this number that is held, it gets one without holder that is good
    /// for the timeout. At an error nothing has changed. If the key has a slot, there is no error.
    pub fn unlock(&mut self, id: u64, lock: Tick, now: Tick) -> Result<Unlocked, AllocError>
        requires { now ≤ 2 ^ 62 }
        ensures answer { IfOk result (λ unlocked. unlocked
            ≡ Regions.unlock (slot_in self.old id) lock) }
        ensures state { OnOk result (self.new ≡ after_unlock id lock now self.old) }
        ensures err { OnErr result (self.new ≡ self.old) }
        ensures there { has_entry (slot_in self.old id) ≡ true → IsOk result }
    {
        let answer = slots::unlocked(queue::look(&self.front, &self.back, id), lock);
        match answer {
            Unlocked::Released { .. } => queue::release(&mut self.front, &mut self.back, id, now),
            Unlocked::Expired => self.expire(id, now)?,
        }
        Ok(answer)
    }

    /// Stores a row whose update was committed under a lock, unless others have locked the key too, and gives the lock
    /// back. If the key has no lock of this number that is held, it does as `unlock`. At an error nothing has changed.
    pub fn after_update(
        &mut self,
        id: u64,
        lock: Tick,
        row: Row,
        now: Tick,
    ) -> Result<Updated, AllocError>
        requires { now ≤ 2 ^ 62 }
        ensures answer { IfOk result (λ updated. updated
            ≡ Regions.after_update (slot_in self.old id) lock) }
        ensures state { OnOk result (self.new ≡ updated id lock row now self.old) }
        ensures err { OnErr result (self.new ≡ self.old) }
        ensures there { has_entry (slot_in self.old id) ≡ true → IsOk result }
    {
        let answer = slots::updated(queue::look(&self.front, &self.back, id), lock);
        match answer {
            Updated::Stored => queue::set(
                &mut self.front,
                &mut self.back,
                id,
                Slot::Item { row, stamp: now },
            )?,
            Updated::Shared { .. } => queue::release(&mut self.front, &mut self.back, id, now),
            Updated::Expired => self.expire(id, now)?,
        }
        Ok(answer)
    }

    /// Stores a row whose insert was committed, if its key has no slot and there is room. At an error nothing has
    /// changed.
    pub fn after_insert(
        &mut self,
        id: u64,
        row: Row,
        floor: Tick,
        now: Tick,
    ) -> Result<Inserted, AllocError>
        ensures answer { IfOk result (λ put. put
            ≡ Regions.after_insert (slot_in self.old id) (room_in self.old floor)) }
        ensures state { OnOk result (self.new ≡ inserted id row floor now self.old) }
        ensures err { OnErr result (self.new ≡ self.old) }
    {
        if queue::look(&self.front, &self.back, id).is_some() {
            return Ok(Inserted::Present);
        }
        match self.place_item(id, row, floor, now)? {
            None => Ok(Inserted::Crowded),
            Some(evicted) => Ok(Inserted::Stored { evicted }),
        }
    }

    /// Evicts a key, unless it is held: a lock without holder stays, which bars what was loaded before. It takes no
    /// memory.
    pub fn evict(&mut self, id: u64, now: Tick) -> Evicted
        ensures answer { result ≡ Regions.evict (slot_in self.old id) }
        ensures state { self.new ≡ after_evict id now self.old }
    {
        queue::evict(&mut self.front, &mut self.back, id, now)
    }

    /// Drops all slots. It takes no memory.
    pub fn clear(&mut self)
        ensures { self.new ≡ after_clear self.old }
    {
        queue::clear(&mut self.front, &mut self.back);
    }
}
