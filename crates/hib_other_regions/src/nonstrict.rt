// Regions of nonstrict entities, which may answer a stale row now and then.
ghost use Rattle.std.specs.Prelude.{◌≡◌, IfOk, OnOk, OnErr, false, is_some, if◌then◌else◌};
ghost use Rattle.hib_journal.specs.Regions.{got_item, put_item};
ghost use Rattle.hib_journal.specs.Types.{Reply, Evicted};
ghost use Rattle.hib_other_regions.specs.Items.{empty, item_in, oldest_in, after_put, after_remove, after_clear};
ghost use Rattle.hib_room_laws.specs.Answers.{got_reply, removed_reply};

use crate::items::Items;
use hib_base::{Evicted, Got, Miss, Put, Row, Tick};
use std::alloc::{AllocError, Global};
use std::marker::Model;

/// The region of a nonstrict entity: items with stamps. Contracts see the capacity and the items in order of
/// insertion.
#[derive(Drop)]
pub struct NonstrictRegion {
    items: Items,
}

impl Model for NonstrictRegion {
    ghost use Rattle.hib_other_regions.specs.Items.{ItemsState};

    ghost Value = { ItemsState };

    ghost view = { λ r. r.items };
}

impl NonstrictRegion {
    /// An empty region for `capacity` items, from 1 to 100000. It takes no memory.
    pub fn open(alloc: Global, capacity: u32) -> NonstrictRegion
        ensures { result ≡ empty capacity }
    {
        NonstrictRegion {
            items: Items::open(alloc, capacity),
        }
    }

    /// The row of an identifier. When the reader began decides nothing.
    pub fn get(&self, id: u64, _time: Tick) -> Got<'_>
        ensures { got_reply result ≡ got_item false 0 (item_in self.now id) }
    {
        match self.items.get(id) {
            None => Got::Miss(Miss::Absent),
            Some(item) => Got::Hit(&item.0),
        }
    }

    /// Stores a loaded row with the stamp `now`, unless its key has an item. The oldest item leaves a full region. At
    /// an error nothing has changed.
    pub fn put(&mut self, id: u64, row: Row, now: Tick) -> Result<Put, AllocError>
        ensures answer { IfOk result (λ put. put
            ≡ put_item (oldest_in self.old) (item_in self.old id)) }
        ensures state { OnOk result (self.new ≡ after_put id row now self.old) }
        ensures err { OnErr result (self.new ≡ self.old) }
    {
        if let Some(item) = self.items.get(id) {
            return Ok(Put::Present {
                version: item.0.version,
            });
        }
        let evicted = self.items.add(id, row, now)?;
        Ok(Put::Stored {
            evicted,
            late: false,
        })
    }

    /// Takes the item of an identifier out, and answers whether there was one. It takes no memory.
    pub fn remove(&mut self, id: u64) -> bool
        ensures answer { removed_reply result
            ≡ (if is_some (item_in self.old id) then Reply.Dropped else Reply.Absent) }
        ensures state { self.new ≡ after_remove id self.old }
    {
        self.items.remove(id)
    }

    /// Takes the item of an identifier out as was asked from outside. It takes no memory.
    pub fn evict(&mut self, id: u64) -> Evicted
        ensures answer { result ≡ (if is_some (item_in self.old id) then Evicted.Gone else Evicted.Absent) }
        ensures state { self.new ≡ after_remove id self.old }
    {
        if self.items.remove(id) {
            Evicted::Gone
        } else {
            Evicted::Absent
        }
    }

    /// Drops all items. It takes no memory.
    pub fn clear(&mut self)
        ensures { self.new ≡ after_clear self.old }
    {
        self.items.clear();
    }
}
