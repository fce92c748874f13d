// The region of an entity, which bulk lines may lock as a whole; it turns the answers of a `BulkRegion` into replies.
ghost use Rattle.std.specs.Prelude.{◌≡◌, ◌≤◌, ◌<◌, ◌+◌, ◌-◌, ◌^◌, true, false, Some, IfOk, OnOk, OnErr};
ghost use Rattle.hib_base.specs.declared.numbers.Key.{Key as KeySpec};
ghost use Rattle.hib_bulk_law.specs.Acts.{swept_for};
ghost use Rattle.hib_base.specs.declared.replies.Reply.{Reply};
ghost use Rattle.hib_bulk_region.specs.Region.{has_old};
ghost use Rattle.hib_bulk_region.specs.Answers.{put_reply as put_answer, inserted_reply as inserted_answer};
ghost use Rattle.hib_bulk_region.specs.Steps.{got};
ghost use Rattle.hib_bulk.specs.Types.{BulkReply as Replied};
ghost use Rattle.hib_bulk.specs.Regions.{opened, has_old_in, swept, held_by, locked_all, unlocked_all, answer_by};
ghost use Rattle.hib_bulk.specs.Regions.{state_after, answer_in, region_after};

use hib_base::{Act, Got, Reply, Row, Strategy, Tick};
use hib_bulk_law::BulkReply;
use hib_bulk_region::{BulkGot, BulkInserted, BulkPut, BulkRegion};
use std::alloc::{AllocError, Global};

/// A row that was found, as a reply.
fn hit(alloc: Global, row: &Row) -> Result<BulkReply, AllocError>
    ensures { IfOk result (λ r. r ≡ Replied.Plain (Reply.Hit row.now)) }
{
    let row = row.copy(alloc)?;
    Ok(BulkReply::Plain(Reply::Hit(row)))
}

/// The row at an identifier, or why there is none, as a reply. An item there must not be old.
fn get(alloc: Global, region: &BulkRegion, id: u64, time: Tick) -> Result<BulkReply, AllocError>
    requires { has_old region.now id ≡ false }
    ensures { IfOk result (λ r. r ≡ got region.now id time) }
{
    match region.get(id, time) {
        BulkGot::Wide { holders } => Ok(BulkReply::Wide { holders }),
        BulkGot::Plain(Got::Hit(row)) => hit(alloc, row),
        BulkGot::Plain(Got::Miss(miss)) => Ok(BulkReply::Plain(Reply::Miss(miss))),
    }
}

/// The answer to a row that was loaded, as a reply.
fn put_reply(put: BulkPut) -> BulkReply
    ensures { result ≡ put_answer put }
{
    match put {
        BulkPut::Wide { holders } => BulkReply::Wide { holders },
        BulkPut::WideEarly { unlock } => BulkReply::WideEarly { unlock },
        BulkPut::Plain(put) => BulkReply::Plain(Reply::Put(put)),
    }
}

/// The answer to a row whose insert was committed, as a reply.
fn inserted_reply(inserted: BulkInserted) -> BulkReply
    ensures { result ≡ inserted_answer inserted }
{
    match inserted {
        BulkInserted::Wide { holders } => BulkReply::Wide { holders },
        BulkInserted::WideEarly { unlock } => BulkReply::WideEarly { unlock },
        BulkInserted::Plain(inserted) => BulkReply::Plain(Reply::Inserted(inserted)),
    }
}

/// Has a region answer an act of a session that began at `begun`, at this tick. An item that the act would meet must
/// not be old. An act that isn't a region's is answered Done, and changes nothing. At an error nothing has changed.
fn act_on(
    alloc: Global,
    region: &mut BulkRegion,
    act: &Act,
    begun: Tick,
    now: Tick,
) -> Result<BulkReply, AllocError>
    requires late { now ≤ 2 ^ 62 }
    requires swept { (k : KeySpec) → swept_for act.now ≡ Some k
        → has_old region.old k.id ≡ false }
    ensures answer { IfOk result (λ r. r ≡ answer_by region.old begun now act.now) }
    ensures state { OnOk result (region.new ≡ state_after region.old begun now act.now) }
    ensures err { OnErr result (region.new ≡ region.old) }
{
    match act {
        Act::Get { key, time } => get(alloc, region, key.id, *time),
        Act::Put {
            key,
            row,
            time,
            floor,
        } => {
            let row = row.copy(alloc)?;
            let put = region.put(key.id, row, *time, *floor, now)?;
            Ok(put_reply(put))
        }
        Act::Lock {
            key,
            version,
            floor,
        } => {
            let locked = region.lock(key.id, *version, *floor, now)?;
            Ok(BulkReply::Plain(Reply::Locked(locked)))
        }
        Act::Unlock { key, lock } => {
            let unlocked = region.unlock(key.id, *lock, now)?;
            Ok(BulkReply::Plain(Reply::Unlocked(unlocked)))
        }
        Act::AfterInsert { key, row, floor } => {
            let row = row.copy(alloc)?;
            let inserted = region.after_insert(key.id, row, begun, *floor, now)?;
            Ok(inserted_reply(inserted))
        }
        Act::AfterUpdate { key, lock, row } => {
            let row = row.copy(alloc)?;
            let updated = region.after_update(key.id, *lock, row, now)?;
            Ok(BulkReply::Plain(Reply::Updated(updated)))
        }
        _ => Ok(BulkReply::Plain(Reply::Done)),
    }
}

/// The region of an entity.
#[derive(Drop)]
pub enum EntityRegion {
    /// An entity that isn't cached has none.
    Uncached,
    /// The region of a read-write entity.
    ReadWrite(BulkRegion),
}

impl EntityRegion {
    /// The empty region of a strategy, which nobody holds. There is one for read-write alone.
    pub fn open(alloc: Global, strategy: Strategy, capacity: u32, timeout: u32) -> EntityRegion
        ensures { result ≡ opened strategy capacity timeout }
    {
        match strategy {
            Strategy::ReadWrite => EntityRegion::ReadWrite(BulkRegion::open(
                alloc, capacity, timeout,
            )),
            _ => EntityRegion::Uncached,
        }
    }

    /// Whether a key has an old item, which must be swept before an act meets it.
    pub fn old(&self, id: u64) -> bool
        ensures { result ≡ has_old_in self.now id }
    {
        match self {
            EntityRegion::Uncached => false,
            EntityRegion::ReadWrite(region) => region.old(id),
        }
    }

    /// Evicts an old item, which is a sweep. There must be one. It takes no memory.
    pub fn sweep(&mut self, id: u64, now: Tick)
        requires { has_old_in self.old id ≡ true }
        ensures { self.new ≡ swept self.old id now }
    {
        match self {
            EntityRegion::Uncached => {}
            EntityRegion::ReadWrite(region) => region.sweep(id, now),
        }
    }

    /// Locks the region for a line. Answers how many hold it now. It takes no memory.
    pub fn lock_all(&mut self) -> u64
        requires { held_by self.old < 2 ^ 62 }
        ensures answer { result ≡ held_by self.new }
        ensures state { self.new ≡ locked_all self.old }
    {
        match self {
            EntityRegion::Uncached => 0,
            EntityRegion::ReadWrite(region) => region.lock_all(),
        }
    }

    /// Gives the region back for a line. A line must hold it. Answers how many hold it still. It takes no memory.
    pub fn unlock_all(&mut self, now: Tick) -> u64
        requires { 1 ≤ held_by self.old }
        ensures answer { result ≡ held_by self.new }
        ensures state { self.new ≡ unlocked_all now self.old }
    {
        match self {
            EntityRegion::Uncached => 0,
            EntityRegion::ReadWrite(region) => region.unlock_all(now),
        }
    }

    /// Answers an act of a session that began at `begun`, at this tick. An item that the act would meet must not be
    /// old. At an error nothing has changed.
    pub fn serve(
        &mut self,
        alloc: Global,
        act: &Act,
        begun: Tick,
        now: Tick,
    ) -> Result<BulkReply, AllocError>
        requires late { now ≤ 2 ^ 62 }
        requires swept { (k : KeySpec) → swept_for act.now ≡ Some k
            → has_old_in self.old k.id ≡ false }
        ensures answer { IfOk result (λ r. r ≡ answer_in self.old begun now act.now) }
        ensures state { OnOk result (self.new ≡ region_after self.old begun now act.now) }
        ensures err { OnErr result (self.new ≡ self.old) }
    {
        match self {
            EntityRegion::Uncached => Ok(BulkReply::Plain(Reply::Done)),
            EntityRegion::ReadWrite(region) => act_on(alloc, region, act, begun, now),
        }
    }
}
