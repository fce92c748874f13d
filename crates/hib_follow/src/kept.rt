// What a key has in its region after an entry, by what it had before (`Kept`): nothing, an item or a lock.
ghost use Rattle.std.specs.Prelude.{◌≡◌, ◌+◌, suc, if◌then◌else◌, List, None, Some, IfOk, is_some, option_copied, slice_get, true};
ghost use Rattle.hib_journal.specs.Next.{strategy};
ghost use Rattle.hib_journal.specs.Slot.{Slot, evicted_in, key_in, touch_here};
ghost use Rattle.hib_journal.specs.Types.{Entry, Key};
ghost use Rattle.hib_follow.specs.Shelves.{kept_slot, row_from, row_stored, tick_from};
ghost use Rattle.hib_follow.specs.Steps.{after, barred, item_if, locked, new_lock, released, slot_if};
ghost use Rattle.hib_follow.specs.Touched.{leaving};

use hib_base::{
    Act, Entry, Evicted, Inserted, Key, Put, Reply, Row, Script, Strategy, Tick, Unlocked, Updated,
    strategy_of,
};
use std::alloc::AllocError;

/// What a key has in its region.
#[derive(Clone, Copy)]
pub enum Kept {
    /// Nothing.
    Nothing,
    /// The row that the entry at this place stored.
    Item(usize),
    /// A lock.
    Lock {
        /// Its number.
        id: u64,
        /// The version of the row that it stands for, if that has one.
        version: Option<u32>,
        /// When its time is over.
        timeout: u64,
        /// How many hold it.
        holders: u64,
        /// Whether it was ever taken while it stood already.
        shared: bool,
        /// When the last holder let go; 0 as long as there was none.
        unlock: u64,
    },
}

/// The row that an act may store.
fn row_stored(act: &Act) -> Option<&Row>
    ensures { option_copied result ≡ row_stored act.now }
{
    match act {
        Act::Put { row, .. } | Act::AfterInsert { row, .. } | Act::AfterUpdate { row, .. } => Some(
            row,
        ),
        _ => None,
    }
}

/// A sum of ticks. One that is too large is answered as want of memory.
fn later(now: Tick, ticks: u32) -> Result<u64, AllocError>
    ensures { IfOk result (λ t. t ≡ now + ticks) }
{
    match now.0.checked_add(u64::from(ticks)) {
        Some(tick) => Ok(tick),
        None => Err(AllocError),
    }
}

/// A lock that is taken now where there was none.
fn new_lock(timeout: u32, now: Tick, version: Option<u32>) -> Result<Kept, AllocError>
    ensures { IfOk result (λ k. (es : List Entry) → kept_slot es k ≡ new_lock timeout now version) }
{
    match later(now, timeout) {
        Ok(until) => Ok(Kept::Lock {
            id: now.0,
            version,
            timeout: until,
            holders: 1,
            shared: false,
            unlock: 0,
        }),
        Err(error) => Err(error),
    }
}

/// A lock that nobody holds, whose time is over `ticks` from now.
fn barred(now: Tick, ticks: u32) -> Result<Kept, AllocError>
    ensures { IfOk result (λ k. (es : List Entry) → kept_slot es k ≡ barred now (now + ticks)) }
{
    match later(now, ticks) {
        Ok(until) => Ok(Kept::Lock {
            id: now.0,
            version: None,
            timeout: until,
            holders: 0,
            shared: false,
            unlock: until,
        }),
        Err(error) => Err(error),
    }
}

/// When the entry at a place came, or 0.
pub fn tick_from(entries: &[Entry], place: usize) -> Tick
    ensures { result ≡ tick_from entries.now place }
{
    match entries.get(place) {
        Some(entry) => entry.tick,
        None => Tick(0),
    }
}

/// The row that the entry at a place stored.
pub fn row_from(entries: &[Entry], place: usize) -> Option<&Row>
    ensures { option_copied result ≡ row_from entries.now place }
{
    row_stored(&entries.get(place)?.act)
}

/// After one has locked it, who names this version.
fn locked(
    entries: &[Entry],
    timeout: u32,
    now: Tick,
    version: Option<u32>,
    old: Kept,
) -> Result<Kept, AllocError>
    ensures { IfOk result (λ k. kept_slot entries.now k ≡ locked timeout now version (kept_slot entries.now old)) }
{
    match old {
        Kept::Nothing => new_lock(timeout, now, version),
        Kept::Item(place) => match row_from(entries, place) {
            Some(row) => new_lock(timeout, now, row.version),
            None => new_lock(timeout, now, version),
        },
        Kept::Lock {
            id,
            version,
            holders,
            unlock,
            ..
        } => locked_again(timeout, now, id, version, holders, unlock),
    }
}

/// A lock that one more has locked. A count that is too large is answered as want of memory.
fn locked_again(
    timeout: u32,
    now: Tick,
    id: u64,
    version: Option<u32>,
    holders: u64,
    unlock: u64,
) -> Result<Kept, AllocError>
    ensures { IfOk result (λ k. (es : List Entry) → kept_slot es k ≡ Slot.Lock (record {
      id = id;
      version = version;
      timeout = now + timeout;
      holders = suc holders;
      shared = true;
      unlock = unlock;
    })) }
{
    match later(now, timeout) {
        Ok(timeout) => match holders.checked_add(1) {
            Some(holders) => Ok(Kept::Lock {
                id,
                version,
                timeout,
                holders,
                shared: true,
                unlock,
            }),
            None => Err(AllocError),
        },
        Err(error) => Err(error),
    }
}

/// After a holder has let go, and this many are left.
fn released(old: Kept, holders: u64, now: Tick) -> Kept
    ensures { (es : List Entry) → kept_slot es result ≡ released holders now (kept_slot es old) }
{
    match old {
        Kept::Lock {
            id,
            version,
            timeout,
            holders: _,
            shared,
            unlock,
        } => Kept::Lock {
            id,
            version,
            timeout,
            holders,
            shared,
            unlock: if holders == 0 { now.0 } else { unlock },
        },
        _ => old,
    }
}

/// After the entry at a place, which names the key of a read-write region.
fn slot_after(
    entries: &[Entry],
    timeout: u32,
    place: usize,
    entry: &Entry,
    old: Kept,
) -> Result<Kept, AllocError>
    requires { slice_get entries.now place ≡ Some entry.now }
    ensures { IfOk result (λ k. kept_slot entries.now k
        ≡ slot_if timeout entry.now.tick (touch_here entry.now.act entry.now.reply) (kept_slot entries.now old)) }
{
    match &entry.act {
        Act::Put { .. } => match &entry.reply {
            Reply::Put(Put::Stored { .. }) => Ok(Kept::Item(place)),
            _ => Ok(old),
        },
        Act::AfterInsert { .. } => match &entry.reply {
            Reply::Inserted(Inserted::Stored { .. }) => Ok(Kept::Item(place)),
            _ => Ok(old),
        },
        Act::AfterUpdate { .. } => match &entry.reply {
            Reply::Updated(Updated::Stored) => Ok(Kept::Item(place)),
            Reply::Updated(Updated::Shared { holders }) => Ok(released(old, *holders, entry.tick)),
            Reply::Updated(Updated::Expired) => barred(entry.tick, timeout),
            _ => Ok(old),
        },
        Act::Lock { version, .. } => match &entry.reply {
            Reply::Locked(_) => locked(entries, timeout, entry.tick, *version, old),
            _ => Ok(old),
        },
        Act::Unlock { .. } => match &entry.reply {
            Reply::Unlocked(Unlocked::Released { holders }) => Ok(released(
                old, *holders, entry.tick,
            )),
            Reply::Unlocked(Unlocked::Expired) => barred(entry.tick, timeout),
            _ => Ok(old),
        },
        Act::Evict { .. } => match &entry.reply {
            Reply::Evicted(Evicted::Gone) => barred(entry.tick, 0),
            _ => Ok(old),
        },
        Act::RegionRemove { .. } => match &entry.reply {
            Reply::Dropped => Ok(Kept::Nothing),
            _ => Ok(old),
        },
        _ => Ok(old),
    }
}

/// After the entry at a place, which names the key of a region without locks.
fn item_after(place: usize, entry: &Entry, old: Kept) -> Kept
    ensures { (es : List Entry) → slice_get es place ≡ Some entry.now → kept_slot es result
        ≡ item_if entry.now.tick (touch_here entry.now.act entry.now.reply) (kept_slot es old) }
{
    match &entry.act {
        Act::Put { .. } => match &entry.reply {
            Reply::Put(Put::Stored { .. }) => Kept::Item(place),
            _ => old,
        },
        Act::AfterInsert { .. } => match &entry.reply {
            Reply::Inserted(Inserted::Stored { .. }) => Kept::Item(place),
            _ => old,
        },
        Act::AfterUpdate { .. } => match &entry.reply {
            Reply::Updated(Updated::Stored) => Kept::Item(place),
            _ => old,
        },
        Act::Evict { .. } => match &entry.reply {
            Reply::Evicted(Evicted::Gone) => Kept::Nothing,
            _ => old,
        },
        Act::RegionRemove { .. } => match &entry.reply {
            Reply::Dropped => Kept::Nothing,
            _ => old,
        },
        _ => old,
    }
}

/// After the entry at a place, which names the key of a region.
pub fn after(
    entries: &[Entry],
    script: &Script,
    place: usize,
    entry: &Entry,
    key: Key,
    old: Kept,
) -> Result<Kept, AllocError>
    requires { slice_get entries.now place ≡ Some entry.now }
    ensures { IfOk result (λ k. kept_slot entries.now k
        ≡ after (strategy script.now key.entity) script.now.timeout entry.now.tick
        (touch_here entry.now.act entry.now.reply) (kept_slot entries.now old)) }
{
    match strategy_of(script.mapping.as_slice(), key.entity) {
        Strategy::ReadWrite => slot_after(entries, script.timeout, place, entry, old),
        Strategy::Uncached => Ok(item_after(place, entry, old)),
        Strategy::Nonstrict => Ok(item_after(place, entry, old)),
        Strategy::ReadOnly => Ok(item_after(place, entry, old)),
    }
}

/// Whether an entry touches the key that it names, so that it may have something else after it.
pub fn is_touched(entry: &Entry) -> bool
    ensures { result ≡ is_some (touch_here entry.now.act entry.now.reply) }
{
    match &entry.act {
        Act::Put { .. } => matches!(&entry.reply, Reply::Put(Put::Stored { .. })),
        Act::AfterInsert { .. } => matches!(&entry.reply, Reply::Inserted(Inserted::Stored { .. })),
        Act::AfterUpdate { .. } => matches!(&entry.reply, Reply::Updated(_)),
        Act::Lock { .. } => matches!(&entry.reply, Reply::Locked(_)),
        Act::Unlock { .. } => matches!(&entry.reply, Reply::Unlocked(_)),
        Act::Evict { .. } => matches!(&entry.reply, Reply::Evicted(Evicted::Gone)),
        Act::RegionRemove { .. } => matches!(&entry.reply, Reply::Dropped),
        _ => false,
    }
}

/// The identifier that leaves a full region, if one does.
pub fn evicted_in(reply: &Reply) -> Option<u64>
    ensures { result ≡ evicted_in reply.now }
{
    match reply {
        Reply::Put(Put::Stored { evicted, .. }) => *evicted,
        Reply::Inserted(Inserted::Stored { evicted }) => *evicted,
        Reply::Locked(locked) => locked.evicted,
        _ => None,
    }
}

/// The key that an act of a region names.
pub fn key_in(act: &Act) -> Option<Key>
    ensures { result ≡ key_in act.now }
{
    match act {
        Act::Get { key, .. }
        | Act::Put { key, .. }
        | Act::AfterInsert { key, .. }
        | Act::AfterUpdate { key, .. }
        | Act::Lock { key, .. }
        | Act::Unlock { key, .. }
        | Act::RegionRemove { key }
        | Act::Evict { key } => Some(*key),
        _ => None,
    }
}

/// The key that an entry names, if it touches it.
pub fn touched(entry: &Entry, key: &Key) -> Option<Key>
    ensures { result ≡ (if is_some (touch_here entry.now.act entry.now.reply) then Some key.now else None) }
{
    if is_touched(entry) { Some(*key) } else { None }
}

/// The key that leaves its region for the one that an entry names, if another does.
pub fn leaving(entry: &Entry, key: &Key) -> Option<Key>
    ensures { result ≡ leaving key.now (evicted_in entry.now.reply) }
{
    match evicted_in(&entry.reply) {
        Some(id) => {
            if id == key.id {
                None
            } else {
                Some(Key {
                    entity: key.entity,
                    id,
                })
            }
        }
        None => None,
    }
}
