// Tests of one entry: whether it counts, and as what. `counts` asks them.
ghost use Rattle.std.specs.Prelude.{◌≡◌, ◌&&◌};
ghost use Rattle.hib_journal.specs.Slot.{key_in};
ghost use Rattle.hib_listeners.specs.Counts.{is_get, is_hit_reply, is_miss_reply, stores, refuses, locks, evicts, is_expired_reply, loads, lists, writes, is_committed, is_fault_reply, is_query_hit, lacks, keeps, is_drop};

use hib_base::{Act, Checked, Commit, Entry, Inserted, Key, Put, Reply, Unlocked, Updated};

/// The key that an act of a region names; none of another act.
pub fn key_in(act: &Act) -> Option<Key>
    ensures { result ≡ key_in act.now }
{
    match act {
        Act::Get { key, .. }
        | Act::Put { key, .. }
        | Act::AfterInsert { key, .. }
        | Act::AfterUpdate { key, .. }
        | Act::Lock { key, .. }
        | Act::Unlock { key, .. }
        | Act::RegionRemove { key }
        | Act::Evict { key } => Some(*key),
        _ => None,
    }
}

/// Whether a region had the row that it was asked for.
pub fn is_hit(act: &Act, reply: &Reply) -> bool
    ensures { result ≡ (is_get act.now && is_hit_reply reply.now) }
{
    matches!(act, Act::Get { .. }) && matches!(reply, Reply::Hit(_))
}

/// Whether a region hadn't the row that it was asked for, or didn't give it.
pub fn is_miss(act: &Act, reply: &Reply) -> bool
    ensures { result ≡ (is_get act.now && is_miss_reply reply.now) }
{
    matches!(act, Act::Get { .. }) && matches!(reply, Reply::Miss(_))
}

/// Whether a region stored the row of a put, an insert or an update.
pub fn stores(act: &Act, reply: &Reply) -> bool
    ensures { result ≡ stores act.now reply.now }
{
    match act {
        Act::Put { .. } => matches!(reply, Reply::Put(Put::Stored { .. })),
        Act::AfterInsert { .. } => matches!(reply, Reply::Inserted(Inserted::Stored { .. })),
        Act::AfterUpdate { .. } => matches!(reply, Reply::Updated(Updated::Stored)),
        _ => false,
    }
}

/// Whether a region did not store the row of a put or an insert.
pub fn refuses(act: &Act, reply: &Reply) -> bool
    ensures { result ≡ refuses act.now reply.now }
{
    match act {
        Act::Put { .. } => !matches!(reply, Reply::Put(Put::Stored { .. })),
        Act::AfterInsert { .. } => !matches!(reply, Reply::Inserted(Inserted::Stored { .. })),
        _ => false,
    }
}

/// Whether a lock was taken.
pub fn locks(act: &Act) -> bool
    ensures { result ≡ locks act.now }
{
    matches!(act, Act::Lock { .. })
}

/// Whether a key had to leave its region for another.
pub fn evicts(act: &Act, reply: &Reply) -> bool
    ensures { result ≡ evicts act.now reply.now }
{
    match act {
        Act::Put { .. } => matches!(
            reply,
            Reply::Put(Put::Stored {
                evicted: Some(_),
                ..
            })
        ),
        Act::Lock { .. } => match reply {
            Reply::Locked(locked) => locked.evicted.is_some(),
            _ => false,
        },
        Act::AfterInsert { .. } => matches!(
            reply,
            Reply::Inserted(Inserted::Stored { evicted: Some(_) })
        ),
        _ => false,
    }
}

/// Whether a lock had run out when it was to be given back, or when a row was stored over it.
pub fn is_expired(reply: &Reply) -> bool
    ensures { result ≡ is_expired_reply reply.now }
{
    match reply {
        Reply::Put(Put::Stored { late, .. }) => *late,
        Reply::Unlocked(Unlocked::Expired) | Reply::Updated(Updated::Expired) => true,
        _ => false,
    }
}

/// Whether the store was asked for a row.
pub fn loads(act: &Act) -> bool
    ensures { result ≡ loads act.now }
{
    matches!(act, Act::Load { .. })
}

/// Whether the store was asked for what a query gives.
pub fn lists(act: &Act) -> bool
    ensures { result ≡ lists act.now }
{
    matches!(act, Act::List { .. })
}

/// Whether a change was written.
pub fn writes(act: &Act) -> bool
    ensures { result ≡ writes act.now }
{
    matches!(act, Act::Write(_))
}

/// Whether a commit was applied.
pub fn is_committed(entry: &Entry) -> bool
    ensures { result ≡ is_committed entry.now }
{
    matches!(entry.act, Act::Commit) && matches!(entry.reply, Reply::Commit(Commit::Committed))
}

/// Whether the store failed.
pub fn is_fault(reply: &Reply) -> bool
    ensures { result ≡ is_fault_reply reply.now }
{
    matches!(reply, Reply::Fault | Reply::Commit(Commit::Fault))
}

/// Whether a kept result was fresh.
pub fn is_query_hit(entry: &Entry) -> bool
    ensures { result ≡ is_query_hit entry.now }
{
    matches!(entry.act, Act::Check { .. }) && matches!(entry.reply, Reply::Check(Checked::Fresh))
}

/// Whether a kept result wasn't there, or was stale.
pub fn lacks(act: &Act, reply: &Reply) -> bool
    ensures { result ≡ lacks act.now reply.now }
{
    match act {
        Act::Look { .. } => matches!(reply, Reply::Absent),
        Act::Check { .. } => matches!(reply, Reply::Check(Checked::Stale { .. })),
        _ => false,
    }
}

/// Whether a result was kept.
pub fn keeps(act: &Act) -> bool
    ensures { result ≡ keeps act.now }
{
    matches!(act, Act::Keep { .. })
}

/// Whether a kept result had to leave for another.
pub fn is_drop(entry: &Entry) -> bool
    ensures { result ≡ is_drop entry.now }
{
    matches!(entry.act, Act::Keep { .. }) && matches!(entry.reply, Reply::Kept { dropped: Some(_) })
}
