// What an act and its reply have, each under one name in all of them (docs/DATA.md); none where they don't have it. If
// both have it, the act's is taken.
ghost use Rattle.std.specs.Prelude.{◌≡◌, option_copied};
ghost use Rattle.hib_flat.specs.Parts as parts;

use hib_base::{
    Act, Change, Checked, Commit, EntityNo, Inserted, Key, Listing, Miss, Names, Put, QueryNo,
    Reply, Row, SessionNo, Unlocked, Updated,
};

/// The session that is killed.
pub fn killed_in(act: &Act) -> Option<SessionNo>
    ensures { result ≡ parts.killed_in act.now }
{
    match act {
        Act::Kill { session } => Some(*session),
        _ => None,
    }
}

fn act_key(act: &Act) -> Option<Key>
    ensures { result ≡ parts.act_key act.now }
{
    match act {
        Act::Find { key }
        | Act::Persist { key, .. }
        | Act::Set { key, .. }
        | Act::Remove { key }
        | Act::Load { key }
        | Act::Get { key, .. }
        | Act::Put { key, .. }
        | Act::Lock { key, .. }
        | Act::Unlock { key, .. }
        | Act::AfterInsert { key, .. }
        | Act::AfterUpdate { key, .. }
        | Act::RegionRemove { key }
        | Act::Evict { key } => Some(*key),
        Act::Write(change) => Some(change.key()),
        _ => None,
    }
}

fn reply_key(reply: &Reply) -> Option<Key>
    ensures { result ≡ parts.reply_key reply.now }
{
    match reply {
        Reply::Commit(Commit::Stale { key, .. } | Commit::Duplicate { key }) => Some(*key),
        _ => None,
    }
}

/// The key of the row that it is about.
pub fn key_in(act: &Act, reply: &Reply) -> Option<Key>
    ensures { result ≡ parts.key_in act.now reply.now }
{
    act_key(act).or(reply_key(reply))
}

fn act_row(act: &Act) -> Option<&Row>
    ensures { option_copied result ≡ parts.act_row act.now }
{
    match act {
        Act::Persist { row, .. }
        | Act::Put { row, .. }
        | Act::AfterInsert { row, .. }
        | Act::AfterUpdate { row, .. } => Some(row),
        Act::Write(change) => change.row_left(),
        _ => None,
    }
}

fn reply_row(reply: &Reply) -> Option<&Row>
    ensures { option_copied result ≡ parts.reply_row reply.now }
{
    match reply {
        Reply::Row(Some(row)) | Reply::Hit(row) => Some(row),
        _ => None,
    }
}

/// The row that is written, offered or given.
pub fn row_in<'a>(act: &'a Act, reply: &'a Reply) -> Option<&'a Row>
    ensures { option_copied result ≡ parts.row_in act.now reply.now }
{
    match act_row(act) {
        Some(row) => Some(row),
        None => reply_row(reply),
    }
}

fn wide(number: Option<u32>) -> Option<u64>
    ensures { result ≡ number }
{
    match number {
        None => None,
        Some(number) => Some(u64::from(number)),
    }
}

fn row_version(row: Option<&Row>) -> Option<u64>
    ensures { result ≡ parts.row_version (option_copied row.entry) }
{
    match row {
        None => None,
        Some(row) => wide(row.version),
    }
}

/// The version of the row, or of the copy for which a lock is taken.
pub fn version_in(act: &Act, reply: &Reply) -> Option<u64>
    ensures { result ≡ parts.version_in act.now reply.now }
{
    match act {
        Act::Lock { version, .. } => wide(*version),
        _ => row_version(row_in(act, reply)),
    }
}

/// The version that a change expects.
pub fn change_expected(change: &Change) -> Option<u64>
    ensures { result ≡ parts.change_expected change.now }
{
    match change {
        Change::Insert { .. } => None,
        Change::Update { expected, .. } | Change::Delete { expected, .. } => wide(*expected),
    }
}

/// The version that a commit will expect.
pub fn expected_in(act: &Act) -> Option<u64>
    ensures { result ≡ parts.expected_in act.now }
{
    match act {
        Act::Write(change) => change_expected(change),
        _ => None,
    }
}

/// The version that stood in the way.
pub fn found_in(reply: &Reply) -> Option<u64>
    ensures { result ≡ parts.found_in reply.now }
{
    match reply {
        Reply::Commit(Commit::Stale { found, .. }) => wide(*found),
        Reply::Put(Put::Present { version }) => wide(*version),
        Reply::Put(Put::Old { version }) => Some(u64::from(*version)),
        _ => None,
    }
}

/// The query that is asked, looked for or kept.
pub fn query_in(act: &Act) -> Option<QueryNo>
    ensures { result ≡ parts.query_in act.now }
{
    match act {
        Act::List { query }
        | Act::Check { query, .. }
        | Act::Look { query }
        | Act::Keep { query, .. } => Some(*query),
        _ => None,
    }
}

/// The query whose result has left.
pub fn dropped_in(reply: &Reply) -> Option<QueryNo>
    ensures { result ≡ parts.dropped_in reply.now }
{
    match reply {
        Reply::Kept { dropped } => *dropped,
        _ => None,
    }
}

/// The table for which a result is stale.
pub fn table_in(reply: &Reply) -> Option<EntityNo>
    ensures { result ≡ parts.table_in reply.now }
{
    match reply {
        Reply::Check(Checked::Stale { table, .. }) => Some(*table),
        _ => None,
    }
}

/// The tables that are stamped.
pub fn tables_in(act: &Act) -> Option<&Names>
    ensures { option_copied result ≡ parts.tables_in act.now }
{
    match act {
        Act::Pre { tables } | Act::Stamp { tables } => Some(tables),
        _ => None,
    }
}

fn act_list(act: &Act) -> Option<&Listing>
    ensures { option_copied result ≡ parts.act_list act.now }
{
    match act {
        Act::Keep { list, .. } => Some(list),
        _ => None,
    }
}

fn reply_list(reply: &Reply) -> Option<&Listing>
    ensures { option_copied result ≡ parts.reply_list reply.now }
{
    match reply {
        Reply::Listed(list) | Reply::Found { list, .. } => Some(list),
        _ => None,
    }
}

/// What a query gave.
pub fn list_in<'a>(act: &'a Act, reply: &'a Reply) -> Option<&'a Listing>
    ensures { option_copied result ≡ parts.list_in act.now reply.now }
{
    match act_list(act) {
        Some(list) => Some(list),
        None => reply_list(reply),
    }
}

fn act_time(act: &Act) -> Option<u64>
    ensures { result ≡ parts.act_time act.now }
{
    match act {
        Act::Check { time, .. }
        | Act::Keep { time, .. }
        | Act::Get { time, .. }
        | Act::Put { time, .. } => Some(time.0),
        _ => None,
    }
}

fn reply_time(reply: &Reply) -> Option<u64>
    ensures { result ≡ parts.reply_time reply.now }
{
    match reply {
        Reply::Found { time, .. } => Some(time.0),
        _ => None,
    }
}

/// The begin of the session, or of the session that kept a result.
pub fn time_in(act: &Act, reply: &Reply) -> Option<u64>
    ensures { result ≡ parts.time_in act.now reply.now }
{
    act_time(act).or(reply_time(reply))
}

fn act_floor(act: &Act) -> Option<u64>
    ensures { result ≡ parts.act_floor act.now }
{
    match act {
        Act::Put { floor, .. } | Act::Lock { floor, .. } | Act::AfterInsert { floor, .. } => Some(
            floor.0,
        ),
        _ => None,
    }
}

fn reply_floor(reply: &Reply) -> Option<u64>
    ensures { result ≡ parts.reply_floor reply.now }
{
    match reply {
        Reply::Began { floor } => Some(floor.0),
        _ => None,
    }
}

/// The least begin among the sessions that were open when this one began.
pub fn floor_in(act: &Act, reply: &Reply) -> Option<u64>
    ensures { result ≡ parts.floor_in act.now reply.now }
{
    act_floor(act).or(reply_floor(reply))
}

fn act_lock(act: &Act) -> Option<u64>
    ensures { result ≡ parts.act_lock act.now }
{
    match act {
        Act::Unlock { lock, .. } | Act::AfterUpdate { lock, .. } => Some(lock.0),
        _ => None,
    }
}

fn reply_lock(reply: &Reply) -> Option<u64>
    ensures { result ≡ parts.reply_lock reply.now }
{
    match reply {
        Reply::Locked(locked) => Some(locked.id.0),
        _ => None,
    }
}

/// The identifier of the lock that is taken or given back.
pub fn lock_in(act: &Act, reply: &Reply) -> Option<u64>
    ensures { result ≡ parts.lock_in act.now reply.now }
{
    act_lock(act).or(reply_lock(reply))
}

/// When the time of the lock is over.
pub fn until_in(reply: &Reply) -> Option<u64>
    ensures { result ≡ parts.until_in reply.now }
{
    match reply {
        Reply::Locked(locked) => Some(locked.until.0),
        _ => None,
    }
}

/// When the lock that is there was released.
pub fn released_in(reply: &Reply) -> Option<u64>
    ensures { result ≡ parts.released_in reply.now }
{
    match reply {
        Reply::Miss(Miss::Released { unlock }) | Reply::Put(Put::Early { unlock }) => Some(
            unlock.0,
        ),
        _ => None,
    }
}

/// When the item was stored that a get misses, if it is too young for the session: if it wasn't stored before the
/// session began.
pub fn stored_in(reply: &Reply) -> Option<u64>
    ensures { result ≡ parts.stored_in reply.now }
{
    match reply {
        Reply::Miss(Miss::Young { stamp }) => Some(stamp.0),
        _ => None,
    }
}

/// The stamp of a table.
pub fn stamp_in(reply: &Reply) -> Option<u64>
    ensures { result ≡ parts.stamp_in reply.now }
{
    match reply {
        Reply::Stamped { value } => Some(value.0),
        Reply::Check(Checked::Stale { stamp, .. }) => Some(stamp.0),
        _ => None,
    }
}

/// How many hold the lock.
pub fn holders_in(reply: &Reply) -> Option<u64>
    ensures { result ≡ parts.holders_in reply.now }
{
    match reply {
        Reply::Miss(Miss::Locked { holders })
        | Reply::Put(Put::Held { holders })
        | Reply::Unlocked(Unlocked::Released { holders })
        | Reply::Updated(Updated::Shared { holders }) => Some(*holders),
        _ => None,
    }
}

/// The identifier that had to leave a full region.
pub fn evicted_in(reply: &Reply) -> Option<u64>
    ensures { result ≡ parts.evicted_in reply.now }
{
    match reply {
        Reply::Put(Put::Stored { evicted, .. }) | Reply::Inserted(Inserted::Stored { evicted }) =>
            *evicted,
        Reply::Locked(locked) => locked.evicted,
        _ => None,
    }
}

/// Whether a row was stored over a lock whose time was over.
pub fn late_in(reply: &Reply) -> Option<bool>
    ensures { result ≡ parts.late_in reply.now }
{
    match reply {
        Reply::Put(Put::Stored { late, .. }) => Some(*late),
        _ => None,
    }
}
