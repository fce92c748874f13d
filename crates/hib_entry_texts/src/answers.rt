// Which replies may answer an act, with numbers and names that the script has. Each `is_...` below tests a reply, or a
// part of one, of the kind that it is named by.
ghost use Rattle.hib_entry_texts.specs.WellFormed as format;
ghost use Rattle.std.specs.Prelude.{◌≡◌};

use hib_base::{
    Act, Checked, Commit, Inserted, Locked, Miss, Put, QueryNo, Reply, Row, Script, Unlocked,
    Updated,
};
use hib_entry_fields::{
    are_cells, is_entity, is_identifier, is_key, is_query, is_row, is_tick, is_version,
};

fn is_read(row: &Option<Row>) -> bool
    ensures { result ≡ format.is_read row.now }
{
    match row {
        None => true,
        Some(row) => is_row(row),
    }
}

fn is_commit(script: &Script, commit: Commit) -> bool
    ensures { result ≡ format.is_commit script.now commit }
{
    match commit {
        Commit::Stale { key, found } => is_key(script, key) && is_version(found),
        Commit::Duplicate { key } => is_key(script, key),
        Commit::Committed | Commit::Fault => true,
    }
}

fn is_check(script: &Script, checked: Checked) -> bool
    ensures { result ≡ format.is_check script.now checked }
{
    match checked {
        Checked::Fresh => true,
        Checked::Stale { table, stamp } => is_entity(script, table) && is_tick(stamp),
    }
}

fn is_dropped_query(script: &Script, dropped: Option<QueryNo>) -> bool
    ensures { result ≡ format.is_dropped_query script.now dropped }
{
    match dropped {
        None => true,
        Some(query) => is_query(script, query),
    }
}

// Whether a number is a count: each that the type holds is.
fn is_count(n: u64) -> bool
    ensures { result ≡ format.is_count n }
{
    n <= u64::MAX
}

fn is_miss(miss: Miss) -> bool
    ensures { result ≡ format.is_miss miss }
{
    match miss {
        Miss::Absent => true,
        Miss::Locked { holders } => is_count(holders),
        Miss::Released { unlock } => is_tick(unlock),
        Miss::Young { stamp } => is_tick(stamp),
    }
}

fn is_evicted_id(id: Option<u64>) -> bool
    ensures { result ≡ format.is_evicted_id id }
{
    match id {
        None => true,
        Some(id) => is_identifier(id),
    }
}

fn is_put(put: Put) -> bool
    ensures { result ≡ format.is_put put }
{
    match put {
        Put::Stored { evicted, .. } => is_evicted_id(evicted),
        Put::Present { version } => is_version(version),
        Put::Held { holders } => is_count(holders),
        Put::Early { unlock } => is_tick(unlock),
        Put::Old { version } => is_version(Some(version)),
        Put::Crowded => true,
    }
}

fn is_lock(locked: Locked) -> bool
    ensures { result ≡ format.is_lock locked }
{
    is_tick(locked.id) && is_tick(locked.until) && is_evicted_id(locked.evicted)
}

fn is_unlock(unlocked: Unlocked) -> bool
    ensures { result ≡ format.is_unlock unlocked }
{
    match unlocked {
        Unlocked::Released { holders } => is_count(holders),
        Unlocked::Expired => true,
    }
}

fn is_insert(inserted: Inserted) -> bool
    ensures { result ≡ format.is_insert inserted }
{
    match inserted {
        Inserted::Stored { evicted } => is_evicted_id(evicted),
        Inserted::Present | Inserted::Crowded => true,
    }
}

fn is_update(updated: Updated) -> bool
    ensures { result ≡ format.is_update updated }
{
    match updated {
        Updated::Shared { holders } => is_count(holders),
        Updated::Stored | Updated::Expired => true,
    }
}

fn is_begun(reply: &Reply) -> bool
    ensures { result ≡ format.is_begun reply.now }
{
    match reply {
        Reply::Began { floor } => is_tick(*floor),
        _ => false,
    }
}

fn is_ended(reply: &Reply) -> bool
    ensures { result ≡ format.is_ended reply.now }
{
    matches!(reply, Reply::Ended { .. })
}

fn is_done(reply: &Reply) -> bool
    ensures { result ≡ format.is_done reply.now }
{
    matches!(reply, Reply::Done)
}

fn is_found(reply: &Reply) -> bool
    ensures { result ≡ format.is_found reply.now }
{
    match reply {
        Reply::Row(row) => is_read(row),
        _ => false,
    }
}

fn is_persisted(reply: &Reply) -> bool
    ensures { result ≡ format.is_persisted reply.now }
{
    matches!(reply, Reply::New | Reply::Known)
}

fn is_changed(reply: &Reply) -> bool
    ensures { result ≡ format.is_changed reply.now }
{
    matches!(reply, Reply::Set | Reply::Unknown | Reply::ReadOnly)
}

fn is_removed(reply: &Reply) -> bool
    ensures { result ≡ format.is_removed reply.now }
{
    matches!(reply, Reply::Removed | Reply::Unknown)
}

fn is_cleared(reply: &Reply) -> bool
    ensures { result ≡ format.is_cleared reply.now }
{
    matches!(reply, Reply::Cleared)
}

fn is_loaded(reply: &Reply) -> bool
    ensures { result ≡ format.is_loaded reply.now }
{
    match reply {
        Reply::Row(row) => is_read(row),
        Reply::Fault => true,
        _ => false,
    }
}

fn is_listed(reply: &Reply) -> bool
    ensures { result ≡ format.is_listed reply.now }
{
    match reply {
        Reply::Listed(list) => are_cells(list.as_slice()),
        Reply::Fault => true,
        _ => false,
    }
}

fn is_written(reply: &Reply) -> bool
    ensures { result ≡ format.is_written reply.now }
{
    matches!(reply, Reply::Written)
}

fn is_committed(script: &Script, reply: &Reply) -> bool
    ensures { result ≡ format.is_committed script.now reply.now }
{
    match reply {
        Reply::Commit(commit) => is_commit(script, *commit),
        _ => false,
    }
}

fn is_stamped(reply: &Reply) -> bool
    ensures { result ≡ format.is_stamped reply.now }
{
    match reply {
        Reply::Stamped { value } => is_tick(*value),
        _ => false,
    }
}

fn is_checked(script: &Script, reply: &Reply) -> bool
    ensures { result ≡ format.is_checked script.now reply.now }
{
    match reply {
        Reply::Check(checked) => is_check(script, *checked),
        _ => false,
    }
}

fn is_looked(reply: &Reply) -> bool
    ensures { result ≡ format.is_looked reply.now }
{
    match reply {
        Reply::Found { time, list } => is_tick(*time) && are_cells(list.as_slice()),
        Reply::Absent => true,
        _ => false,
    }
}

fn is_kept(script: &Script, reply: &Reply) -> bool
    ensures { result ≡ format.is_kept script.now reply.now }
{
    match reply {
        Reply::Kept { dropped } => is_dropped_query(script, *dropped),
        _ => false,
    }
}

fn is_got(reply: &Reply) -> bool
    ensures { result ≡ format.is_got reply.now }
{
    match reply {
        Reply::Hit(row) => is_row(row),
        Reply::Miss(miss) => is_miss(*miss),
        _ => false,
    }
}

fn is_stored(reply: &Reply) -> bool
    ensures { result ≡ format.is_stored reply.now }
{
    match reply {
        Reply::Put(put) => is_put(*put),
        _ => false,
    }
}

fn is_locked(reply: &Reply) -> bool
    ensures { result ≡ format.is_locked reply.now }
{
    match reply {
        Reply::Locked(locked) => is_lock(*locked),
        _ => false,
    }
}

fn is_unlocked(reply: &Reply) -> bool
    ensures { result ≡ format.is_unlocked reply.now }
{
    match reply {
        Reply::Unlocked(unlocked) => is_unlock(*unlocked),
        _ => false,
    }
}

fn is_inserted(reply: &Reply) -> bool
    ensures { result ≡ format.is_inserted reply.now }
{
    match reply {
        Reply::Inserted(inserted) => is_insert(*inserted),
        _ => false,
    }
}

fn is_updated(reply: &Reply) -> bool
    ensures { result ≡ format.is_updated reply.now }
{
    match reply {
        Reply::Updated(updated) => is_update(*updated),
        _ => false,
    }
}

fn is_dropped(reply: &Reply) -> bool
    ensures { result ≡ format.is_dropped reply.now }
{
    matches!(reply, Reply::Dropped | Reply::Absent)
}

fn is_evicted(reply: &Reply) -> bool
    ensures { result ≡ format.is_evicted reply.now }
{
    matches!(reply, Reply::Evicted(_))
}

/// Whether a reply is of a kind that may answer this act, and has the script's names and numbers in their ranges alone.
/// The reader of journals refuses any other.
pub fn is_reply(script: &Script, act: &Act, reply: &Reply) -> bool
    ensures { result ≡ format.is_reply script.now act.now reply.now }
{
    match act {
        Act::Begin => is_begun(reply),
        Act::End => is_ended(reply),
        Act::Kill { .. } | Act::Restart | Act::Rollback => is_done(reply),
        Act::Find { .. } => is_found(reply),
        Act::Persist { .. } => is_persisted(reply),
        Act::Set { .. } => is_changed(reply),
        Act::Remove { .. } => is_removed(reply),
        Act::Clear => is_cleared(reply),
        Act::Load { .. } => is_loaded(reply),
        Act::List { .. } => is_listed(reply),
        Act::Write(_) => is_written(reply),
        Act::Commit => is_committed(script, reply),
        Act::Pre { .. } | Act::Stamp { .. } => is_stamped(reply),
        Act::Check { .. } => is_checked(script, reply),
        Act::Look { .. } => is_looked(reply),
        Act::Keep { .. } => is_kept(script, reply),
        Act::Get { .. } => is_got(reply),
        Act::Put { .. } => is_stored(reply),
        Act::Lock { .. } => is_locked(reply),
        Act::Unlock { .. } => is_unlocked(reply),
        Act::AfterInsert { .. } => is_inserted(reply),
        Act::AfterUpdate { .. } => is_updated(reply),
        Act::RegionRemove { .. } => is_dropped(reply),
        Act::Evict { .. } => is_evicted(reply),
    }
}
