// The reply that bytes look like, for the reader of journals. `x_of` makes one kind of reply, or a part of one, of its
// word and of the bytes after it, whether or not they have its form.
ghost use Rattle.hib_entry_texts.specs.Replies as format;
ghost use Rattle.std.specs.Prelude.{◌≡◌, IfOk};

use hib_base::{
    Act, Checked, Commit, Evicted, Inserted, Locked, Miss, Outcome, Put, QueryNo, Reply, Script,
    Tick, Unlocked, Updated,
};
use hib_entry_fields::{
    after_one, cells_at, entity_of, is, key_at, next, number_of, piece, query_of, row_at, small,
    version_of,
};
use std::alloc::{AllocError, Global};

fn outcome_of(word: &[u8]) -> Outcome
    ensures { result ≡ format.outcome_of word.now }
{
    if is(word, b"committed") {
        Outcome::Committed
    } else if is(word, b"rolled-back") {
        Outcome::RolledBack
    } else if is(word, b"stale") {
        Outcome::Stale
    } else if is(word, b"duplicate") {
        Outcome::Duplicate
    } else {
        Outcome::Fault
    }
}

fn read_of(alloc: Global, word: &[u8], bytes: &[u8]) -> Result<Reply, AllocError>
    ensures { IfOk result (λ r. r ≡ format.read_of word.now bytes.now) }
{
    if is(word, b"row") {
        let (row, _) = row_at(alloc, bytes)?;
        Ok(Reply::Row(Some(row)))
    } else if is(word, b"none") {
        Ok(Reply::Row(None))
    } else {
        Ok(Reply::Fault)
    }
}

fn persisted_of(word: &[u8]) -> Reply
    ensures { result ≡ format.persisted_of word.now }
{
    if is(word, b"new") {
        Reply::New
    } else {
        Reply::Known
    }
}

fn changed_of(word: &[u8]) -> Reply
    ensures { result ≡ format.changed_of word.now }
{
    if is(word, b"set") {
        Reply::Set
    } else if is(word, b"unknown") {
        Reply::Unknown
    } else {
        Reply::ReadOnly
    }
}

fn removed_of(word: &[u8]) -> Reply
    ensures { result ≡ format.removed_of word.now }
{
    if is(word, b"removed") {
        Reply::Removed
    } else {
        Reply::Unknown
    }
}

fn listed_of(alloc: Global, word: &[u8], bytes: &[u8]) -> Result<Reply, AllocError>
    ensures { IfOk result (λ r. r ≡ format.listed_of word.now bytes.now) }
{
    if is(word, b"list") {
        let (list, _) = cells_at(alloc, after_one(bytes))?;
        Ok(Reply::Listed(list))
    } else {
        Ok(Reply::Fault)
    }
}

fn found_of(word: &[u8]) -> Option<u32>
    ensures { result ≡ format.found_of word.now }
{
    if is(word, b"none") {
        None
    } else {
        version_of(word)
    }
}

fn commit_of(script: &Script, word: &[u8], bytes: &[u8]) -> Commit
    ensures { result ≡ format.commit_of script.now word.now bytes.now }
{
    if is(word, b"committed") {
        Commit::Committed
    } else if is(word, b"stale") {
        let (key, rest) = key_at(script, bytes);
        let (_, rest) = next(rest);
        let (found, _) = next(rest);
        Commit::Stale {
            key,
            found: found_of(found),
        }
    } else if is(word, b"duplicate") {
        let (key, _) = key_at(script, bytes);
        Commit::Duplicate { key }
    } else {
        Commit::Fault
    }
}

fn checked_of(script: &Script, word: &[u8], bytes: &[u8]) -> Checked
    ensures { result ≡ format.checked_of script.now word.now bytes.now }
{
    if is(word, b"fresh") {
        Checked::Fresh
    } else {
        let (name, rest) = next(bytes);
        let (stamp, _) = next(rest);
        Checked::Stale {
            table: entity_of(script, name),
            stamp: Tick(number_of(stamp)),
        }
    }
}

fn looked_of(alloc: Global, word: &[u8], bytes: &[u8]) -> Result<Reply, AllocError>
    ensures { IfOk result (λ r. r ≡ format.looked_of word.now bytes.now) }
{
    if is(word, b"found") {
        let (_, rest) = next(bytes);
        let (time, rest) = next(rest);
        let (list, _) = cells_at(alloc, after_one(rest))?;
        Ok(Reply::Found {
            time: Tick(number_of(time)),
            list,
        })
    } else {
        Ok(Reply::Absent)
    }
}

fn dropped_of(script: &Script, bytes: &[u8]) -> Option<QueryNo>
    ensures { result ≡ format.dropped_of script.now bytes.now }
{
    let (word, rest) = next(bytes);
    if is(word, b"dropped") {
        let (name, _) = next(rest);
        Some(query_of(script, name))
    } else {
        None
    }
}

fn miss_of(bytes: &[u8]) -> Miss
    ensures { result ≡ format.miss_of bytes.now }
{
    let (word, rest) = next(bytes);
    let (number, _) = next(rest);
    if is(word, b"locked") {
        Miss::Locked {
            holders: number_of(number),
        }
    } else if is(word, b"released") {
        Miss::Released {
            unlock: Tick(number_of(number)),
        }
    } else if is(word, b"young") {
        Miss::Young {
            stamp: Tick(number_of(number)),
        }
    } else {
        Miss::Absent
    }
}

fn got_of(alloc: Global, word: &[u8], bytes: &[u8]) -> Result<Reply, AllocError>
    ensures { IfOk result (λ r. r ≡ format.got_of word.now bytes.now) }
{
    if is(word, b"hit") {
        let (row, _) = row_at(alloc, bytes)?;
        Ok(Reply::Hit(row))
    } else {
        Ok(Reply::Miss(miss_of(bytes)))
    }
}

fn evicted_id_of(bytes: &[u8]) -> Option<u64>
    ensures { result ≡ format.evicted_id_of bytes.now }
{
    let (word, rest) = next(bytes);
    if is(word, b"evicted") {
        let (id, _) = next(rest);
        Some(number_of(id))
    } else {
        None
    }
}

fn late_of(bytes: &[u8]) -> bool
    ensures { result ≡ format.late_of bytes.now }
{
    let (word, rest) = next(bytes);
    if is(word, b"evicted") {
        let (_, rest) = next(rest);
        let (word, _) = next(rest);
        is(word, b"late")
    } else {
        is(word, b"late")
    }
}

fn put_reply_of(word: &[u8], bytes: &[u8]) -> Put
    ensures { result ≡ format.put_reply_of word.now bytes.now }
{
    let (first, _) = next(bytes);
    if is(word, b"stored") {
        Put::Stored {
            evicted: evicted_id_of(bytes),
            late: late_of(bytes),
        }
    } else if is(word, b"present") {
        Put::Present {
            version: version_of(first),
        }
    } else if is(word, b"held") {
        Put::Held {
            holders: number_of(first),
        }
    } else if is(word, b"early") {
        Put::Early {
            unlock: Tick(number_of(first)),
        }
    } else if is(word, b"old") {
        Put::Old {
            version: small(number_of(after_one(first))),
        }
    } else {
        Put::Crowded
    }
}

fn locked_of(bytes: &[u8]) -> Locked
    ensures { result ≡ format.locked_of bytes.now }
{
    let (id, rest) = next(bytes);
    let (_, rest) = next(rest);
    let (until, rest) = next(rest);
    Locked {
        id: Tick(number_of(id)),
        until: Tick(number_of(until)),
        evicted: evicted_id_of(rest),
    }
}

fn unlocked_of(word: &[u8], bytes: &[u8]) -> Unlocked
    ensures { result ≡ format.unlocked_of word.now bytes.now }
{
    if is(word, b"released") {
        Unlocked::Released {
            holders: number_of(next(bytes).0),
        }
    } else {
        Unlocked::Expired
    }
}

fn inserted_of(word: &[u8], bytes: &[u8]) -> Inserted
    ensures { result ≡ format.inserted_of word.now bytes.now }
{
    if is(word, b"stored") {
        Inserted::Stored {
            evicted: evicted_id_of(bytes),
        }
    } else if is(word, b"present") {
        Inserted::Present
    } else {
        Inserted::Crowded
    }
}

fn updated_of(word: &[u8], bytes: &[u8]) -> Updated
    ensures { result ≡ format.updated_of word.now bytes.now }
{
    if is(word, b"stored") {
        Updated::Stored
    } else if is(word, b"shared") {
        Updated::Shared {
            holders: number_of(next(bytes).0),
        }
    } else {
        Updated::Expired
    }
}

fn dropped_reply_of(word: &[u8]) -> Reply
    ensures { result ≡ format.dropped_reply_of word.now }
{
    if is(word, b"dropped") {
        Reply::Dropped
    } else {
        Reply::Absent
    }
}

fn evicted_of(word: &[u8]) -> Evicted
    ensures { result ≡ format.evicted_of word.now }
{
    if is(word, b"evicted") {
        Evicted::Gone
    } else if is(word, b"held") {
        Evicted::Held
    } else {
        Evicted::Absent
    }
}

/// The reply to this act that bytes look like. Fails for want of memory alone.
#[tactic(auto, unfolding(crate::specs::Replies::reply_of))]
pub fn reply_of(
    alloc: Global,
    script: &Script,
    act: &Act,
    bytes: &[u8],
) -> Result<Reply, AllocError>
    ensures { IfOk result (λ r. r ≡ format.reply_of script.now act.now bytes.now) }
{
    let (word, rest) = piece(bytes);
    match act {
        Act::Begin => Ok(Reply::Began {
            floor: Tick(number_of(next(rest).0)),
        }),
        Act::End => Ok(Reply::Ended {
            outcome: outcome_of(word),
        }),
        Act::Kill { .. } | Act::Restart | Act::Rollback => Ok(Reply::Done),
        Act::Find { .. } | Act::Load { .. } => read_of(alloc, word, rest),
        Act::Persist { .. } => Ok(persisted_of(word)),
        Act::Set { .. } => Ok(changed_of(word)),
        Act::Remove { .. } => Ok(removed_of(word)),
        Act::Clear => Ok(Reply::Cleared),
        Act::List { .. } => listed_of(alloc, word, rest),
        Act::Write(_) => Ok(Reply::Written),
        Act::Commit => Ok(Reply::Commit(commit_of(script, word, rest))),
        Act::Pre { .. } | Act::Stamp { .. } => Ok(Reply::Stamped {
            value: Tick(number_of(word)),
        }),
        Act::Check { .. } => Ok(Reply::Check(checked_of(script, word, rest))),
        Act::Look { .. } => looked_of(alloc, word, rest),
        Act::Keep { .. } => Ok(Reply::Kept {
            dropped: dropped_of(script, rest),
        }),
        Act::Get { .. } => got_of(alloc, word, rest),
        Act::Put { .. } => Ok(Reply::Put(put_reply_of(word, rest))),
        Act::Lock { .. } => Ok(Reply::Locked(locked_of(rest))),
        Act::Unlock { .. } => Ok(Reply::Unlocked(unlocked_of(word, rest))),
        Act::AfterInsert { .. } => Ok(Reply::Inserted(inserted_of(word, rest))),
        Act::AfterUpdate { .. } => Ok(Reply::Updated(updated_of(word, rest))),
        Act::RegionRemove { .. } => Ok(dropped_reply_of(word)),
        Act::Evict { .. } => Ok(Reply::Evicted(evicted_of(word))),
    }
}
