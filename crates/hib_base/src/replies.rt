// What the parts answer.
ghost use Rattle.hib_base.specs.declared.replies.Reply.{Reply};
ghost use Rattle.std.specs.Prelude.{◌≡◌, IfOk, Option};

use crate::numbers::{EntityNo, Key, QueryNo, Tick};
use crate::rows::{Listing, Row, copy_cells};
use std::alloc::{AllocError, Global};

/// How a transaction ended.
#[derive(Clone, Copy, Debug, PartialEq, Eq)]
pub enum Outcome {
    /// Its changes are committed.
    Committed,
    /// It was rolled back by its own statement.
    RolledBack,
    /// A change met another version than it expected, or no row.
    Stale,
    /// An insert met a row.
    Duplicate,
    /// The keeper failed.
    Fault,
}

/// The store's answer to a commit.
#[derive(Clone, Copy, Debug, PartialEq, Eq)]
pub enum Commit {
    /// All changes were applied.
    Committed,
    /// The row of this key has another version than expected, or there is none; nothing was applied.
    Stale {
        /// The key of the first change that failed.
        key: Key,
        /// The version of the row that was found, or none.
        found: Option<u32>,
    },
    /// A row of this key is there already; nothing was applied.
    Duplicate {
        /// The key of the first change that failed.
        key: Key,
    },
    /// The keeper failed; nothing was applied.
    Fault,
}

/// Whether a kept result may be used.
#[derive(Clone, Copy, Debug, PartialEq, Eq)]
pub enum Checked {
    /// No table was updated since.
    Fresh,
    /// This table's stamp isn't before the result's time.
    Stale {
        /// The first such table in the mapping's order.
        table: EntityNo,
        /// Its stamp.
        stamp: Tick,
    },
}

/// Why a region answers no row.
#[derive(Clone, Copy, Debug, PartialEq, Eq)]
pub enum Miss {
    /// The key has no entry.
    Absent,
    /// The key is locked.
    Locked {
        /// How many hold the lock.
        holders: u64,
    },
    /// The key has a lock that nobody holds.
    Released {
        /// When the last holder let go.
        unlock: Tick,
    },
    /// The item is younger than the reader.
    Young {
        /// When it was stored.
        stamp: Tick,
    },
}

/// A region's answer to a reader.
pub enum Got<'a> {
    /// The row that may be read.
    Hit(&'a Row),
    /// There is none, for this cause.
    Miss(Miss),
}

/// A region's answer to a row that was loaded.
#[derive(Clone, Copy, Debug, PartialEq, Eq)]
pub enum Put {
    /// The row is the key's item now.
    Stored {
        /// The identifier that had to leave, if one had to.
        evicted: Option<u64>,
        /// Whether it was stored over a lock whose time was over.
        late: bool,
    },
    /// An item is there that isn't older.
    Present {
        /// Its version.
        version: Option<u32>,
    },
    /// The key is locked.
    Held {
        /// How many hold the lock.
        holders: u64,
    },
    /// The lock was let go after the reader began.
    Early {
        /// When that was.
        unlock: Tick,
    },
    /// The lock stands for a row that isn't older.
    Old {
        /// The version of that row.
        version: u32,
    },
    /// The region is full, and nothing in it may leave.
    Crowded,
}

/// A soft lock that was taken.
#[derive(Clone, Copy, Debug, PartialEq, Eq)]
pub struct Locked {
    /// The lock's number.
    pub id: Tick,
    /// When its time is over.
    pub until: Tick,
    /// The identifier that had to leave, if one had to.
    pub evicted: Option<u64>,
}

/// A region's answer to a holder that gives its lock back.
#[derive(Clone, Copy, Debug, PartialEq, Eq)]
pub enum Unlocked {
    /// It holds the lock no more.
    Released {
        /// How many hold it still.
        holders: u64,
    },
    /// The lock wasn't there any more.
    Expired,
}

/// A region's answer to a row whose insert was committed.
#[derive(Clone, Copy, Debug, PartialEq, Eq)]
pub enum Inserted {
    /// The row is the key's item now.
    Stored {
        /// The identifier that had to leave, if one had to.
        evicted: Option<u64>,
    },
    /// The key has an entry.
    Present,
    /// The region is full, and nothing in it may leave.
    Crowded,
}

/// A region's answer to a row whose update was committed.
#[derive(Clone, Copy, Debug, PartialEq, Eq)]
pub enum Updated {
    /// The row is the key's item now.
    Stored,
    /// Others have locked the key too: the lock was given back alone.
    Shared {
        /// How many hold it still.
        holders: u64,
    },
    /// The lock wasn't there any more.
    Expired,
}

/// A region's answer to an eviction from outside.
#[derive(Clone, Copy, Debug, PartialEq, Eq)]
pub enum Evicted {
    /// The item is gone.
    Gone,
    /// The key is locked; the lock stays.
    Held,
    /// The key has no entry.
    Absent,
}

/// What was answered to an act.
#[derive(PartialEq, Eq)]
pub enum Reply {
    /// To a begin.
    Began {
        /// The least time among the sessions that are open, this one among them.
        floor: Tick,
    },
    /// To an end.
    Ended {
        /// How the transaction ended.
        outcome: Outcome,
    },
    /// To a kill, a restart or a rollback.
    Done,
    /// To a find or a load: the row, if there is one.
    Row(Option<Row>),
    /// To a persist: the session holds the row now.
    New,
    /// To a persist: nothing has changed, since the session holds the key or has written it.
    Known,
    /// To a set: the cells are set.
    Set,
    /// To a set or a removal: nothing has changed, since the session doesn't hold the key, or has marked it for
    /// deletion.
    Unknown,
    /// To a set: nothing has changed, since rows of the entity are never updated.
    ReadOnly,
    /// To a removal: the row is marked, or forgotten.
    Removed,
    /// To a clear.
    Cleared,
    /// To a list: what the query gives.
    Listed(Listing),
    /// To a load or a list: the keeper failed.
    Fault,
    /// To a write.
    Written,
    /// To a commit.
    Commit(Commit),
    /// To both kinds of stamping.
    Stamped {
        /// The stamp, which is in the future before a flush.
        value: Tick,
    },
    /// To a check.
    Check(Checked),
    /// To a look: there is a kept result.
    Found {
        /// Its time.
        time: Tick,
        /// What the query gave.
        list: Listing,
    },
    /// To a look or a removal in a region: there is none.
    Absent,
    /// To a keep.
    Kept {
        /// The query whose result had to leave, if one had to.
        dropped: Option<QueryNo>,
    },
    /// To a get: the row of the item.
    Hit(Row),
    /// To a get: there is no row for this session.
    Miss(Miss),
    /// To a put.
    Put(Put),
    /// To a lock.
    Locked(Locked),
    /// To an unlock.
    Unlocked(Unlocked),
    /// To a row whose insert was committed.
    Inserted(Inserted),
    /// To a row whose update was committed.
    Updated(Updated),
    /// To a removal in a region: the item is gone.
    Dropped,
    /// To an eviction.
    Evicted(Evicted),
}

// By hand: so a function that lets a reply go has one call for it, and not a case for each variant.
impl Drop for Reply {
    fn drop(self) {
        match self {
            Reply::Began { floor: _ } => {}
            Reply::Ended { outcome: _ } => {}
            Reply::Done => {}
            Reply::Row(_) => {}
            Reply::New => {}
            Reply::Known => {}
            Reply::Set => {}
            Reply::Unknown => {}
            Reply::ReadOnly => {}
            Reply::Removed => {}
            Reply::Cleared => {}
            Reply::Listed(_) => {}
            Reply::Fault => {}
            Reply::Written => {}
            Reply::Commit(_) => {}
            Reply::Stamped { value: _ } => {}
            Reply::Check(_) => {}
            Reply::Found { time: _, list: _ } => {}
            Reply::Absent => {}
            Reply::Kept { dropped: _ } => {}
            Reply::Hit(_) => {}
            Reply::Miss(_) => {}
            Reply::Put(_) => {}
            Reply::Locked(_) => {}
            Reply::Unlocked(_) => {}
            Reply::Inserted(_) => {}
            Reply::Updated(_) => {}
            Reply::Dropped => {}
            Reply::Evicted(_) => {}
        }
    }
}

impl Reply {
    /// The row that a find or a load is answered, if there is one; none of any other reply.
    pub fn into_row(self) -> Option<Row>
        ensures row { (row : Option Row) → self ≡ Reply.Row row → result ≡ row }
        ensures other { ((row : Option Row) → self ≡ Reply.Row row → ⊥) → result ≡ None }
    {
        match self {
            Reply::Row(row) => row,
            _ => None,
        }
    }

    /// An equal reply. Fails for want of memory alone.
    pub fn copy(&self, alloc: Global) -> Result<Reply, AllocError>
        ensures { IfOk result (λ r. r ≡ self.now) }
    {
        match self {
            Reply::Began { floor } => Ok(Reply::Began { floor: *floor }),
            Reply::Ended { outcome } => Ok(Reply::Ended { outcome: *outcome }),
            Reply::Done => Ok(Reply::Done),
            Reply::Row(None) => Ok(Reply::Row(None)),
            Reply::Row(Some(row)) => Ok(Reply::Row(Some(row.copy(alloc)?))),
            Reply::New => Ok(Reply::New),
            Reply::Known => Ok(Reply::Known),
            Reply::Set => Ok(Reply::Set),
            Reply::Unknown => Ok(Reply::Unknown),
            Reply::ReadOnly => Ok(Reply::ReadOnly),
            Reply::Removed => Ok(Reply::Removed),
            Reply::Cleared => Ok(Reply::Cleared),
            Reply::Listed(list) => Ok(Reply::Listed(copy_cells(alloc, list)?)),
            Reply::Fault => Ok(Reply::Fault),
            Reply::Written => Ok(Reply::Written),
            Reply::Commit(commit) => Ok(Reply::Commit(*commit)),
            Reply::Stamped { value } => Ok(Reply::Stamped { value: *value }),
            Reply::Check(checked) => Ok(Reply::Check(*checked)),
            Reply::Found { time, list } => Ok(Reply::Found {
                time: *time,
                list: copy_cells(alloc, list)?,
            }),
            Reply::Absent => Ok(Reply::Absent),
            Reply::Kept { dropped } => Ok(Reply::Kept { dropped: *dropped }),
            Reply::Hit(row) => Ok(Reply::Hit(row.copy(alloc)?)),
            Reply::Miss(miss) => Ok(Reply::Miss(*miss)),
            Reply::Put(put) => Ok(Reply::Put(*put)),
            Reply::Locked(locked) => Ok(Reply::Locked(*locked)),
            Reply::Unlocked(unlocked) => Ok(Reply::Unlocked(*unlocked)),
            Reply::Inserted(inserted) => Ok(Reply::Inserted(*inserted)),
            Reply::Updated(updated) => Ok(Reply::Updated(*updated)),
            Reply::Dropped => Ok(Reply::Dropped),
            Reply::Evicted(evicted) => Ok(Reply::Evicted(*evicted)),
        }
    }
}
