// The entries of a journal: who did what on which part, and what was answered.
ghost use Rattle.hib_base.specs.declared.entries.Act.{Act};
ghost use Rattle.std.specs.Prelude.{◌≡◌, IfOk};

use crate::numbers::{EntityNo, Key, QueryNo, SessionNo, Tick};
use crate::replies::Reply;
use crate::rows::{Change, Listing, Names, Row, Sets, copy_cells, copy_names, copy_sets};
use std::alloc::{AllocError, Global};

/// A part of the factory, or what is a session's own.
#[derive(Clone, Copy, Debug, PartialEq, Eq)]
pub enum Part {
    /// Knows which sessions are open.
    Registry,
    /// The committed rows, and what each session has written and not committed.
    Store,
    /// The update timestamps: of each table the tick of its last update.
    Stamps,
    /// The query cache: the kept results.
    Results,
    /// The second-level cache of an entity's rows.
    Region(EntityNo),
    /// A session's own memory, its identity map.
    Own(SessionNo),
}

/// What is done to a part, in one atomic step. In all of these, `time` is the tick at which the transaction of the
/// session began, and `floor` is the least time among the sessions that were open then, its own among them.
#[derive(PartialEq, Eq)]
pub enum Act {
    /// A transaction begins.
    Begin,
    /// A transaction ends, after all that completes it.
    End,
    /// From outside: a session is stopped where it stands. Its locks stay.
    Kill {
        /// The session, which is open.
        session: SessionNo,
    },
    /// From outside: regions, stamps and results are emptied, and every open session is killed.
    Restart,
    /// A session looks up a row that it holds.
    Find {
        /// The row's key.
        key: Key,
    },
    /// A session makes a new row, which the store doesn't see yet.
    Persist {
        /// The new row's key.
        key: Key,
        /// The new row: its version is 0, or none if its entity has none.
        row: Row,
    },
    /// A session sets cells of a row that it holds.
    Set {
        /// The row's key.
        key: Key,
        /// The new cells, each with the place of its column.
        cells: Sets,
    },
    /// A session marks a row that it holds for deletion, or forgets one that it made.
    Remove {
        /// The row's key.
        key: Key,
    },
    /// A session forgets all that it holds.
    Clear,
    /// The store is asked for a row.
    Load {
        /// The row's key.
        key: Key,
    },
    /// The store is asked for what a query gives.
    List {
        /// The query.
        query: QueryNo,
    },
    /// A change is written, for its session alone until the commit.
    Write(Change),
    /// The written changes are committed, all or none.
    Commit,
    /// The written changes are dropped.
    Rollback,
    /// Pre-invalidation: before a flush writes, the tables that it changes are stamped ahead of time.
    Pre {
        /// The tables, in the mapping's order.
        tables: Names,
    },
    /// Invalidation: after a commit or a rollback the tables that the session has written are stamped.
    Stamp {
        /// The tables, in the mapping's order.
        tables: Names,
    },
    /// Whether a kept result may be used is asked of the stamps.
    Check {
        /// The query.
        query: QueryNo,
        /// The time of the result, which is that of the session that kept it.
        time: Tick,
    },
    /// A kept result is looked for.
    Look {
        /// The query.
        query: QueryNo,
    },
    /// A result is kept, in the place of an older one.
    Keep {
        /// The query.
        query: QueryNo,
        /// The session's time.
        time: Tick,
        /// What the query gave.
        list: Listing,
    },
    /// A region is asked for a row.
    Get {
        /// The row's key.
        key: Key,
        /// The session's time.
        time: Tick,
    },
    /// A row that was loaded is offered to its region.
    Put {
        /// The row's key.
        key: Key,
        /// The row.
        row: Row,
        /// The session's time.
        time: Tick,
        /// The session's floor.
        floor: Tick,
    },
    /// A soft lock is taken, before the first write of a key.
    Lock {
        /// The key.
        key: Key,
        /// The version of the row that the session changes; none if there is none, or if it may be old.
        version: Option<u32>,
        /// The session's floor.
        floor: Tick,
    },
    /// A soft lock is given back without a row.
    Unlock {
        /// The key.
        key: Key,
        /// The lock's number.
        lock: Tick,
    },
    /// A row whose insert was committed is offered to its region.
    AfterInsert {
        /// The row's key.
        key: Key,
        /// The row.
        row: Row,
        /// The session's floor.
        floor: Tick,
    },
    /// A soft lock is given back with the row whose update was committed.
    AfterUpdate {
        /// The row's key.
        key: Key,
        /// The lock's number.
        lock: Tick,
        /// The row.
        row: Row,
    },
    /// An item leaves a region that has no locks, since its row is written.
    RegionRemove {
        /// The row's key.
        key: Key,
    },
    /// From outside: an item leaves its region.
    Evict {
        /// The row's key.
        key: Key,
    },
}

// By hand: so a function that lets an act go has one call for it, and not a case for each variant.
impl Drop for Act {
    fn drop(self) {
        match self {
            Act::Begin => {}
            Act::End => {}
            Act::Kill { session: _ } => {}
            Act::Restart => {}
            Act::Find { key: _ } => {}
            Act::Persist { key: _, row: _ } => {}
            Act::Set { key: _, cells: _ } => {}
            Act::Remove { key: _ } => {}
            Act::Clear => {}
            Act::Load { key: _ } => {}
            Act::List { query: _ } => {}
            Act::Write(_) => {}
            Act::Commit => {}
            Act::Rollback => {}
            Act::Pre { tables: _ } => {}
            Act::Stamp { tables: _ } => {}
            Act::Check { query: _, time: _ } => {}
            Act::Look { query: _ } => {}
            Act::Keep {
                query: _,
                time: _,
                list: _,
            } => {}
            Act::Get { key: _, time: _ } => {}
            Act::Put {
                key: _,
                row: _,
                time: _,
                floor: _,
            } => {}
            Act::Lock {
                key: _,
                version: _,
                floor: _,
            } => {}
            Act::Unlock { key: _, lock: _ } => {}
            Act::AfterInsert {
                key: _,
                row: _,
                floor: _,
            } => {}
            Act::AfterUpdate {
                key: _,
                lock: _,
                row: _,
            } => {}
            Act::RegionRemove { key: _ } => {}
            Act::Evict { key: _ } => {}
        }
    }
}

/// One atomic step.
#[derive(Drop, PartialEq, Eq)]
pub struct Entry {
    /// When it was.
    pub tick: Tick,
    /// The session that did it; none if it came from outside.
    pub session: Option<SessionNo>,
    /// The part that it touched.
    pub part: Part,
    /// What was done.
    pub act: Act,
    /// What was answered.
    pub reply: Reply,
}

// The acts that own memory, each made of a copy by itself: so the copy of an act lets go of one thing at most.

fn persisted(alloc: Global, key: Key, row: &Row) -> Result<Act, AllocError>
    ensures { IfOk result (λ a. a ≡ Act.Persist key row.now) }
{
    let row = row.copy(alloc)?;
    Ok(Act::Persist { key, row })
}

fn set(alloc: Global, key: Key, cells: &Sets) -> Result<Act, AllocError>
    ensures { IfOk result (λ a. a ≡ Act.Set key cells.now) }
{
    let cells = copy_sets(alloc, cells)?;
    Ok(Act::Set { key, cells })
}

fn written(alloc: Global, change: &Change) -> Result<Act, AllocError>
    ensures { IfOk result (λ a. a ≡ Act.Write change.now) }
{
    Ok(Act::Write(change.copy(alloc)?))
}

fn announced(alloc: Global, tables: &Names) -> Result<Act, AllocError>
    ensures { IfOk result (λ a. a ≡ Act.Pre tables.now) }
{
    let tables = copy_names(alloc, tables)?;
    Ok(Act::Pre { tables })
}

fn stamped(alloc: Global, tables: &Names) -> Result<Act, AllocError>
    ensures { IfOk result (λ a. a ≡ Act.Stamp tables.now) }
{
    let tables = copy_names(alloc, tables)?;
    Ok(Act::Stamp { tables })
}

fn kept(alloc: Global, query: QueryNo, time: Tick, list: &Listing) -> Result<Act, AllocError>
    ensures { IfOk result (λ a. a ≡ Act.Keep query time list.now) }
{
    let list = copy_cells(alloc, list)?;
    Ok(Act::Keep { query, time, list })
}

fn put(alloc: Global, key: Key, row: &Row, time: Tick, floor: Tick) -> Result<Act, AllocError>
    ensures { IfOk result (λ a. a ≡ Act.Put key row.now time floor) }
{
    let row = row.copy(alloc)?;
    Ok(Act::Put {
        key,
        row,
        time,
        floor,
    })
}

fn inserted(alloc: Global, key: Key, row: &Row, floor: Tick) -> Result<Act, AllocError>
    ensures { IfOk result (λ a. a ≡ Act.AfterInsert key row.now floor) }
{
    let row = row.copy(alloc)?;
    Ok(Act::AfterInsert { key, row, floor })
}

fn updated(alloc: Global, key: Key, lock: Tick, row: &Row) -> Result<Act, AllocError>
    ensures { IfOk result (λ a. a ≡ Act.AfterUpdate key lock row.now) }
{
    let row = row.copy(alloc)?;
    Ok(Act::AfterUpdate { key, lock, row })
}

impl Act {
    /// An equal act. Fails for want of memory alone.
    pub fn copy(&self, alloc: Global) -> Result<Act, AllocError>
        ensures { IfOk result (λ a. a ≡ self.now) }
    {
        match self {
            Act::Begin => Ok(Act::Begin),
            Act::End => Ok(Act::End),
            Act::Kill { session } => Ok(Act::Kill { session: *session }),
            Act::Restart => Ok(Act::Restart),
            Act::Find { key } => Ok(Act::Find { key: *key }),
            Act::Persist { key, row } => persisted(alloc, *key, row),
            Act::Set { key, cells } => set(alloc, *key, cells),
            Act::Remove { key } => Ok(Act::Remove { key: *key }),
            Act::Clear => Ok(Act::Clear),
            Act::Load { key } => Ok(Act::Load { key: *key }),
            Act::List { query } => Ok(Act::List { query: *query }),
            Act::Write(change) => written(alloc, change),
            Act::Commit => Ok(Act::Commit),
            Act::Rollback => Ok(Act::Rollback),
            Act::Pre { tables } => announced(alloc, tables),
            Act::Stamp { tables } => stamped(alloc, tables),
            Act::Check { query, time } => Ok(Act::Check {
                query: *query,
                time: *time,
            }),
            Act::Look { query } => Ok(Act::Look { query: *query }),
            Act::Keep { query, time, list } => kept(alloc, *query, *time, list),
            Act::Get { key, time } => Ok(Act::Get {
                key: *key,
                time: *time,
            }),
            Act::Put {
                key,
                row,
                time,
                floor,
            } => put(alloc, *key, row, *time, *floor),
            Act::Lock {
                key,
                version,
                floor,
            } => Ok(Act::Lock {
                key: *key,
                version: *version,
                floor: *floor,
            }),
            Act::Unlock { key, lock } => Ok(Act::Unlock {
                key: *key,
                lock: *lock,
            }),
            Act::AfterInsert { key, row, floor } => inserted(alloc, *key, row, *floor),
            Act::AfterUpdate { key, lock, row } => updated(alloc, *key, *lock, row),
            Act::RegionRemove { key } => Ok(Act::RegionRemove { key: *key }),
            Act::Evict { key } => Ok(Act::Evict { key: *key }),
        }
    }
}

impl Entry {
    /// An equal entry. Fails for want of memory alone.
    pub fn copy(&self, alloc: Global) -> Result<Entry, AllocError>
        ensures { IfOk result (λ e. e ≡ self.now) }
    {
        Ok(Entry {
            tick: self.tick,
            session: self.session,
            part: self.part,
            act: self.act.copy(alloc)?,
            reply: self.reply.copy(alloc)?,
        })
    }
}
