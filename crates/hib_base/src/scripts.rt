// Scripts: entities, queries, sessions and the schedule.
ghost use Rattle.hib_base.specs.Queries.{parts_of, parts_in, said};
ghost use Rattle.hib_base.specs.Scripts.{strategy_in, is_cached_in, mode_reads, mode_puts};
ghost use Rattle.std.specs.Prelude.{◌≡◌, IfOk, slice_get};

use crate::numbers::{EntityNo, Key, QueryNo, SessionNo};
use crate::rows::{Cell, Cells, Rows, Sets, Text, copy_cells};
use crate::seq::Seq;
use std::alloc::{AllocError, Global};

/// How rows of an entity are cached.
#[derive(Clone, Copy, Debug, PartialEq, Eq)]
pub enum Strategy {
    /// They aren't cached.
    Uncached,
    /// They are cached, and never updated. They may be inserted and deleted.
    ReadOnly,
    /// They are cached without locks, so that a stale row may be read.
    Nonstrict,
    /// They are cached under soft locks.
    ReadWrite,
}

/// How rows of an entity are cached. An entity that isn't declared isn't cached.
pub fn strategy_of(mapping: &[EntityDef], entity: EntityNo) -> Strategy
    ensures { result ≡ strategy_in (slice_get mapping.now entity) }
{
    match mapping.get(usize::from(entity.0)) {
        Some(def) => def.strategy,
        None => Strategy::Uncached,
    }
}

/// Whether rows of an entity are cached.
pub fn is_cached(mapping: &[EntityDef], entity: EntityNo) -> bool
    ensures { result ≡ is_cached_in mapping.now entity }
{
    strategy_of(mapping, entity) != Strategy::Uncached
}

/// What a column's cells are.
#[derive(Clone, Copy, Debug, PartialEq, Eq)]
pub enum ColumnType {
    /// Numbers of 64 bits with a sign.
    Int,
    /// Texts of at most 200 printable bytes.
    Text,
    /// True or false.
    Bool,
    /// Identifiers of rows of this entity, which need not be there.
    Ref(EntityNo),
}

/// A column of an entity.
pub struct ColumnDef {
    /// Its name, which no other column of the entity has.
    pub name: Text,
    /// What its cells are.
    pub kind: ColumnType,
    /// The cell that a row gets in it if the row was kept before the column was there. After a column that has a
    /// default each column has one.
    pub default: Option<Cell>,
}

// By hand, as for those below: so a function that lets one go has one call for it, and not what it is made of.
impl Drop for ColumnDef {
    fn drop(self) {
        let ColumnDef {
            name: _,
            kind: _,
            default: _,
        } = self;
    }
}

/// An entity's columns, in order.
pub type Columns = Seq<ColumnDef>;

/// An entity of the mapping.
pub struct EntityDef {
    /// Its name, which no other entity has.
    pub name: Text,
    /// How its rows are cached.
    pub strategy: Strategy,
    /// Whether its rows have versions.
    pub versioned: bool,
    /// How many keys its region has room for: 1 to 100,000, or 0 if it has none.
    pub capacity: u32,
    /// Its columns: 1 to 16.
    pub columns: Columns,
}

impl Drop for EntityDef {
    fn drop(self) {
        let EntityDef {
            name: _,
            strategy: _,
            versioned: _,
            capacity: _,
            columns: _,
        } = self;
    }
}

/// The entities, in order of declaration.
pub type Mapping = Seq<EntityDef>;

/// A comparison.
#[derive(Clone, Copy, Debug, PartialEq, Eq)]
pub enum Op {
    /// `=`
    Eq,
    /// `!=`
    Ne,
    /// `<`
    Lt,
    /// `<=`
    Le,
    /// `>`
    Gt,
    /// `>=`
    Ge,
}

/// A column of the entity that a reference leads to.
#[derive(Clone, Copy, Debug, PartialEq, Eq)]
pub struct Target {
    /// The entity.
    pub entity: EntityNo,
    /// The column's place among its columns, from 0.
    pub column: u16,
}

/// A column, or by a reference a column of its target.
#[derive(Clone, Copy, Debug, PartialEq, Eq)]
pub struct Path {
    /// The place of a column of the query's entity, from 0.
    pub column: u16,
    /// If that column is a reference to be followed, the column to which it leads.
    pub target: Option<Target>,
}

/// A condition of a query.
#[derive(Drop)]
pub enum Cond {
    /// Both hold.
    And(Box<Cond>, Box<Cond>),
    /// One of them holds, or both.
    Or(Box<Cond>, Box<Cond>),
    /// It doesn't hold.
    Not(Box<Cond>),
    /// A cell compares so with another.
    Test {
        /// How they compare.
        op: Op,
        /// Where the row's cell is.
        path: Path,
        /// The other cell.
        cell: Cell,
    },
    /// A cell is one of some.
    Among {
        /// Where the row's cell is.
        path: Path,
        /// The cells that it may be: 1 to 64.
        cells: Cells,
    },
}

/// A part of a condition, as it is written: it stands before the conditions that it joins.
#[derive(Drop)]
pub enum Node {
    /// The two conditions that follow are joined by `and`.
    And,
    /// The two conditions that follow are joined by `or`.
    Or,
    /// The condition that follows is turned.
    Not,
    /// A cell compares so with another.
    Test {
        /// How they compare.
        op: Op,
        /// Where the row's cell is.
        path: Path,
        /// The other cell.
        cell: Cell,
    },
    /// A cell is one of some.
    Among {
        /// Where the row's cell is.
        path: Path,
        /// The cells that it may be.
        cells: Cells,
    },
}

impl Cond {
    /// A condition of the same parts. Fails for want of memory alone.
    pub fn copy(&self, alloc: Global) -> Result<Cond, AllocError>
        ensures { IfOk result (λ c. parts_of c ≡ parts_of self.now) }
    {
        match self {
            Cond::And(first, second) => {
                let first = first.copy(alloc)?;
                let second = second.copy(alloc)?;
                Ok(Cond::And(Box::new(alloc, first)?, Box::new(alloc, second)?))
            }
            Cond::Or(first, second) => {
                let first = first.copy(alloc)?;
                let second = second.copy(alloc)?;
                Ok(Cond::Or(Box::new(alloc, first)?, Box::new(alloc, second)?))
            }
            Cond::Not(only) => {
                let only = only.copy(alloc)?;
                Ok(Cond::Not(Box::new(alloc, only)?))
            }
            Cond::Test { op, path, cell } => Ok(Cond::Test {
                op: *op,
                path: *path,
                cell: cell.copy(alloc)?,
            }),
            Cond::Among { path, cells } => Ok(Cond::Among {
                path: *path,
                cells: copy_cells(alloc, cells)?,
            }),
        }
    }
}

/// A column by which a query is ordered.
#[derive(Clone, Copy, Debug, PartialEq, Eq)]
pub struct Sort {
    /// The column's place, from 0.
    pub column: u16,
    /// Whether the greatest cell comes first.
    pub desc: bool,
}

/// The columns by which a query is ordered, the first one first.
pub type Sorts = Seq<Sort>;

/// What a query lists of the rows that meet its condition.
#[derive(Clone, Copy, Debug, PartialEq, Eq)]
pub enum Select {
    /// Their identifiers.
    Ids,
    /// One cell: how many there are.
    Count,
    /// Their cells in the column of this place, from 0.
    Column(u16),
}

/// A named query.
pub struct Query {
    /// Its name, which no other query has.
    pub name: Text,
    /// Whether its results are kept.
    pub cached: bool,
    /// The entity whose rows it lists.
    pub entity: EntityNo,
    /// What they have to meet, if anything.
    pub condition: Option<Cond>,
    /// In which order they are listed; rows that it leaves equal come in order of identifiers.
    pub order: Sorts,
    /// How many of the first are left out: up to 1,000,000.
    pub offset: u32,
    /// How many are listed at most: 1 to 200.
    pub limit: u32,
    /// What is listed of them.
    pub select: Select,
}

impl Drop for Query {
    fn drop(self) {
        let Query {
            name: _,
            cached: _,
            entity: _,
            condition: _,
            order: _,
            offset: _,
            limit: _,
            select: _,
        } = self;
    }
}

impl Query {
    /// A query that says the same: each part is equal, and its condition has the same parts.
    /// Fails for want of memory alone.
    pub fn copy(&self, alloc: Global) -> Result<Query, AllocError>
        ensures { IfOk result (λ q. said q ≡ said self.now) }
    {
        Ok(Query {
            name: Seq::from_vec(self.name.as_slice().to_vec(alloc)?),
            cached: self.cached,
            entity: self.entity,
            condition: copy_condition(alloc, &self.condition)?,
            order: Seq::from_vec(self.order.as_slice().to_vec(alloc)?),
            offset: self.offset,
            limit: self.limit,
            select: self.select,
        })
    }
}

fn copy_condition(alloc: Global, condition: &Option<Cond>) -> Result<Option<Cond>, AllocError>
    ensures { IfOk result (λ o. parts_in o ≡ parts_in condition.now) }
{
    match condition {
        Some(condition) => Ok(Some(condition.copy(alloc)?)),
        None => Ok(None),
    }
}

/// The named queries, in order of declaration.
pub type Queries = Seq<Query>;

/// Which way a session uses the cache. In every mode what it changed is invalidated.
#[derive(Clone, Copy, Debug, PartialEq, Eq)]
pub enum Mode {
    /// It reads from the cache and puts into it.
    Normal,
    /// It does neither.
    Ignore,
    /// It reads alone.
    Get,
    /// It puts alone.
    Put,
}

impl Mode {
    /// Whether a session in this mode reads from the cache.
    pub fn reads(self) -> bool
        ensures { result ≡ mode_reads self }
    {
        match self {
            Mode::Normal | Mode::Get => true,
            Mode::Ignore | Mode::Put => false,
        }
    }

    /// Whether a session in this mode puts into the cache.
    pub fn puts(self) -> bool
        ensures { result ≡ mode_puts self }
    {
        match self {
            Mode::Normal | Mode::Put => true,
            Mode::Ignore | Mode::Get => false,
        }
    }
}

/// What a session is told to do.
pub enum Statement {
    /// Finds a row: the session's own, or from the cache, or else from the store.
    Find {
        /// The row's key.
        key: Key,
    },
    /// Makes a new row.
    Persist {
        /// The new row's key.
        key: Key,
        /// Its cells, one for each column.
        cells: Cells,
    },
    /// Sets cells of a row that the session holds.
    Set {
        /// The row's key.
        key: Key,
        /// The new cells, each with the place of its column.
        cells: Sets,
    },
    /// Removes a row that the session holds.
    Remove {
        /// The row's key.
        key: Key,
    },
    /// Lists what a query gives.
    List {
        /// The query.
        query: QueryNo,
    },
    /// Writes to the store what has changed.
    Flush,
    /// Forgets all that the session holds.
    Clear,
    /// Sets how the session uses the cache from here on.
    Mode {
        /// The new mode.
        mode: Mode,
    },
    /// Ends the transaction: what has changed is written and committed.
    Commit,
    /// Ends the transaction: what it has written is dropped.
    Rollback,
}

impl Drop for Statement {
    fn drop(self) {
        match self {
            Statement::Find { key: _ } => {}
            Statement::Persist { key: _, cells: _ } => {}
            Statement::Set { key: _, cells: _ } => {}
            Statement::Remove { key: _ } => {}
            Statement::List { query: _ } => {}
            Statement::Flush => {}
            Statement::Clear => {}
            Statement::Mode { mode: _ } => {}
            Statement::Commit => {}
            Statement::Rollback => {}
        }
    }
}

/// A session's statements, in order.
pub type Statements = Seq<Statement>;

/// A session of a script.
#[derive(Drop)]
pub struct SessionDef {
    /// Its name, which no other session has.
    pub name: Text,
    /// Its statements; the last one ends a transaction.
    pub statements: Statements,
}

/// The sessions, in order of declaration.
pub type Sessions = Seq<SessionDef>;

/// An order of a script's schedule.
#[derive(Clone, Copy, Debug, PartialEq, Eq)]
pub enum Order {
    /// A session makes its next steps.
    Run {
        /// The session.
        session: SessionNo,
        /// How many steps, or as many as are left: 1 to 1,000,000.
        steps: u32,
    },
    /// A session is stopped where it stands, if it is open.
    Kill {
        /// The session.
        session: SessionNo,
    },
    /// A row is evicted from its region.
    Evict {
        /// The row's key, of a cached entity.
        key: Key,
    },
    /// Cache and open sessions are lost; what is committed stays.
    Restart,
}

/// The orders of a schedule, in order.
pub type Orders = Seq<Order>;

/// A script: the mapping, the first rows, the queries, the sessions, and in which order they act.
pub struct Script {
    /// For how many ticks a soft lock is good: 1 to 1,000,000.
    pub timeout: u32,
    /// How many results of queries are kept at most: 1 to 100,000.
    pub results: u32,
    /// The entities.
    pub mapping: Mapping,
    /// The rows that the store gets at the start, each if its key has none.
    pub rows: Rows,
    /// The named queries.
    pub queries: Queries,
    /// The sessions.
    pub sessions: Sessions,
    /// In which order they act; after it each session goes on to its end, one after the other.
    pub schedule: Orders,
}

impl Drop for Script {
    fn drop(self) {
        let Script {
            timeout: _,
            results: _,
            mapping: _,
            rows: _,
            queries: _,
            sessions: _,
            schedule: _,
        } = self;
    }
}
