// What is known of tables and of queries: which entry stamped a table last, and which one kept a result last.
ghost use Rattle.std.specs.Prelude.{◌≡◌, ◌+◌, ℕ, nat_eq, if◌then◌else◌, [], None, Some, OnOk, IfOk, option_copied, option_map};
ghost use Rattle.std.specs.Map.{lookup};
ghost use Rattle.hib_journal.specs.Sessions.{is_restart};
ghost use Rattle.hib_journal.specs.Sound.{keeps_by};
ghost use Rattle.hib_journal.specs.Stamps.{names, stamp_after};
ghost use Rattle.hib_follow.specs.Marks.{stamped_since, value_at};
ghost use Rattle.hib_follow.specs.Newest.{tables_in};

use hib_base::{Act, EntityNo, Entry, QueryNo, Script, Tick};
use indexmap::IndexMap;
use std::alloc::{AllocError, Global};

/// What is known of a table.
#[derive(Clone, Copy)]
pub struct Stamped {
    /// The number of the entry that stamped it last.
    pub since: u64,
    /// Its stamp.
    pub value: u64,
}

/// Stamps these tables.
#[tactic(auto, using(crate::proofs::Marked::stamp_step))]
fn stamp_all(
    stamps: &mut IndexMap<u16, Stamped>,
    tables: &[EntityNo],
    stamped: Stamped,
) -> Result<(), AllocError>
    ensures { OnOk result ((t : ℕ) → lookup (nat_eq t) stamps.new.entries
        ≡ (if names t tables.now then Some stamped else lookup (nat_eq t) stamps.old.entries)) }
{
    for table in tables {
        stamps.insert(table.0, stamped)?;
    }
    Ok(())
}

/// A tick that is this many later. One that is too large is answered as want of memory.
fn later(now: Tick, ticks: u32) -> Result<u64, AllocError>
    ensures { IfOk result (λ t. t ≡ now + ticks) }
{
    match now.0.checked_add(u64::from(ticks)) {
        Some(tick) => Ok(tick),
        None => Err(AllocError),
    }
}

/// What is known of tables after some entries, since the last restart.
#[derive(Drop)]
pub struct Stamps {
    /// By table, what is known of it.
    pub stamps: IndexMap<u16, Stamped>,
}

impl Stamps {
    /// Before any entry.
    pub fn new(alloc: Global) -> Stamps
        ensures { result.stamps.entries ≡ [] }
    {
        Stamps {
            stamps: IndexMap::new(alloc),
        }
    }

    /// What is known of a table.
    pub fn of(&self, table: EntityNo) -> Option<Stamped>
        ensures { result ≡ lookup (nat_eq table) self.now.stamps.entries }
    {
        self.stamps.get(&table.0).copied()
    }

    /// Takes an entry, the next one, with its number. A sum that is too large is answered as want of memory.
    pub fn note(&mut self, script: &Script, since: u64, entry: &Entry) -> Result<(), AllocError>
        ensures values { OnOk result ((t : ℕ) → value_at self.new.stamps.entries t
            ≡ stamp_after script.now.timeout t entry.now.act entry.now.tick (value_at self.old.stamps.entries t)) }
        ensures since { OnOk result ((t : ℕ) → stamped_since self.new.stamps.entries t
            ≡ (if is_restart entry.now.act then None
            else if names t (tables_in entry.now.act) then Some since else stamped_since self.old.stamps.entries t)) }
    {
        match &entry.act {
            Act::Restart => {
                self.stamps.clear();
                Ok(())
            }
            Act::Pre { tables } => match later(entry.tick, script.timeout) {
                Ok(value) => stamp_all(
                    &mut self.stamps,
                    tables.as_slice(),
                    Stamped { since, value },
                ),
                Err(error) => Err(error),
            },
            Act::Stamp { tables } => {
                let value = entry.tick.0;
                stamp_all(
                    &mut self.stamps,
                    tables.as_slice(),
                    Stamped { since, value },
                )
            }
            _ => Ok(()),
        }
    }
}

/// What is known of queries after some entries, since the last restart.
#[derive(Drop)]
pub struct Keeps {
    /// By query, the number of the entry that kept a result of it last.
    pub keeps: IndexMap<u16, u64>,
}

impl Keeps {
    /// Before any entry.
    pub fn new(alloc: Global) -> Keeps
        ensures { result.keeps.entries ≡ [] }
    {
        Keeps {
            keeps: IndexMap::new(alloc),
        }
    }

    /// The number of the entry that kept a result of a query last.
    pub fn of(&self, query: QueryNo) -> Option<u64>
        ensures { result ≡ lookup (nat_eq query) self.now.keeps.entries }
    {
        self.keeps.get(&query.0).copied()
    }

    /// Takes an entry, the next one, with its number.
    pub fn note(&mut self, since: u64, entry: &Entry) -> Result<(), AllocError>
        ensures { OnOk result ((q : ℕ) → lookup (nat_eq q) self.new.keeps.entries
            ≡ (if is_restart entry.now.act then None
            else if keeps_by q entry.now.act then Some since else lookup (nat_eq q) self.old.keeps.entries)) }
    {
        match &entry.act {
            Act::Restart => {
                self.keeps.clear();
                Ok(())
            }
            Act::Keep { query, .. } => {
                self.keeps.insert(query.0, since)?;
                Ok(())
            }
            _ => Ok(()),
        }
    }
}
