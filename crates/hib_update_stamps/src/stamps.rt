// The stamps of tables, for their engine in hib_engines.
ghost use Rattle.std.specs.Prelude.{◌≡◌, ◌+◌, ◌<◌, ◌≤◌, ◌^◌, length, nat_lt, IfOk};
ghost use Rattle.std.specs.List.{All};
ghost use Rattle.hib_update_stamps.specs.Stamped.{unstamped, stamped, checked};

use hib_base::{Checked, EntityNo, Tick};
use std::alloc::{AllocError, Global};
use std::marker::Model;

/// For each table its stamp, or none. A result of a query is fresh if no table of the query has a stamp at or
/// after the result's time. Contracts see a list with one place for each table.
#[derive(Drop)]
pub struct Stamps {
    stamps: Vec<Option<Tick>>,
}

impl Model for Stamps {
    ghost use Rattle.hib_update_stamps.specs.Stamped.{Stamped};

    ghost Value = { Stamped };

    ghost view = { λ s. s.stamps.items };
}

impl Stamps {
    /// The stamps before any update: no table has one. It is the one call that takes memory.
    pub fn open(alloc: Global, tables: u16) -> Result<Stamps, AllocError>
        ensures { IfOk result (λ s. s ≡ unstamped tables) }
    {
        Ok(Stamps {
            stamps: vec![in alloc; None; usize::from(tables)]?,
        })
    }

    /// Stamps tables that are about to change with a time that the change will not outlast: the present tick and the
    /// timeout. The tables must be among those that it was opened for. Answers that stamp.
    pub fn pre(&mut self, tables: &[EntityNo], timeout: u32, now: Tick) -> Tick
        requires tables { All (λ t. t < length self.old) tables.now }
        requires now { now ≤ 2 ^ 62 }
        ensures value { result ≡ now + timeout }
        ensures stamps { self.new ≡ stamped tables.now (now + timeout) self.old }
    {
        let time = Tick(now.0 + u64::from(timeout));
        self.set(tables, time);
        time
    }

    /// Stamps tables that have changed with the present tick. They must be among those that it was opened for. Answers
    /// that stamp.
    pub fn stamp(&mut self, tables: &[EntityNo], now: Tick) -> Tick
        requires tables { All (λ t. t < length self.old) tables.now }
        requires now { now ≤ 2 ^ 62 }
        ensures value { result ≡ now }
        ensures stamps { self.new ≡ stamped tables.now now self.old }
    {
        self.set(tables, now);
        now
    }

    /// Whether a result of that time over these tables is fresh; else the first table whose stamp isn't before the
    /// time, with that stamp.
    pub fn check(&self, tables: &[EntityNo], time: Tick) -> Checked
        requires { All (λ t. t < length self.now) tables.now }
        ensures { result ≡ checked time tables.now self.now }
    {
        for table in tables {
            if let Some(stamp) = self.stamps[usize::from(table.0)]
                && !is_before(stamp, time)
            {
                return Checked::Stale {
                    table: *table,
                    stamp,
                };
            }
        }
        Checked::Fresh
    }

    /// Takes the stamp from each table.
    pub fn clear(&mut self)
        ensures { self.new ≡ unstamped (length self.old) }
    {
        self.stamps.fill(None);
    }

    /// Gives tables this stamp.
    fn set(&mut self, tables: &[EntityNo], time: Tick)
        requires { All (λ t. t < length self.old) tables.now }
        ensures { self.new ≡ stamped tables.now time self.old }
    {
        for table in tables {
            self.stamps[usize::from(table.0)] = Some(time);
        }
    }
}

fn is_before(stamp: Tick, time: Tick) -> bool
    ensures { result ≡ nat_lt stamp time }
{
    stamp.0 < time.0
}
