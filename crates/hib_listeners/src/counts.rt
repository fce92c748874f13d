// What a run's entries come to in numbers, for each region, the store and the queries.
ghost use Rattle.std.specs.Prelude.{◌≡◌, ◌+◌, ◌<◌, ◌^◌, true};
ghost use Rattle.hib_listeners.specs.Counts.{is_in};
ghost use Rattle.hib_listeners.specs.Statistics.{one_if, noted_region, noted_store, noted_queries, IsRegionBelow, IsStoreBelow, AreQueriesBelow};

use crate::tests_of;
use hib_base::{EntityNo, Entry};

/// What the region of a cached entity did.
#[derive(Clone, Copy)]
pub struct RegionCounts {
    /// The entity.
    pub entity: EntityNo,
    /// Gets that were answered with a row.
    pub hits: u64,
    /// Gets that were refused one.
    pub misses: u64,
    /// Rows that were stored, by a put, after an insert or after an update.
    pub puts: u64,
    /// Puts and rows of inserts that weren't stored.
    pub refused: u64,
    /// Locks that were taken.
    pub locks: u64,
    /// Keys that had to leave for another.
    pub evicted: u64,
    /// Locks that had run out when they were to be given back, or when a row was stored over them.
    pub expired: u64,
}

/// What the store did.
#[derive(Clone, Copy)]
pub struct StoreCounts {
    /// Loads, whatever was answered.
    pub loads: u64,
    /// Lists, whatever was answered.
    pub lists: u64,
    /// Changes that were written.
    pub writes: u64,
    /// Commits that were applied.
    pub commits: u64,
    /// Answers that the store failed.
    pub faults: u64,
}

/// What the cache of queries did.
#[derive(Clone, Copy)]
pub struct QueryCounts {
    /// Results that were fresh.
    pub hits: u64,
    /// Results that weren't there, or were stale.
    pub misses: u64,
    /// Results that were kept.
    pub kept: u64,
    /// Results that had to leave for another.
    pub dropped: u64,
}

// Raises a count by one, if the entry counts.
fn raise(count: &mut u64, counts: bool)
    requires { count.old < 2 ^ 62 }
    ensures { count.new ≡ count.old + one_if counts }
{
    if counts {
        *count += 1;
    }
}

impl RegionCounts {
    /// Counts an entry, which must be of this region.
    pub fn note(&mut self, entry: &Entry)
        requires below { IsRegionBelow (2 ^ 62) self.old }
        requires here { is_in self.old.entity entry.now.act ≡ true }
        ensures { self.new ≡ noted_region entry.now self.old }
    {
        let act = &entry.act;
        let reply = &entry.reply;
        raise(&mut self.hits, tests_of::is_hit(act, reply));
        raise(&mut self.misses, tests_of::is_miss(act, reply));
        raise(&mut self.puts, tests_of::stores(act, reply));
        raise(&mut self.refused, tests_of::refuses(act, reply));
        raise(&mut self.locks, tests_of::locks(act));
        raise(&mut self.evicted, tests_of::evicts(act, reply));
        raise(&mut self.expired, tests_of::is_expired(reply));
    }
}

impl StoreCounts {
    /// Counts an entry, if it is one of the store's.
    pub fn note(&mut self, entry: &Entry)
        requires { IsStoreBelow (2 ^ 62) self.old }
        ensures { self.new ≡ noted_store entry.now self.old }
    {
        raise(&mut self.loads, tests_of::loads(&entry.act));
        raise(&mut self.lists, tests_of::lists(&entry.act));
        raise(&mut self.writes, tests_of::writes(&entry.act));
        raise(&mut self.commits, tests_of::is_committed(entry));
        raise(&mut self.faults, tests_of::is_fault(&entry.reply));
    }
}

impl QueryCounts {
    /// Counts an entry, if it is one of the kept results' or of the stamps'.
    pub fn note(&mut self, entry: &Entry)
        requires { AreQueriesBelow (2 ^ 62) self.old }
        ensures { self.new ≡ noted_queries entry.now self.old }
    {
        raise(&mut self.hits, tests_of::is_query_hit(entry));
        raise(&mut self.misses, tests_of::lacks(&entry.act, &entry.reply));
        raise(&mut self.kept, tests_of::keeps(&entry.act));
        raise(&mut self.dropped, tests_of::is_drop(entry));
    }
}
