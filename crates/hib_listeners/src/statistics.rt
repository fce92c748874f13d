// All counts of a run, which its report prints at the end.
ghost use Rattle.std.specs.Prelude.{◌≡◌, ◌^◌, [], IfOk};
ghost use Rattle.hib_listeners.specs.Statistics.{counted, noted, AreBelow};

use crate::{QueryCounts, RegionList, StoreCounts};
use hib_base::{Entry, Script};
use hib_journal::Journal;
use std::alloc::{AllocError, Global};

/// What a run's entries come to.
#[derive(Drop)]
pub struct Statistics {
    /// Of the region of each cached entity, in order.
    pub regions: RegionList,
    /// Of the store.
    pub store: StoreCounts,
    /// Of the cache of queries.
    pub queries: QueryCounts,
}

impl Statistics {
    /// All counts are 0: they are those of no entry. Fails for want of memory alone.
    pub fn open(alloc: Global, script: &Script) -> Result<Statistics, AllocError>
        ensures { IfOk result (λ s. s ≡ counted script.now []) }
    {
        Ok(Statistics {
            regions: RegionList::open(alloc, script.mapping.as_slice())?,
            store: StoreCounts {
                loads: 0,
                lists: 0,
                writes: 0,
                commits: 0,
                faults: 0,
            },
            queries: QueryCounts {
                hits: 0,
                misses: 0,
                kept: 0,
                dropped: 0,
            },
        })
    }

    /// The counts of a journal, in one pass. Fails for want of memory alone.
    pub fn of_journal(
        alloc: Global,
        script: &Script,
        journal: &Journal,
    ) -> Result<Statistics, AllocError>
        ensures { IfOk result (λ s. s ≡ counted script.now journal.now.list) }
    {
        let mut counts = Statistics::open(alloc, script)?;
        for i in 0..journal.len() {
            counts.note(journal.at(i));
        }
        Ok(counts)
    }

    /// Counts an entry. It takes no memory, and the time is the same however much was noted before and however many
    /// entities there are. An entry of a region whose entity has no place is counted of no region.
    pub fn note(&mut self, entry: &Entry)
        requires { AreBelow (2 ^ 62) self.old }
        ensures { self.new ≡ noted entry.now self.old }
    {
        self.regions.note(entry);
        self.store.note(entry);
        self.queries.note(entry);
    }
}
