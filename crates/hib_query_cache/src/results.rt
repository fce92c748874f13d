// The kept results of queries, for their engine in hib_engines.
ghost use Rattle.std.specs.Prelude.{◌≡◌, ◌<◌, [], IfOk, OnOk, OnErr};
ghost use Rattle.std.specs.Option.{option_map};
ghost use Rattle.std.specs.Borrow.{sem};
ghost use Rattle.hib_query_cache.specs.Ends.{EndsAs};
ghost use Rattle.hib_query_cache.specs.Ranked.{result_of, used, with_result, dropped_for};

use hib_base::{Listing, QueryNo, Tick};
use lru::LruCache;
use std::alloc::{AllocError, Global};
use std::marker::Model;
use std::num::NonZeroUsize;

/// The results of as many queries as the capacity at most, each with its time. Contracts see the capacity, and the
/// results with the most recently used first.
#[derive(Drop)]
pub struct Results {
    cache: LruCache<u16, (Tick, Listing)>,
}

impl Model for Results {
    ghost use Rattle.hib_query_cache.specs.Ranked.{Ranked};

    ghost Value = { Ranked };

    ghost view = { λ r. record { capacity = r.cache.cap; kept = r.cache.entries } };
}

impl Results {
    /// The results before any is kept. The capacity must be at least 1. Fails for want of memory alone.
    pub fn open(alloc: Global, capacity: u32) -> Result<Results, AllocError>
        requires { 0 < capacity }
        ensures { IfOk result (λ r. r ≡ record { capacity = capacity; kept = [] }) }
    {
        let capacity = NonZeroUsize::new(capacity as usize).unwrap();
        Ok(Results {
            cache: LruCache::sparse(alloc, capacity)?,
        })
    }

    /// The time and the list that are kept of a query, or none. If one is kept, it becomes the most recently used.
    pub fn look(&mut self, query: QueryNo) -> Option<(&Tick, &Listing)>
        ensures* order { sem 𝓛 (EndsAs self.entry
            (record self.old { kept = used query self.old.kept })) }
        ensures value { option_map (λ p. (p.0.now, p.1.now)) result
            ≡ result_of query self.old.kept }
    {
        let (time, list) = self.cache.get(&query.0)?;
        Some((time, list))
    }

    /// The time and the list that are kept of a query, or none. The order of use stays.
    pub fn peek(&self, query: QueryNo) -> Option<(&Tick, &Listing)>
        ensures { option_map (λ p. (p.0.now, p.1.now)) result ≡ result_of query self.now.kept }
    {
        let (time, list) = self.cache.peek(&query.0)?;
        Some((time, list))
    }

    /// Keeps a result, as the most recently used, in the place of an earlier one of the query. Answers the query
    /// whose result went for it: if the query is new and there was no room, the least recently used. At an error
    /// nothing has changed.
    pub fn keep(
        &mut self,
        query: QueryNo,
        time: Tick,
        list: Listing,
    ) -> Result<Option<QueryNo>, AllocError>
        ensures kept { OnOk result (self.new
            ≡ record self.old { kept = with_result query (time, list) self.old }) }
        ensures dropped { IfOk result (λ gone. gone ≡ dropped_for query self.old) }
        ensures err { OnErr result (self.new ≡ self.old) }
    {
        let known = self.cache.contains(&query.0);
        let out = self.cache.push(query.0, (time, list))?;
        if known {
            return Ok(None);
        }
        Ok(out.map(|pair| QueryNo(pair.0)))
    }

    /// Drops all results.
    pub fn clear(&mut self)
        ensures { self.new ≡ record self.old { kept = [] } }
    {
        self.cache.clear();
    }
}
