// The committed rows of a moment, beside the store: lists are worked out of them while the store answers others.
ghost use Rattle.std.specs.Prelude.{◌≡◌, [], true, is_some, Option, IfOk, IfSome};
ghost use Rattle.hib_base.specs.Tables.{Tables};
ghost use Rattle.hib_store.specs.Stores.{IsListed, IsSnapshotOf, ReadsBelow};
ghost use Rattle.hib_store.specs.declared.store.Listed.{Listed};

use crate::queries;
use hib_base::{Listing, Query};
use hib_query_eval::{Index, Own};
use std::alloc::{AllocError, Global};
use std::marker::Model;

/// The committed rows of the first entities, as they were when the store gave them. Contracts see the rows, and of how
/// many entities they are.
#[derive(Drop)]
pub struct Snapshot {
    index: Index,
    // How many entities the rows are of: the first ones.
    entities: u16,
}

impl Model for Snapshot {
    ghost use Rattle.hib_store.specs.Stores.{SnapshotState};

    ghost Value = { SnapshotState };

    ghost view = { λ s. record {
      rows = s.index;
      entities = s.entities;
    } };
}

impl Snapshot {
    /// The rows of an index, which are of the first `entities` entities.
    pub(crate) fn of(index: Index, entities: u16) -> Snapshot
        ensures { result ≡ record { rows = index; entities = entities } }
    {
        Snapshot { index, entities }
    }

    /// Makes ready for queries: rows are found from then on by the cells of the columns that their conditions ask for.
    /// Fails for want of memory alone.
    pub fn ready(&mut self, alloc: Global, queries: &[Query]) -> Result<(), AllocError>
        ensures { self.new ≡ self.old }
    {
        for query in queries {
            self.index.ready(alloc, query)?;
        }
        Ok(())
    }

    /// What a query gives over the rows, for a session without changes of its own. None if and only if it reads other
    /// entities than the first ones. Fails for want of memory alone.
    pub fn list(&self, alloc: Global, query: &Query) -> Result<Option<Listing>, AllocError>
        ensures listed { (told : Option Tables) → IsSnapshotOf told self.now
            → IfOk result (λ found. IfSome found
            (λ cells. IsListed told [] query.now (Listed.List cells))) }
        ensures there { ReadsBelow self.now.entities query.now
            → IfOk result (λ found. is_some found ≡ true) }
        ensures only { IfOk result (λ found. is_some found ≡ true
            → ReadsBelow self.now.entities query.now) }
    {
        if !queries::reads_below(query, self.entities) {
            return Ok(None);
        }
        Ok(Some(self.index.gives(alloc, query, &Own::new(alloc))?))
    }
}
