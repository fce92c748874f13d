// What the sessions of `collect` share.
ghost use Rattle.std.specs.Prelude.{◌≡◌, [], IfOk};
ghost use Rattle.hib_collections.specs.Collected.{AreCollected};

use crate::gathered::Gathered;
use hib_base::{Script, Strategy};
use hib_collections_law::Defs;
use hib_engines::{Engines, Region, laws};
use hib_outside::Keeper;
use std::alloc::{AllocError, Global};

/// What sessions share: the engines of their script, a region for each collection, and the journal of their steps.
pub struct GatherShared<K: Keeper> {
    /// The store, the open sessions, the stamps, the regions of entities and the results of queries.
    pub engines: Engines<K>,
    /// For each collection its region, in order.
    pub regions: Vec<Region>,
    /// The entries of the steps so far.
    pub journal: Gathered,
}

/// The regions of the collections, in order, which hold nothing. Fails for want of memory alone.
pub fn open_regions(alloc: Global, script: &Script, defs: &Defs) -> Result<Vec<Region>, AllocError>
    ensures { IfOk result (λ v. AreCollected script.now defs.now [] v.items) }
{
    laws();
    let mut regions = Vec::with_capacity(alloc, defs.len())?;
    for def in defs.as_slice() {
        regions.push(Region::open(alloc, Strategy::ReadWrite, def.capacity, script.timeout))?;
    }
    Ok(regions)
}
