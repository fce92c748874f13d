// What a factory with bulk lines begins with: empty regions, the engines of the other parts, and lines that have done
// nothing.
ghost use Rattle.std.specs.Prelude.{◌≡◌, ◌≤◌, ◌<◌, ◌^◌, [], true, map, length, ℕ, List, IfOk, IfErr, IfSome};
ghost use Rattle.hib_base.specs.Tables.{in_order};
ghost use Rattle.hib_outside.specs.Causes.{Rose};
ghost use Rattle.hib_store.specs.Stores.{handed_back, is_store_fault};
ghost use Rattle.hib_engines.specs.Origin.{told_start};
ghost use Rattle.hib_bulk.specs.Types.{BulkDef as LineSpec};
ghost use Rattle.hib_bulk.specs.Regions.{opened};
ghost use Rattle.hib_bulk.specs.Standing.{AreStanding};
ghost use Rattle.hib_bulk.specs.Run.{AreBuilt};
ghost use Rattle.hib_bulk.specs.Steps.{fresh};

use crate::lines::LineProgress;
use crate::parts::BulkParts;
use crate::region::EntityRegion;
use hib_base::Script;
use hib_bulk_law::BulkDef;
use hib_bulk_region::laws as wide;
use hib_engines::{Registry, ResultsEngine, StampsEngine, StoreEngine, laws};
use hib_outside::Keeper;
use hib_store::OpenFault;
use std::alloc::{AllocError, Global};

/// The regions of a script's entities, which are empty. Fails for want of memory alone.
fn open_regions(alloc: Global, script: &Script) -> Result<Vec<EntityRegion>, AllocError>
    ensures { IfOk result (λ v. v.items
        ≡ map (λ d. opened d.strategy d.capacity script.now.timeout) script.now.mapping) }
{
    let mut regions = Vec::new(alloc);
    for entity in script.mapping.as_slice() {
        regions.push(EntityRegion::open(alloc, entity.strategy, entity.capacity, script.timeout))?;
    }
    Ok(regions)
}

/// Says of each line that it has done nothing. Fails for want of memory alone.
pub fn open_lines(alloc: Global, lines: &[BulkDef]) -> Result<Vec<LineProgress>, AllocError>
    ensures { IfOk result (λ v. v.items ≡ map fresh lines.now) }
{
    let mut progress = Vec::new(alloc);
    for _line in lines {
        progress.push(LineProgress {
            steps: 0,
            failed: false,
        })?;
    }
    Ok(progress)
}

impl<K: Keeper> BulkParts<K> {
    /// Opens the parts of a run in which nothing has happened. At an error the keeper is handed back, with the rows
    /// that it had.
    pub fn open(alloc: Global, script: &Script, keeper: K) -> Result<BulkParts<K>, OpenFault<K>>
        requires entities { length script.now.mapping < 2 ^ 16 }
        requires results { 0 < script.now.results }
        ensures standing { IfOk result (λ p. (lines : List LineSpec) → AreBuilt script.now lines
            → AreStanding script.now lines (told_start script.now (K.tables keeper)) [] p) }
        ensures ordered { IfOk result (λ p. IfSome p.store.tables (λ t. in_order t ≡ true)) }
        ensures entities { IfOk result (λ p. p.store.entities ≡ length script.now.mapping) }
        ensures faults { IfOk result (λ p. K.faults keeper ≤ p.store.faults) }
        ensures back { IfErr result (λ e. K.tables (handed_back e) ≡ K.tables keeper) }
        ensures back_faults { IfErr result (λ e. K.faults keeper ≤ K.faults (handed_back e)) }
        ensures back_asked { IfErr result (λ e. K.asked (handed_back e) ≡ K.asked keeper) }
        ensures fault { IfErr result (λ e. is_store_fault e ≡ true
            → Rose (K.faults keeper) (K.faults (handed_back e))) }
    {
        laws();
        wide::stays();
        let Ok(regions) = open_regions(alloc, script) else {
            return Err(OpenFault::NoMemory(keeper));
        };
        let Ok(stamps) = StampsEngine::open(alloc, script.mapping.len() as u16) else {
            return Err(OpenFault::NoMemory(keeper));
        };
        let Ok(results) = ResultsEngine::open(alloc, script.results) else {
            return Err(OpenFault::NoMemory(keeper));
        };
        let entities = script.mapping.len() as u16;
        let rows = script.rows.as_slice();
        let store = StoreEngine::open(alloc, keeper, &script.mapping, rows, entities)?;
        Ok(BulkParts {
            store,
            registry: Registry::new(alloc),
            stamps,
            regions,
            results,
        })
    }
}
