// The parts of a factory, each by itself. hib_split runs sessions over them, by the caller alone or with a lock for
// each.
ghost use Rattle.std.specs.Prelude.{◌≡◌, ◌≤◌, [], true, false, IfOk, IfErr};
ghost use Rattle.std.specs.List.{All};
ghost use Rattle.hib_base.specs.Valid.{is_valid};
ghost use Rattle.hib_base.specs.declared.scripts.Script.{Script as Said};
ghost use Rattle.hib_outside.specs.Causes.{Rose};
ghost use Rattle.hib_store.specs.Stores.{handed_back, is_store_fault};
ghost use Rattle.hib_engines.specs.Origin.{origin_over};
ghost use Rattle.hib_engines.specs.Built.{IsBuilt};
ghost use Rattle.hib_parts.specs.Run.{cached_entities, entities_of};

use crate::region::RegionPart;
use crate::registry::RegistryPart;
use crate::results::ResultsPart;
use crate::stamps::StampsPart;
use crate::store::StorePart;
use hib_base::{EntityNo, Script, is_cached};
use hib_engines::Name;
use hib_outside::Keeper;
use hib_store::OpenFault;
use std::alloc::{AllocError, Global};

/// The parts of a factory, each by itself.
pub struct Parts<K: Keeper, N: Name> {
    /// Which sessions are open.
    pub registry: RegistryPart<N>,
    /// The store.
    pub store: StorePart<K, N>,
    /// The stamps of tables.
    pub stamps: StampsPart<N>,
    /// The results of queries.
    pub results: ResultsPart<N>,
    /// The region of each cached entity, in order.
    pub regions: Vec<RegionPart<N>>,
}

/// Says to proofs that a valid script is one that parts take. It does nothing.
fn built()
    ensures { (script : Said) → is_valid script ≡ true → IsBuilt script }
{}

/// The regions of the cached entities, in order, which hold nothing.
fn open_regions<N: Name>(alloc: Global, script: &Script) -> Result<Vec<RegionPart<N>>, AllocError>
    requires script { script.now ≡ N.script }
    requires built { IsBuilt N.script }
    ensures entities { IfOk result
        (λ v. entities_of v.items ≡ cached_entities script.now) }
    ensures empty { IfOk result (λ v. All (λ r. r.list ≡ []) v.items) }
{
    let mut regions = Vec::new(alloc);
    for number in 0..script.mapping.len() {
        let entity = EntityNo(number as u16);
        if is_cached(script.mapping.as_slice(), entity) {
            regions.push(RegionPart::open(alloc, script, entity))?;
        }
    }
    Ok(regions)
}

impl<K: Keeper, N: Name> Parts<K, N> {
    /// The parts of the factory of this name, in which no session has begun. The keeper is seeded with the script's
    /// rows, each of which it takes if its key has none. At an error the keeper is handed back, with the rows that it
    /// had.
    pub fn open(alloc: Global, script: &Script, keeper: K) -> Result<Parts<K, N>, OpenFault<K>>
        requires script { script.now ≡ N.script }
        requires valid { is_valid N.script ≡ true }
        requires from { origin_over N.script (K.tables keeper) (K.faults keeper) (K.asked keeper)
            ≡ N.from }
        ensures registry { IfOk result (λ p. p.registry ≡ []) }
        ensures store { IfOk result (λ p. p.store.list ≡ []) }
        ensures going { IfOk result (λ p. p.store.refused ≡ false) }
        ensures stamps { IfOk result (λ p. p.stamps ≡ []) }
        ensures results { IfOk result (λ p. p.results ≡ []) }
        ensures entities { IfOk result
            (λ p. entities_of p.regions.items ≡ cached_entities N.script) }
        ensures regions { IfOk result (λ p. All (λ r. r.list ≡ []) p.regions.items) }
        ensures back { IfErr result (λ e. K.tables (handed_back e) ≡ K.tables keeper) }
        ensures back_faults { IfErr result (λ e. K.faults keeper ≤ K.faults (handed_back e)) }
        ensures back_asked { IfErr result (λ e. K.asked (handed_back e) ≡ K.asked keeper) }
        ensures fault { IfErr result (λ e. is_store_fault e ≡ true
            → Rose (K.faults keeper) (K.faults (handed_back e))) }
    {
        built();
        let Ok(regions) = open_regions::<N>(alloc, script) else {
            return Err(OpenFault::NoMemory(keeper));
        };
        let Ok(stamps) = StampsPart::open(alloc, script) else {
            return Err(OpenFault::NoMemory(keeper));
        };
        let Ok(results) = ResultsPart::open(alloc, script) else {
            return Err(OpenFault::NoMemory(keeper));
        };
        let store = StorePart::open(alloc, script, keeper)?;
        Ok(Parts {
            registry: RegistryPart::open(alloc),
            store,
            stamps,
            results,
            regions,
        })
    }
}
