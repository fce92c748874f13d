// The regions of a script's entities, one for each, at the place of the entity's number.
ghost use Rattle.std.specs.Prelude.{◌≡◌, ◌≤◌, ◌<◌, ◌^◌, Some, map, true, false, IfOk, OnOk, OnErr, Option, ℕ};
ghost use Rattle.hib_base.specs.declared.scripts.Script.{Script as Said};
ghost use Rattle.hib_journal.specs.Types.{Part, Strategy};
ghost use Rattle.hib_journal.specs.Sessions.{Journal};
ghost use Rattle.hib_journal.specs.Next.{strategy};
ghost use Rattle.hib_journal.specs.Lists.{IsLate};
ghost use Rattle.hib_journal.specs.Runs.{is_fault};
ghost use Rattle.hib_engines.specs.Fenced.{IsFenced};
ghost use Rattle.hib_engines.specs.Region.{empty, entity_in, IsPlaced, Suits};
ghost use Rattle.hib_engines.specs.Regions.{region_of, IsAtRegion, AreEmptied};
ghost use Rattle.hib_engines.specs.Served.{IsServed, reads};

use crate::region::Region;
use hib_base::{Act, EntityNo, Key, Locked, Reply, Script, Tick, Unlocked};
use std::alloc::{AllocError, Global};

/// The regions of a script's entities, which are empty. Fails for want of memory alone.
pub fn open_regions(alloc: Global, script: &Script) -> Result<Vec<Region>, AllocError>
    ensures { IfOk result (λ v. v.items
        ≡ map (λ d. empty d.strategy d.capacity script.now.timeout) script.now.mapping) }
{
    let mut regions = Vec::new(alloc);
    for entity in script.mapping.as_slice() {
        regions.push(Region::open(alloc, entity.strategy, entity.capacity, script.timeout))?;
    }
    Ok(regions)
}

/// Has each region drop all that it holds. It takes no memory.
pub fn restart_regions(regions: &mut Vec<Region>)
    ensures { AreEmptied regions.old.items regions.new.items }
{
    for at in 0..regions.len() {
        regions[at].restart();
    }
}

/// Has the region of an entity answer an act. An entity that has no region is uncached. A read leaves the regions as
/// they are, and so does want of memory.
pub fn serve_region(
    alloc: Global,
    regions: &mut Vec<Region>,
    entity: EntityNo,
    act: &Act,
    now: Tick,
) -> Result<Reply, AllocError>
    requires { now ≤ 2 ^ 62 }
    ensures answered { IfOk result (λ r. (script : Said) (l : Journal) (by : Option ℕ)
        → IsPlaced script entity l (region_of regions.old.items entity)
        → IsLate (Part.Region entity) now l → entity_in act.now ≡ Some entity
        → Suits (strategy script entity) act.now
        → IsServed (λ m. IsPlaced script entity m (region_of regions.new.items entity)) script l
        by now act.now r) }
    ensures others { OnOk result (IsAtRegion entity regions.old.items regions.new.items) }
    ensures calm { IfOk result (λ r. is_fault r ≡ false) }
    ensures still { OnOk result (reads act.now ≡ true → regions.new.items ≡ regions.old.items) }
    ensures err { OnErr result (regions.new.items ≡ regions.old.items) }
{
    let at = entity.0 as usize;
    if at < regions.len() {
        return regions[at].serve(alloc, act, now);
    }
    // No act is due on an entity that isn't cached.
    Ok(Reply::Done)
}

/// Fences a key in the region of its entity, at this tick and the next one. If there is no such region, it fails as if
/// memory ran out. At an error nothing has changed.
pub fn fence_region(
    regions: &mut Vec<Region>,
    key: Key,
    floor: Tick,
    now: Tick,
) -> Result<(Locked, Unlocked), AllocError>
    requires { now < 2 ^ 62 }
    ensures fenced { IfOk result (λ f. (script : Said) (l : Journal)
        → IsPlaced script key.entity l (region_of regions.old.items key.entity)
        → IsLate (Part.Region key.entity) now l
        → strategy script key.entity ≡ Strategy.ReadWrite
        → IsFenced (λ m. IsPlaced script key.entity m (region_of regions.new.items key.entity))
        script l now key floor f.0 f.1) }
    ensures others { OnOk result (IsAtRegion key.entity regions.old.items regions.new.items) }
    ensures err { OnErr result (regions.new.items ≡ regions.old.items) }
{
    let entity = key.entity;
    let at = entity.0 as usize;
    if at < regions.len() {
        return regions[at].fence(key, floor, now);
    }
    Err(AllocError)
}
