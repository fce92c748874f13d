// Regions, each behind a lock of its own. A lock is here one of std's, not one on a key of a region.
ghost use Rattle.std.specs.Prelude.{◌≡◌, ◌<◌, ◌≤◌, ◌+◌, [], length, map, vec_len, vec_capacity, IfSome, OnOk};
ghost use Rattle.hib_base.specs.declared.entries.Part.{Part};
ghost use Rattle.hib_parts.specs.Listed.{IsDueOn};
ghost use Rattle.hib_parts.specs.Run.{entities_of};

use crate::halt::Halt;
use crate::strange::{Strange, compared};
use hib_base::{EntityNo, Script};
use hib_engines::Name;
use hib_parts::{RegionPart, Worker, step_region};
use hib_threads::lock_soon;
use std::alloc::Global;
use std::sync::{Mutex, Wait};

/// A region behind its lock, and the entity whose region it was when it was put there.
#[derive(Drop)]
pub struct LockedRegion<N: Name> {
    /// The entity.
    pub entity: EntityNo,
    region: Mutex<RegionPart<N>>,
}

/// Puts each region behind a lock, in order. There must be room for the locks.
pub fn lock_regions<N: Name>(regions: Vec<RegionPart<N>>, locks: &mut Vec<LockedRegion<N>>)
    requires empty { locks.old.items ≡ [] }
    requires room { vec_len locks.old + vec_len regions ≤ vec_capacity locks.old }
    ensures entities { map (λ l. l.entity) locks.new.items ≡ entities_of regions.items }
    ensures len { vec_len locks.new ≡ vec_len locks.old + vec_len regions }
{
    let mut rest = regions;
    rest.reverse();
    'rest: while let Some(region) = rest.pop() {
        locks.push_reserved(LockedRegion {
            entity: region.entity(),
            region: Mutex::new(region),
        });
    }
}

/// Takes each region out of its lock, in order. Each is compared with the one that was put there; at the first that is
/// another it stops. There must be room for the regions.
pub fn unlock_regions<N: Name>(
    locks: Vec<LockedRegion<N>>,
    regions: &mut Vec<RegionPart<N>>,
) -> Result<(), Strange>
    requires empty { regions.old.items ≡ [] }
    requires room { vec_len regions.old + vec_len locks ≤ vec_capacity regions.old }
    ensures entities { OnOk result
        (entities_of regions.new.items ≡ map (λ l. l.entity) locks.items) }
    ensures len { OnOk result (vec_len regions.new ≡ vec_len regions.old + vec_len locks) }
{
    let mut rest = locks;
    rest.reverse();
    'rest: while let Some(locked) = rest.pop() {
        let LockedRegion { entity, region } = locked;
        let region = region.into_inner();
        compared(entity, region.entity())?;
        regions.push_reserved(region);
    }
    Ok(())
}

/// The place of the lock of an entity's region, or none.
fn place_of<N: Name>(regions: &[LockedRegion<N>], entity: EntityNo) -> Option<usize>
    ensures { IfSome result (λ i. i < length regions.now) }
{
    for (place, locked) in regions.iter().enumerate() {
        if locked.entity == entity {
            return Some(place);
        }
    }
    None
}

/// One act of a session, which must be due on the region of this entity, under the region's lock.
pub fn step_under_lock<R: Wait, N: Name>(
    rt: &R,
    alloc: Global,
    script: &Script,
    regions: &[LockedRegion<N>],
    entity: EntityNo,
    worker: &mut Worker<N>,
) -> Result<(), Halt>
    requires script { script.now ≡ N.script }
    requires due { IsDueOn N.script (Part.Region entity) worker.old }
{
    // No act is due on an entity that isn't cached.
    let Some(place) = place_of(regions, entity) else {
        return Err(Halt::NoMemory);
    };
    let mut held = lock_soon(rt, &regions[place].region);
    let region = &mut *held;
    let found = region.entity();
    compared(entity, found)?;
    step_region(alloc, script, region, worker)?;
    Ok(())
}
