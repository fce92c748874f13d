// A step of a session over the parts: on each of them by itself, as hib_split makes it under the lock of the part; or
// over all of them, as a caller alone does without a lock.
ghost use Rattle.std.specs.Prelude.{◌≡◌, ◌<◌, ◌≤◌, ◌^◌, None, Ok, Some, IfOk, IfSome, OnOk, OnErr, [], ◌∷◌, true, length, slice_get};
ghost use Rattle.hib_base.specs.declared.entries.Entry.{Entry};
ghost use Rattle.hib_base.specs.declared.entries.Part.{Part};
ghost use Rattle.hib_journal.specs.Next.{next};
ghost use Rattle.hib_journal.specs.Runs.{is_fault};
ghost use Rattle.hib_outside.specs.Causes.{Rose};
ghost use Rattle.hib_clock.specs.Due.{due};
ghost use Rattle.hib_parts.specs.Listed.{IsDueOn, IsEnteredDue, IsKept, IsOwnEntered, RegionState, last_of};
ghost use Rattle.hib_parts.specs.Run.{GoesOn, IsFirst, IsStepOn, entities_of, list_on, part_lists};

use crate::parts::Parts;
use crate::region::RegionPart;
use crate::registry::RegistryPart;
use crate::results::ResultsPart;
use crate::stamps::StampsPart;
use crate::start_rows::StartList;
use crate::store::StorePart;
use crate::worker::Worker;
use hib_base::{EntityNo, Part, Script, Tick};
use hib_clock::next as tick_after;
use hib_engines::{Name, Stepped};
use hib_journal::part_of;
use hib_outside::Keeper;
use std::alloc::{AllocError, Global};

/// The tick of a step: one more than the greater of the last ticks of its part and of its session. If no tick comes
/// after these, it fails as if memory had run out: no memory holds as many entries as that.
fn tick_of(part: Tick, session: Tick) -> Result<Tick, AllocError>
    requires part { part ≤ 2 ^ 62 }
    requires session { session ≤ 2 ^ 62 }
    ensures due { IfOk result (λ t. t ≡ due part session) }
    ensures bounded { IfOk result (λ t. t ≤ 2 ^ 62) }
{
    match tick_after(part, session) {
        Some(tick) => Ok(tick),
        None => Err(AllocError),
    }
}

/// One act of a session on the registry. It must be due in it. It is answered at the tick that is due, and its entry
/// goes to both lists. If memory runs out, or no tick is left, both lists are as before.
pub fn step_registry<N: Name>(
    alloc: Global,
    script: &Script,
    registry: &mut RegistryPart<N>,
    worker: &mut Worker<N>,
) -> Result<(), AllocError>
    requires script { script.now ≡ N.script }
    requires due { IsDueOn N.script Part.Registry worker.old }
    ensures number { worker.new.number ≡ worker.old.number }
    ensures entered { OnOk result (IsEnteredDue registry.old registry.new worker.old worker.new) }
    ensures less { OnOk result (worker.new.left < worker.old.left) }
    ensures kept { OnErr result (IsKept worker.old worker.new) }
    ensures same { OnErr result (registry.new ≡ registry.old) }
{
    let now = tick_of(registry.last(), worker.last())?;
    registry.serve(alloc, worker, script, now)?;
    Ok(())
}

/// One act of a session on the store, which must be due in it, at the tick that is due; its entry goes to both lists.
/// A list that was worked out over the rows at the start is taken if it still is the answer. At an error both lists are
/// as before, though the keeper may have been asked.
pub fn step_store<K: Keeper, N: Name>(
    alloc: Global,
    script: &Script,
    store: &mut StorePart<K, N>,
    worker: &mut Worker<N>,
    found: Option<StartList<N>>,
) -> Result<(), AllocError>
    requires script { script.now ≡ N.script }
    requires due { IsDueOn N.script Part.Store worker.old }
    ensures going { OnOk result (store.new.refused ≡ store.old.refused) }
    ensures number { worker.new.number ≡ worker.old.number }
    ensures entered { OnOk result (IsEnteredDue store.old.list store.new.list worker.old
        worker.new) }
    ensures less { OnOk result (worker.new.left < worker.old.left) }
    ensures fault { OnOk result ((e : Entry) → store.new.list ≡ e ∷ store.old.list
        → is_fault e.reply ≡ true → Rose store.old.faults store.new.faults) }
    ensures kept { OnErr result (IsKept worker.old worker.new) }
    ensures same { OnErr result (store.new.list ≡ store.old.list) }
{
    let now = tick_of(store.last(), worker.last())?;
    store.serve(alloc, worker, script, now, found)?;
    Ok(())
}

/// One act of a session on the stamps, which must be due in it, at the tick that is due; its entry goes to both lists.
/// At an error both lists are as before.
pub fn step_stamps<N: Name>(
    alloc: Global,
    script: &Script,
    stamps: &mut StampsPart<N>,
    worker: &mut Worker<N>,
) -> Result<(), AllocError>
    requires script { script.now ≡ N.script }
    requires due { IsDueOn N.script Part.Stamps worker.old }
    ensures number { worker.new.number ≡ worker.old.number }
    ensures entered { OnOk result (IsEnteredDue stamps.old stamps.new worker.old worker.new) }
    ensures less { OnOk result (worker.new.left < worker.old.left) }
    ensures kept { OnErr result (IsKept worker.old worker.new) }
    ensures same { OnErr result (stamps.new ≡ stamps.old) }
{
    let now = tick_of(stamps.last(), worker.last())?;
    stamps.serve(alloc, worker, script, now)?;
    Ok(())
}

/// One act of a session on the kept results, which must be due in it, at the tick that is due; its entry goes to both
/// lists. At an error both lists are as before.
pub fn step_results<N: Name>(
    alloc: Global,
    script: &Script,
    results: &mut ResultsPart<N>,
    worker: &mut Worker<N>,
) -> Result<(), AllocError>
    requires script { script.now ≡ N.script }
    requires due { IsDueOn N.script Part.Results worker.old }
    ensures number { worker.new.number ≡ worker.old.number }
    ensures entered { OnOk result (IsEnteredDue results.old results.new worker.old worker.new) }
    ensures less { OnOk result (worker.new.left < worker.old.left) }
    ensures kept { OnErr result (IsKept worker.old worker.new) }
    ensures same { OnErr result (results.new ≡ results.old) }
{
    let now = tick_of(results.last(), worker.last())?;
    results.serve(alloc, worker, script, now)?;
    Ok(())
}

/// One act of a session on this region, which must be due in it, at the tick that is due; its entry goes to both lists.
/// At an error both lists are as before.
pub fn step_region<N: Name>(
    alloc: Global,
    script: &Script,
    region: &mut RegionPart<N>,
    worker: &mut Worker<N>,
) -> Result<(), AllocError>
    requires script { script.now ≡ N.script }
    requires due { IsDueOn N.script (Part.Region region.old.entity) worker.old }
    ensures entity { region.new.entity ≡ region.old.entity }
    ensures number { worker.new.number ≡ worker.old.number }
    ensures entered { OnOk result (IsEnteredDue region.old.list region.new.list worker.old
        worker.new) }
    ensures less { OnOk result (worker.new.left < worker.old.left) }
    ensures kept { OnErr result (IsKept worker.old worker.new) }
    ensures same { OnErr result (region.new ≡ region.old) }
{
    let now = tick_of(region.last(), worker.last())?;
    region.serve(alloc, worker, script, now)?;
    Ok(())
}

/// One act of a session that it answers itself, at the tick after its last one. It must be due in it. At an error its
/// list is as before.
pub fn step_own<N: Name>(
    alloc: Global,
    script: &Script,
    worker: &mut Worker<N>,
) -> Result<(), AllocError>
    requires script { script.now ≡ N.script }
    requires due { IsDueOn N.script (Part.Own worker.old.number) worker.old }
    ensures number { worker.new.number ≡ worker.old.number }
    ensures entered { OnOk result (IsOwnEntered (due 0 (last_of worker.old.list)) worker.old
        worker.new) }
    ensures less { OnOk result (worker.new.left < worker.old.left) }
    ensures kept { OnErr result (IsKept worker.old worker.new) }
{
    let now = tick_of(Tick(0), worker.last())?;
    worker.own(alloc, script, now)?;
    Ok(())
}

/// The place of an entity's region in the list of regions, or none.
fn place_of<N: Name>(regions: &[RegionPart<N>], entity: EntityNo) -> Option<usize>
    ensures there { IfSome result (λ i. i < length regions.now) }
    ensures entity { IfSome result (λ i. (x : RegionState) → slice_get regions.now i ≡ Some x
        → x.entity ≡ entity) }
    ensures first { IfSome result (λ i. IsFirst entity i regions.now) }
{
    for (place, region) in regions.iter().enumerate() {
        if region.entity() == entity {
            return Some(place);
        }
    }
    None
}

/// One act of a session, which must be due on the region of this entity; for `step_on`.
fn step_regions<N: Name>(
    alloc: Global,
    script: &Script,
    regions: &mut Vec<RegionPart<N>>,
    entity: EntityNo,
    worker: &mut Worker<N>,
) -> Result<(), AllocError>
    requires script { script.now ≡ N.script }
    requires due { IsDueOn N.script (Part.Region entity) worker.old }
    ensures entities { entities_of regions.new.items ≡ entities_of regions.old.items }
    ensures entered { OnOk result (IsStepOn (Part.Region entity)
        (list_on [] [] [] [] regions.old.items) (list_on [] [] [] [] regions.new.items) worker.old
        worker.new) }
    ensures number { worker.new.number ≡ worker.old.number }
    ensures less { OnOk result (worker.new.left < worker.old.left) }
    ensures kept { OnErr result (IsKept worker.old worker.new) }
{
    // No act is due on an entity that isn't cached.
    let Some(place) = place_of(regions.as_slice(), entity) else {
        return Err(AllocError);
    };
    step_region(alloc, script, &mut regions[place], worker)
}

impl<K: Keeper, N: Name> Parts<K, N> {
    /// Answers the act that is due in a session, at the tick that is due. It must be on this part.
    fn step_on(
        &mut self,
        alloc: Global,
        script: &Script,
        worker: &mut Worker<N>,
        part: Part,
    ) -> Result<(), AllocError>
        requires script { script.now ≡ N.script }
        requires due { IsDueOn N.script part worker.old }
        ensures going { OnOk result (self.new.store.refused ≡ self.old.store.refused) }
        ensures entities { entities_of self.new.regions.items ≡ entities_of self.old.regions.items }
        ensures entered { OnOk result (IsStepOn part (part_lists self.old) (part_lists self.new)
            worker.old worker.new) }
        ensures number { worker.new.number ≡ worker.old.number }
        ensures less { OnOk result (worker.new.left < worker.old.left) }
        ensures kept { OnErr result (IsKept worker.old worker.new) }
    {
        match part {
            Part::Registry => step_registry(alloc, script, &mut self.registry, worker),
            Part::Store => step_store(alloc, script, &mut self.store, worker, None),
            Part::Stamps => step_stamps(alloc, script, &mut self.stamps, worker),
            Part::Results => step_results(alloc, script, &mut self.results, worker),
            Part::Region(entity) => {
                step_regions(alloc, script, &mut self.regions, entity, worker)
            }
            Part::Own(_) => step_own(alloc, script, worker),
        }
    }

    /// One step of a session: the act that is due in it, if one is, at the tick that is due. The session is made ready
    /// first. If memory runs out no list has an entry more. If the lists of parts and of sessions were those of one
    /// journal before, they still are; and if sessions came one after the other in it, they still do.
    pub fn step(
        &mut self,
        alloc: Global,
        script: &Script,
        worker: &mut Worker<N>,
    ) -> Result<Stepped, AllocError>
        requires script { script.now ≡ N.script }
        ensures going { OnOk result (self.new.store.refused ≡ self.old.store.refused) }
        ensures entities { entities_of self.new.regions.items ≡ entities_of self.old.regions.items }
        ensures number { worker.new.number ≡ worker.old.number }
        ensures did { result ≡ Ok Stepped.Did → worker.new.left < worker.old.left }
        ensures done { result ≡ Ok Stepped.Done
            → next N.script worker.new.number worker.new.list ≡ None }
        ensures run { OnOk result (GoesOn (part_lists self.old) worker.old (part_lists self.new)
            worker.new) }
        ensures kept { OnErr result (IsKept worker.old worker.new) }
    {
        worker.ready(alloc, script)?;
        let Some(act) = worker.next(alloc, script)? else {
            return Ok(Stepped::Done);
        };
        let part = part_of(&act, worker.number());
        self.step_on(alloc, script, worker, part)?;
        worker.legal();
        Ok(Stepped::Did)
    }

    /// Steps a session to its end. If memory runs out the steps so far stand. Else, if the lists of parts and of
    /// sessions were those of one journal before, they still are; and if sessions came one after the other in it, they
    /// still do.
    pub fn finish(
        &mut self,
        alloc: Global,
        script: &Script,
        worker: &mut Worker<N>,
    ) -> Result<(), AllocError>
        requires script { script.now ≡ N.script }
        ensures going { OnOk result (self.new.store.refused ≡ self.old.store.refused) }
        ensures entities { entities_of self.new.regions.items ≡ entities_of self.old.regions.items }
        ensures number { worker.new.number ≡ worker.old.number }
        ensures run { OnOk result (GoesOn (part_lists self.old) worker.old (part_lists self.new)
            worker.new) }
        ensures over { OnOk result (next N.script worker.new.number worker.new.list ≡ None) }
    {
        'steps: loop {
            match self.step(alloc, script, worker)? {
                Stepped::Did => {}
                Stepped::Done => return Ok(()),
            }
        }
    }
}
