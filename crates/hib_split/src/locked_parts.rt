// What the threads of a run share: each part behind a lock of its own, and what they leave for the caller.
ghost use Rattle.std.specs.Prelude.{◌≡◌, ◌<◌, ◌≤◌, ◌+◌, ◌^◌, [], map, vec_len, vec_capacity, None, Ok, IfNone, IfOk, IsOk};
ghost use Rattle.hib_journal.specs.Next.{next};
ghost use Rattle.hib_base.specs.declared.entries.Part.{Part};
ghost use Rattle.hib_parts.specs.Listed.{IsDueOn};
ghost use Rattle.hib_parts.specs.Run.{entities_of};
ghost use Rattle.hib_parts.specs.Stored.{DiffersInIndex};

use crate::ended::Ended;
use crate::halt::Halt;
use crate::locks::{LockedRegion, lock_regions, step_under_lock, unlock_regions};
use crate::strange::Strange;
use hib_base::{Act, Part, Script, SessionNo};
use hib_engines::{Name, Stepped};
use hib_journal::part_of;
use hib_outside::Keeper;
use hib_parts::{
    Parts, RegionPart, RegistryPart, ResultsPart, StampsPart, StartList, StartRows, StorePart,
    Worker, step_own, step_registry, step_results, step_stamps, step_store,
};
use hib_threads::lock_soon;
use std::alloc::{AllocError, Global};
use std::sync::atomic::{AtomicBool, AtomicUsize, Ordering};
use std::sync::{Mutex, OnceLock, Wait};

/// What threads share: each part behind a lock of its own, the number of the next session that nobody has taken, and
/// what they leave.
pub struct LockedParts<K: Keeper, N: Name> {
    registry: Mutex<RegistryPart<N>>,
    store: Mutex<StorePart<K, N>>,
    stamps: Mutex<StampsPart<N>>,
    results: Mutex<ResultsPart<N>>,
    regions: Vec<LockedRegion<N>>,
    next: AtomicUsize,
    sessions: usize,
    /// The workers whose sessions aren't at their ends, each at the place of its session.
    aside: Mutex<Vec<Option<Worker<N>>>>,
    /// What is left of the sessions that are at their ends, each at its place.
    ended: Mutex<Vec<Option<Ended<N>>>>,
    strange: Mutex<Option<Strange>>,
    /// Whether memory ran out in a thread.
    refused: AtomicBool,
    /// The rows at the start, once a list was asked of them.
    start: OnceLock<StartRows<N>>,
    /// Whether no list is worked out over these rows any more: a commit may have changed them, or memory ran out as
    /// they were to be shared.
    unshared: AtomicBool,
    ghost few: { sessions < 2 ^ 32 },
}

/// What threads leave, when they have ended.
pub struct Left<K: Keeper, N: Name> {
    /// The parts, out of their locks.
    pub parts: Parts<K, N>,
    /// The workers whose sessions aren't at their ends, each at the place of its session.
    pub aside: Vec<Option<Worker<N>>>,
    /// What is left of the sessions that are at their ends, each at its place.
    pub ended: Vec<Option<Ended<N>>>,
    /// If a lock gave another region: the entity that was asked for, and the one that was found. Then regions may be
    /// missing.
    pub strange: Option<Strange>,
    /// Whether memory ran out in a thread.
    pub refused: bool,
}

/// Room for what a run on threads needs beside the lists. It is taken before the run.
pub struct Room<N: Name> {
    /// For the locks of regions.
    pub locks: Vec<LockedRegion<N>>,
    /// For the regions, when they come out of their locks.
    pub regions: Vec<RegionPart<N>>,
    /// A place for the worker of each session whose end isn't reached.
    pub aside: Vec<Option<Worker<N>>>,
    /// A place for what is left of each session that is at its end.
    pub ended: Vec<Option<Ended<N>>>,
}

/// A place for each session, and nothing is there yet.
fn places_for<T: Drop>(alloc: Global, sessions: usize) -> Result<Vec<Option<T>>, AllocError> {
    let mut places = Vec::with_capacity(alloc, sessions)?;
    for _ in 0..sessions {
        places.push(None)?;
    }
    Ok(places)
}

/// Room for a run on threads over this number of regions, with this number of sessions.
pub fn room_for_threads<N: Name>(
    alloc: Global,
    regions: usize,
    sessions: usize,
) -> Result<Room<N>, AllocError>
    ensures locks { IfOk result (λ r. (r.locks.items ≡ []) × (vec_len r.locks ≡ 0)) }
    ensures lock_room { IfOk result (λ r. regions ≤ vec_capacity r.locks) }
    ensures regions { IfOk result (λ r. (r.regions.items ≡ []) × (vec_len r.regions ≡ 0)) }
    ensures room { IfOk result (λ r. regions ≤ vec_capacity r.regions) }
{
    let locks = Vec::with_capacity(alloc, regions)?;
    let back = Vec::with_capacity(alloc, regions)?;
    let aside = places_for(alloc, sessions)?;
    let ended = places_for(alloc, sessions)?;
    Ok(Room {
        locks,
        regions: back,
        aside,
        ended,
    })
}

/// What `Left` says of strange regions: the one that was found while regions were unlocked, or else the one that a
/// thread noted.
fn first_strange(unlocked: Result<(), Strange>, found: Option<Strange>) -> Option<Strange>
    ensures { IfNone result (IsOk unlocked) }
{
    match unlocked {
        Ok(()) => found,
        Err(strange) => Some(strange),
    }
}

impl<K: Keeper, N: Name> LockedParts<K, N> {
    /// Puts each part behind a lock of its own. There must be room for the locks of regions.
    pub fn open(
        parts: Parts<K, N>,
        script: &Script,
        locks: Vec<LockedRegion<N>>,
        aside: Vec<Option<Worker<N>>>,
        ended: Vec<Option<Ended<N>>>,
    ) -> LockedParts<K, N>
        requires script { script.now ≡ N.script }
        requires empty { locks.items ≡ [] }
        requires room { vec_len locks + vec_len parts.regions ≤ vec_capacity locks }
        ensures entities { map (λ l. l.entity) result.regions.items
            ≡ entities_of parts.regions.items }
        ensures len { vec_len result.regions ≡ vec_len locks + vec_len parts.regions }
    {
        parts.registry.built();
        let Parts {
            registry,
            store,
            stamps,
            results,
            regions,
        } = parts;
        let mut locks = locks;
        lock_regions(regions, &mut locks);
        LockedParts {
            registry: Mutex::new(registry),
            store: Mutex::new(store),
            stamps: Mutex::new(stamps),
            results: Mutex::new(results),
            regions: locks,
            next: AtomicUsize::new(0),
            sessions: script.sessions.len(),
            aside: Mutex::new(aside),
            ended: Mutex::new(ended),
            strange: Mutex::new(None),
            refused: AtomicBool::new(false),
            start: OnceLock::new(),
            unshared: AtomicBool::new(false),
        }
    }

    /// Takes the parts out of their locks, when the threads have ended. There must be room for the regions.
    pub fn close(self, room: Vec<RegionPart<N>>) -> Left<K, N>
        requires empty { room.items ≡ [] }
        requires room { vec_len room + vec_len self.regions ≤ vec_capacity room }
        ensures entities { IfNone result.strange
            (entities_of result.parts.regions.items
            ≡ map (λ l. l.entity) self.regions.items) }
        ensures len { IfNone result.strange
            (vec_len result.parts.regions ≡ vec_len room + vec_len self.regions) }
    {
        let LockedParts {
            registry,
            store,
            stamps,
            results,
            regions: locks,
            next: _,
            sessions: _,
            aside,
            ended,
            strange,
            refused,
            start: _,
            unshared: _,
        } = self;
        let mut regions = room;
        let unlocked = unlock_regions(locks, &mut regions);
        Left {
            parts: Parts {
                registry: registry.into_inner(),
                store: store.into_inner(),
                stamps: stamps.into_inner(),
                results: results.into_inner(),
                regions,
            },
            aside: aside.into_inner(),
            ended: ended.into_inner(),
            strange: first_strange(unlocked, strange.into_inner()),
            refused: refused.into_inner(),
        }
    }

    /// The next session that nobody has taken, or none if all are taken.
    pub fn take_session(&self) -> Option<SessionNo> {
        let number = self.next.fetch_add(1, Ordering::SeqCst);
        if number >= self.sessions {
            return None;
        }
        Some(SessionNo(number as u32))
    }

    /// Whether memory ran out in a thread. The other threads ask this before each step, and stop.
    pub fn refused(&self) -> bool {
        self.refused.load(Ordering::SeqCst)
    }

    /// Notes why a thread stopped.
    pub fn note<R: Wait>(&self, rt: &R, halt: Halt) {
        match halt {
            Halt::NoMemory => self.refused.store(true, Ordering::SeqCst),
            Halt::Strange(strange) => {
                let mut held = lock_soon(rt, &self.strange);
                *held = Some(strange);
            }
        }
    }

    /// Puts a worker whose session isn't at its end at the session's place, where the caller finds it when the threads
    /// have ended.
    pub fn put_aside<R: Wait>(&self, rt: &R, worker: Worker<N>) {
        let mut held = lock_soon(rt, &self.aside);
        let aside = &mut *held;
        let place = worker.number().0 as usize;
        // Each session has a place.
        if place < aside.len() {
            aside[place] = Some(worker);
        }
    }

    /// Puts what is left of a session that is at its end at its place.
    pub fn put_ended<R: Wait>(&self, rt: &R, left: Ended<N>) {
        let mut held = lock_soon(rt, &self.ended);
        let ended = &mut *held;
        let place = left.number().0 as usize;
        // Each session has a place.
        if place < ended.len() {
            ended[place] = Some(left);
        }
    }

    /// One step of a session: the act that is due in it, if one is, under the lock of the part that it is on. An act of
    /// its own is made under no lock. The session is made ready before the lock is taken.
    pub fn step<R: Wait>(
        &self,
        rt: &R,
        alloc: Global,
        script: &Script,
        worker: &mut Worker<N>,
    ) -> Result<Stepped, Halt>
        requires { script.now ≡ N.script }
        ensures done { result ≡ Ok Stepped.Done
            → next N.script worker.new.number worker.new.list ≡ None }
    {
        worker.ready(alloc, script)?;
        let Some(act) = worker.next(alloc, script)? else {
            return Ok(Stepped::Done);
        };
        let part = part_of(&act, worker.number());
        self.step_on(rt, alloc, script, worker, part, &act)?;
        Ok(Stepped::Did)
    }

    /// What a list gives over the rows at the start, if threads share these rows and no commit may have changed them.
    /// None for another act. No lock is held.
    fn found(
        &self,
        alloc: Global,
        script: &Script,
        act: &Act,
    ) -> Result<Option<StartList<N>>, AllocError>
        requires { script.now ≡ N.script }
    {
        let Act::List { query } = act else {
            return Ok(None);
        };
        if self.unshared.load(Ordering::SeqCst) {
            return Ok(None);
        }
        match self.start.get() {
            Some(rows) => rows.list(alloc, script, *query),
            None => Ok(None),
        }
    }

    /// Notes whether the rows may have changed. If they haven't, and the store has an index of them, threads share them
    /// from now on. If memory runs out while they are made ready, they are never shared.
    fn share(&self, alloc: Global, script: &Script, store: &mut StorePart<K, N>)
        ensures { DiffersInIndex store.old store.new }
    {
        if !store.unchanged() {
            self.unshared.store(true, Ordering::SeqCst);
            return;
        }
        if self.start.get().is_some() {
            return;
        }
        match store.share(alloc, script) {
            Ok(Some(rows)) => {
                let _ = self.start.try_set(rows);
            }
            Ok(None) => {}
            Err(_) => self.unshared.store(true, Ordering::SeqCst),
        }
    }

    /// Answers the act that is due in a session under the lock of the store, which it must be on. A list over the rows
    /// at the start is worked out before the lock is taken. It is the answer unless a commit came between, or the
    /// session has changes of its own.
    fn step_store<R: Wait>(
        &self,
        rt: &R,
        alloc: Global,
        script: &Script,
        worker: &mut Worker<N>,
        act: &Act,
    ) -> Result<(), Halt>
        requires script { script.now ≡ N.script }
        requires due { IsDueOn N.script Part.Store worker.old }
    {
        let found = self.found(alloc, script, act)?;
        let mut held = lock_soon(rt, &self.store);
        let store = &mut *held;
        step_store(alloc, script, store, worker, found)?;
        self.share(alloc, script, store);
        Ok(())
    }

    /// Answers the act that is due in a session under the lock of this part. The act must be on it.
    fn step_on<R: Wait>(
        &self,
        rt: &R,
        alloc: Global,
        script: &Script,
        worker: &mut Worker<N>,
        part: Part,
        act: &Act,
    ) -> Result<(), Halt>
        requires script { script.now ≡ N.script }
        requires due { IsDueOn N.script part worker.old }
    {
        match part {
            Part::Registry => {
                step_registry(alloc, script, &mut *lock_soon(rt, &self.registry), worker)?;
            }
            Part::Store => self.step_store(rt, alloc, script, worker, act)?,
            Part::Stamps => {
                step_stamps(alloc, script, &mut *lock_soon(rt, &self.stamps), worker)?;
            }
            Part::Results => {
                step_results(alloc, script, &mut *lock_soon(rt, &self.results), worker)?;
            }
            Part::Region(entity) => {
                step_under_lock(rt, alloc, script, self.regions.as_slice(), entity, worker)?;
            }
            Part::Own(_) => step_own(alloc, script, worker)?,
        }
        Ok(())
    }
}
