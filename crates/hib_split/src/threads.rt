// Threads that step sessions over parts behind locks, each a session at a time.
ghost use Rattle.std.specs.Prelude.{◌≡◌, ◌≤◌, ◌+◌, [], vec_len, vec_capacity, None, IfNone, OnOk};
ghost use denote.Param.Send.{IsSync};
ghost use Rattle.hib_journal.specs.Next.{next};
ghost use Rattle.hib_parts.specs.Run.{entities_of};

use crate::ended::Ended;
use crate::halt::Halt;
use crate::locked_parts::{Left, LockedParts, Room};
use hib_base::{Query, Script};
use hib_engines::{Name, Stepped};
use hib_outside::{Gate, Keeper};
use hib_parts::{Parts, Worker};
use hib_threads::spread;
use std::alloc::Global;
use std::sync::Wait;
use std::thread::Threads;

/// Puts each part behind a lock of its own, has the threads step the sessions, and takes the parts out again. There
/// must be room for what that needs.
pub fn on_threads<R: Threads + Wait + Sync, K: Keeper + Send, N: Name + Send + Sync, G: Gate>(
    rt: &R,
    alloc: Global,
    parts: Parts<K, N>,
    script: &Script,
    room: Room<N>,
    workers: u32,
    gate: &G,
) -> Left<K, N>
    requires script { script.now ≡ N.script }
    requires locks { (room.locks.items ≡ []) × (vec_len room.locks ≡ 0) }
    requires lock_room { vec_len parts.regions ≤ vec_capacity room.locks }
    requires regions { (room.regions.items ≡ []) × (vec_len room.regions ≡ 0) }
    requires room { vec_len parts.regions ≤ vec_capacity room.regions }
    ensures entities { IfNone result.strange
        (entities_of result.parts.regions.items ≡ entities_of parts.regions.items) }
    ensures len { IfNone result.strange (vec_len result.parts.regions ≡ vec_len parts.regions) }
{
    let Room {
        locks,
        regions,
        aside,
        ended,
    } = room;
    let locked = LockedParts::open(parts, script, locks, aside, ended);
    take_turns(rt, alloc, &locked, script, workers, gate);
    locked.close(regions)
}

/// Says to proofs that a type's values may be shared by threads. It does nothing.
fn may_be_shared<T: Sync>()
    ensures { IsSync T.row }
{}

/// Has `workers` threads step the sessions.
fn take_turns<R: Threads + Wait + Sync, K: Keeper + Send, N: Name + Send + Sync, G: Gate>(
    rt: &R,
    alloc: Global,
    locked: &LockedParts<K, N>,
    script: &Script,
    workers: u32,
    gate: &G,
)
    requires { script.now ≡ N.script }
{
    may_be_shared::<Query>();
    let work = move ||
        requires { script.now ≡ N.script }
    { serve(rt, alloc, locked, script, gate) };
    spread(rt, workers, &work);
}

/// What a thread does: it takes sessions until none is left, or it has to stop. Of a session at its end it leaves the
/// entries alone.
fn serve<R: Wait, K: Keeper, N: Name, G: Gate>(
    rt: &R,
    alloc: Global,
    locked: &LockedParts<K, N>,
    script: &Script,
    gate: &G,
)
    requires { script.now ≡ N.script }
{
    for _ in rt.forever() {
        let Some(number) = locked.take_session() else {
            break;
        };
        let mut worker = Worker::begin(alloc, number);
        match run_session(rt, alloc, locked, script, &mut worker, gate) {
            Ok(()) => locked.put_ended(rt, Ended::of(worker)),
            Err(halt) => {
                locked.put_aside(rt, worker);
                locked.note(rt, halt);
                break;
            }
        }
    }
}

/// Steps a session to its end. No lock is held before a step, nor while the gate holds the thread. Once memory has run
/// out in another thread, no further step is made.
fn run_session<R: Wait, K: Keeper, N: Name, G: Gate>(
    rt: &R,
    alloc: Global,
    locked: &LockedParts<K, N>,
    script: &Script,
    worker: &mut Worker<N>,
    gate: &G,
) -> Result<(), Halt>
    requires { script.now ≡ N.script }
    ensures { OnOk result (next N.script worker.new.number worker.new.list ≡ None) }
{
    let number = worker.number();
    let mut place: u32 = 0;
    for _ in rt.forever() {
        gate.pass(number, place);
        if locked.refused() {
            return Err(Halt::NoMemory);
        }
        match locked.step(rt, alloc, script, worker)? {
            Stepped::Did => place = place.saturating_add(1),
            Stepped::Done => return Ok(()),
        }
    }
    unreachable!()
}
