// Workers step the sessions of a factory, each a session at a time. It is what `work` does.
ghost use Rattle.std.specs.Prelude.{◌≡◌, ◌≤◌, ◌<◌, ◌^◌, true, false, length, IfOk, IfSome};
ghost use denote.Param.Send.{IsSend};
ghost use Rattle.hib_journal.specs.Kept.{past};
ghost use Rattle.hib_session.specs.Bound.{outside_count};
ghost use Rattle.hib_law.specs.Hits.{AreListsGiven};
ghost use Rattle.hib_session.specs.Sessions.{AreOver};
ghost use Rattle.hib_workers.specs.Worked.{IsWorked, max_workers};

use crate::desk::{Desk, Handed};
use hib_base::{Query, SessionNo};
use hib_core::Factory;
use hib_engines::{Name, Stepped};
use hib_outside::{Gate, Keeper, Listener};
use hib_threads::spread;
use std::alloc::{AllocError, Global};
use std::marker::Brand;
use std::sync::atomic::{AtomicUsize, Ordering};
use std::sync::{Mutex, Wait};
use std::thread::Threads;

/// What comes of a factory on which workers took turns.
pub struct Worked<K: Keeper, N: Name, L: Listener> {
    /// The factory that was handed in.
    pub factory: Factory<K, N, L>,
    /// Whether a call of it answered want of memory, since it was opened.
    pub out_of_memory: bool,
}

/// How many steps a worker makes at most before it gives the factory's lock back, if the gate holds nobody.
const STEPS: u32 = 64;

/// Runs each session to its end, on `workers` threads, of which the caller's is one. Each takes the next session that
/// nobody has taken, and makes its steps one after the other: before a step it passes the gate, and for a step it takes
/// the factory's lock. If the gate holds nobody, it passes it once and keeps the lock for up to 64 steps, of a session
/// and of those that it takes after that. What they leave undone is done here once they have ended. Once memory has run
/// out no further step is made.
pub fn work<
    R: Threads + Wait + Sync,
    K: Keeper + Send,
    N: Name + Send + Sync,
    L: Listener,
    G: Gate,
>(rt: &R, alloc: Global, factory: Factory<K, N, L>, workers: u32, gate: &G) -> Worked<K, N, L>
    requires workers { (1 ≤ workers) × (workers ≤ max_workers) }
    requires inside { outside_count (past factory.journal) ≡ 0 }
    ensures worked { IsWorked N.script N.from factory result.factory }
    ensures given { IfSome N.from.tables
        (λ start. AreListsGiven N.script start (past result.factory.journal)) }
    ensures over { result.out_of_memory ≡ false → AreOver N.script (past result.factory.journal) }
    ensures memory { result.out_of_memory ≡ result.factory.refused }
{
    work_from::<Brand, R, K, N, L, G>(rt, alloc, factory, workers, gate)
}

/// The same as `work`, of the factory that was handed in, which `H` stands for in contracts.
fn work_from<
    H: Handed + Send + Sync,
    R: Threads + Wait + Sync,
    K: Keeper + Send,
    N: Name + Send + Sync,
    L: Listener,
    G: Gate,
>(rt: &R, alloc: Global, factory: Factory<K, N, L>, workers: u32, gate: &G) -> Worked<K, N, L>
    requires handed { factory ≡ H.factory }
    requires inside { outside_count (past factory.journal) ≡ 0 }
    ensures worked { IsWorked N.script N.from H.factory result.factory }
    ensures given { IfSome N.from.tables
        (λ start. AreListsGiven N.script start (past result.factory.journal)) }
    ensures over { result.out_of_memory ≡ false → AreOver N.script (past result.factory.journal) }
    ensures memory { result.out_of_memory ≡ result.factory.refused }
{
    let desk: Desk<K, N, L, H> = Desk::open(factory);
    let mut desk = on_threads(rt, alloc, desk, workers, gate);
    desk.finish(alloc);
    let factory = desk.close();
    factory.lawful();
    let out_of_memory = factory.refused();
    Worked {
        factory,
        out_of_memory,
    }
}

/// Where a worker is.
#[derive(Clone, Copy)]
struct At {
    /// The session whose steps it makes.
    number: SessionNo,
    /// How many entries that has so far, or 4294967295 if there are more.
    place: u32,
}

/// What workers share: the factory behind its lock, and the number of the next session that nobody has taken.
struct Bench<K: Keeper, N: Name, L: Listener, H: Handed> {
    desk: Mutex<Desk<K, N, L, H>>,
    next: AtomicUsize,
    sessions: usize,
    ghost all: { sessions ≡ length N.script.sessions },
    ghost few: { sessions < 2 ^ 32 },
}

impl<K: Keeper, N: Name, L: Listener, H: Handed> Bench<K, N, L, H> {
    /// The next session that nobody has taken, or none if all are taken.
    fn take_session(&self) -> Option<SessionNo>
        ensures { IfSome result (λ number. number < length N.script.sessions) }
    {
        let number = self.next.fetch_add(1, Ordering::SeqCst);
        if number >= self.sessions {
            return None;
        }
        Some(SessionNo(number as u32))
    }

    /// Where a worker is that takes the next session, or none if all are taken.
    fn begin(&self, desk: &Desk<K, N, L, H>) -> Option<At>
        ensures { IfSome result (λ at. at.number < length N.script.sessions) }
    {
        let number = self.take_session()?;
        Some(At {
            number,
            place: desk.place_of(number),
        })
    }
}

/// Puts the factory behind a lock, has the workers step its sessions, and takes it out again.
fn on_threads<
    H: Handed + Send + Sync,
    R: Threads + Wait + Sync,
    K: Keeper + Send,
    N: Name + Send + Sync,
    L: Listener,
    G: Gate,
>(rt: &R, alloc: Global, desk: Desk<K, N, L, H>, workers: u32, gate: &G) -> Desk<K, N, L, H> {
    let sessions = desk.sessions();
    let bench = Bench {
        desk: Mutex::new(desk),
        next: AtomicUsize::new(0),
        sessions,
    };
    take_turns(rt, alloc, &bench, workers, gate);
    let Bench {
        desk,
        next: _,
        sessions: _,
    } = bench;
    desk.into_inner()
}

/// Lets proofs say of a type that its values may go from thread to thread. It does nothing.
fn may_be_sent<T: Send>()
    ensures { IsSend T.row }
{}

/// Has `workers` threads step the sessions.
fn take_turns<
    H: Handed + Send + Sync,
    R: Threads + Wait + Sync,
    K: Keeper + Send,
    N: Name + Send + Sync,
    L: Listener,
    G: Gate,
>(rt: &R, alloc: Global, bench: &Bench<K, N, L, H>, workers: u32, gate: &G) {
    may_be_sent::<Query>();
    spread(rt, workers, &move || serve(rt, alloc, bench, gate));
}

/// How many steps a worker makes at most before it gives the lock back: one, if the gate may hold it.
fn steps_at_once<G: Gate>(gate: &G) -> u32
    ensures one { G.holds gate.now ≡ true → result ≡ 1 }
    ensures few { (1 ≤ result) × (result ≤ 64) }
{
    if gate.may_hold() { 1 } else { STEPS }
}

/// What a worker does: it takes sessions until none is left, or memory runs out. The lock is free while the gate holds
/// the worker.
fn serve<H: Handed, R: Wait, K: Keeper, N: Name, L: Listener, G: Gate>(
    rt: &R,
    alloc: Global,
    bench: &Bench<K, N, L, H>,
    gate: &G,
) {
    let most = steps_at_once(gate);
    let Some(first) = bench.begin(&*bench.desk.lock(rt)) else {
        return;
    };
    let mut at = first;
    for _ in rt.forever() {
        gate.pass(at.number, at.place);
        let mut held = bench.desk.lock(rt);
        let Ok(Some(next)) = make_steps(alloc, bench, &mut *held, at, most) else {
            break;
        };
        at = next;
    }
}

/// Makes `most` steps under the lock, of this session and of those that are taken at its end. Answers where the worker
/// is after them, or none if no session is left.
fn make_steps<H: Handed, K: Keeper, N: Name, L: Listener>(
    alloc: Global,
    bench: &Bench<K, N, L, H>,
    desk: &mut Desk<K, N, L, H>,
    from: At,
    most: u32,
) -> Result<Option<At>, AllocError>
    requires { from.number < length N.script.sessions }
    ensures { IfOk result (λ o. IfSome o (λ at. at.number < length N.script.sessions)) }
{
    let At {
        mut number,
        mut place,
    } = from;
    for _ in 0..most {
        match desk.step(alloc, number)? {
            Stepped::Did => place = place.saturating_add(1),
            Stepped::Done => {
                let Some(next) = bench.begin(desk) else {
                    return Ok(None);
                };
                number = next.number;
                place = next.place;
            }
        }
    }
    Ok(Some(At { number, place }))
}
