// How threads are started on the same work.
use std::sync::Wait;
use std::thread;
use std::thread::Threads;

/// Has `workers` threads do this work, of which the caller's is the last, and waits for their ends. One that can't be
/// started is done without.
pub fn spread<R: Threads + Wait + Sync, F: Fn() + Sync>(rt: &R, workers: u32, work: &F)
    requires { F.pre work.now }
{
    thread::scope(thread::scope_env(), rt, |scope| {
        for _ in 1..workers {
            let _ = scope.spawn(move || work());
        }
        work();
    });
}
