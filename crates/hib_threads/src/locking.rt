// How a lock of std is taken that another thread gives back soon, as the workers' locks are.
use std::hint::spin_loop;
use std::sync::{Mutex, MutexGuard, Wait};

/// How often a lock is tried before its thread goes to sleep.
const TRIES: u32 = 3000;

/// How many pauses of a processor lie between two tries: with them all tries take some 60 microseconds.
const PAUSES: u32 = 8;

/// Takes a lock. A thread that sleeps is woken long after the lock is free again, so it is tried for some 60
/// microseconds before that.
pub fn lock_soon<'a, R: Wait, T>(rt: &R, lock: &'a Mutex<T>) -> MutexGuard<'a, T> {
    for _ in 0..TRIES {
        if let Some(guard) = lock.try_lock() {
            return guard;
        }
        for _ in 0..PAUSES {
            spin_loop();
        }
    }
    lock.lock(rt)
}
