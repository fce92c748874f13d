// A live factory behind one lock.
use crate::session::Session;
use hib_base::{Key, SessionNo};
use hib_live::{Live, Name, Refusal};
use hib_outside::{Keeper, Listener};
use std::alloc::{AllocError, Global};
use std::sync::{Mutex, MutexGuard, Wait};

/// How long a session keeps the lock for a statement.
#[derive(Clone, Copy, Debug, PartialEq, Eq)]
pub enum Hold {
    /// For a step, so that the steps of other sessions come between.
    Step,
    /// For all its steps, so that no other session's step comes between. It takes the lock less often.
    Statement,
}

/// A live factory that threads share. Whoever takes its lock finds it as it was left, with all that a live factory keeps.
pub struct Shared<K: Keeper, N: Name, L: Listener> {
    live: Mutex<Live<K, N, L>>,
    hold: Hold,
}

impl<K: Keeper, N: Name, L: Listener> Shared<K, N, L> {
    /// Puts a live factory behind a lock.
    pub fn new(live: Live<K, N, L>, hold: Hold) -> Shared<K, N, L> {
        Shared {
            live: Mutex::new(live),
            hold,
        }
    }

    /// Takes the live factory from behind its lock, after all steps. It keeps what each live factory does: its journal is
    /// legal for what was asked, and obeys the law (`Live::lawful`, `Live::close`).
    pub fn close(self) -> Live<K, N, L> {
        let Shared { live, hold: _ } = self;
        live.into_inner()
    }

    /// How long a session keeps the lock for a statement.
    pub fn hold(&self) -> Hold {
        self.hold
    }

    /// The lock, for what a session has no call for, as a look at the journal.
    pub fn lock<'a, R: Wait>(&'a self, rt: &R) -> MutexGuard<'a, Live<K, N, L>> {
        self.live.lock(rt)
    }

    /// One more session. Fails for want of memory, or if there are 2^32 - 1 sessions already.
    pub fn begin<'a, R: Wait>(
        &'a self,
        rt: &'a R,
        alloc: Global,
    ) -> Result<Session<'a, R, K, N, L>, AllocError> {
        let number = self.live.lock(rt).begin(alloc)?;
        Ok(Session::new(rt, self, alloc, number))
    }

    /// Kills a session, if it is open, as `Live::kill`.
    pub fn kill<R: Wait>(&self, rt: &R, alloc: Global, number: SessionNo) -> Result<(), Refusal> {
        self.live.lock(rt).kill(alloc, number)
    }

    /// Evicts a row from its region, as `Live::evict`.
    pub fn evict<R: Wait>(&self, rt: &R, alloc: Global, key: Key) -> Result<(), Refusal> {
        self.live.lock(rt).evict(alloc, key)
    }

    /// A restart, as `Live::restart`.
    pub fn restart<R: Wait>(&self, rt: &R, alloc: Global) -> Result<(), Refusal> {
        self.live.lock(rt).restart(alloc)
    }
}
