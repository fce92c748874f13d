// The desk is the factory behind the lock, at which threads take turns. Whoever takes the lock finds it as it was left,
// with all that its type keeps.
ghost use Rattle.std.specs.Prelude.{◌≡◌, ◌<◌, ◌^◌, false, length};
ghost use Rattle.hib_journal.specs.Kept.{past};
ghost use Rattle.hib_session.specs.Bound.{outside_count};
ghost use Rattle.hib_session.specs.Sessions.{AreOver};
ghost use Rattle.hib_workers.specs.Worked.{IsWorked};

use hib_base::{Entry, SessionNo};
use hib_core::Factory;
use hib_engines::{Name, Stepped};
use hib_outside::{Keeper, Listener};
use std::alloc::{AllocError, Global};
use std::marker::{Brand, Model, PhantomData};

/// A type that stands, in contracts alone, for the factory that threads were handed.
pub trait Handed {
    ghost use Rattle.hib_core.specs.Factory.{FactoryState};

    /// The factory, as it was before their first step.
    ghost factory: { FactoryState };
}

impl Handed for Brand {
    ghost use Rattle.hib_workers.specs.Worked.{none_handed};

    ghost factory = { none_handed };
}

/// The factory that workers take turns at, and how many entries its journal had before.
pub struct Desk<K: Keeper, N: Name, L: Listener, H: Handed> {
    factory: Factory<K, N, L>,
    before: usize,
    of: PhantomData<H>,
}

impl<K: Keeper, N: Name, L: Listener, H: Handed> Model for Desk<K, N, L, H> {
    ghost use Rattle.hib_core.specs.Factory.{FactoryState};
    ghost use Rattle.hib_workers.specs.Worked.{IsWorked};

    ghost Value = { FactoryState };

    ghost view = { λ d. d.factory };

    ghost invariant = { λ d. IsWorked N.script N.from H.factory d.factory };
}

/// How many of these entries are the session's, or 4294967295 if there are more; for `place_of`.
fn count_of(entries: &[Entry], number: SessionNo) -> u32 {
    let count = entries
        .iter()
        .filter(|entry| entry.session == Some(number))
        .count();
    count.min(u32::MAX as usize) as u32
}

impl<K: Keeper, N: Name, L: Listener, H: Handed> Desk<K, N, L, H> {
    /// The desk at which no step was made yet.
    pub fn open(factory: Factory<K, N, L>) -> Desk<K, N, L, H>
        requires handed { factory ≡ H.factory }
        requires inside { outside_count (past factory.journal) ≡ 0 }
        ensures { result ≡ factory }
    {
        factory.lawful();
        let before = factory.journal().len();
        Desk {
            factory,
            before,
            of: PhantomData,
        }
    }

    /// How many sessions there are.
    pub fn sessions(&self) -> usize
        ensures count { result ≡ length N.script.sessions }
        ensures few { result < 2 ^ 32 }
    {
        self.factory.sessions()
    }

    /// How many entries a session had before the threads' first step, or 4294967295 if there are more. The gate is told
    /// how far a session is, and counts on from this.
    pub fn place_of(&self, number: SessionNo) -> u32 {
        let entries = self.factory.journal().as_slice();
        let before = self.before.min(entries.len());
        count_of(&entries[..before], number)
    }

    /// One step of a session. Once memory has run out none is made any more.
    pub fn step(&mut self, alloc: Global, number: SessionNo) -> Result<Stepped, AllocError>
        requires { number < length N.script.sessions }
    {
        if self.factory.refused() {
            return Err(AllocError);
        }
        self.factory.step(alloc, number)
    }

    /// Runs each session to its end, unless memory has run out. The caller does it when the threads have ended.
    pub fn finish(&mut self, alloc: Global)
        ensures { self.new.refused ≡ false → AreOver N.script (past self.new.journal) }
    {
        if !self.factory.refused() {
            let _ = self.factory.finish(alloc);
        }
    }

    /// The factory, after all steps.
    pub fn close(self) -> Factory<K, N, L>
        ensures same { result ≡ self }
        ensures worked { IsWorked N.script N.from H.factory result }
    {
        let Desk {
            factory,
            before: _,
            of: _,
        } = self;
        factory
    }
}
