// The locks that a session holds on owners of collections. By them it knows whom it still has to lock before a write,
// and what to give back before the end of its transaction.
ghost use Rattle.std.specs.Prelude.{◌≡◌, ◌∷◌, [], ◌++◌, drop, slice_get, OnOk, true};
ghost use Rattle.hib_collections_law.specs.Gathered.{is_locked};

use crate::places::OwnerPlace;
use hib_base::Tick;
use indexmap::IndexSet;
use std::alloc::{AllocError, Global};
use std::marker::Model;

/// The locks that a session has taken in its transaction and not given back, with their numbers, in the order in which
/// they were taken. Whether an owner is locked is looked up in a set, so it takes no longer if many are; from the first
/// lock given back on, which is at the transaction's end, it is searched for.
#[derive(Drop)]
pub struct Locks {
    /// All that were taken, those given back first.
    taken: Vec<(OwnerPlace, Tick)>,
    /// Their owners.
    places: IndexSet<OwnerPlace>,
    /// How many of them were given back.
    given: usize,
}

impl Model for Locks {
    ghost use Rattle.std.specs.Prelude.{◌≡◌, ◌≤◌, ◌&&◌, ℕ, drop, nat_lt, vec_len, vec_capacity};
    ghost use Rattle.indexmap.specs.IndexSet.{spare};
    ghost use Rattle.hib_collections_law.specs.Gathered.{is_locked};
    ghost use Rattle.hib_collections.specs.Notes.{LocksState, is_place_in};

    ghost Value = { LocksState };

    ghost view = { λ l. record {
      held = drop l.given l.taken.items;
      room = nat_lt (vec_len l.taken) (vec_capacity l.taken) && nat_lt 0 (spare l.places);
    } };

    ghost invariant = { λ l. (l.given ≤ vec_len l.taken)
        × ((p : ℕ × ℕ) → is_place_in p l.places.keys ≡ is_locked l.taken.items p) };
}

/// Whether one of these locks is on this owner.
fn is_among(locks: &[(OwnerPlace, Tick)], place: OwnerPlace) -> bool
    ensures { result ≡ is_locked locks.now place }
{
    locks.iter().any(|lock| lock.0 == place)
}

impl Locks {
    /// None was taken. It takes no memory.
    pub fn new(alloc: Global) -> Locks
        ensures { result.held ≡ [] }
    {
        Locks {
            taken: Vec::new(alloc),
            places: IndexSet::new(alloc),
            given: 0,
        }
    }

    /// Whether an owner is locked.
    pub fn has(&self, place: OwnerPlace) -> bool
        ensures { result ≡ is_locked self.now.held place }
    {
        if self.given == 0 {
            return self.places.contains(&place);
        }
        is_among(&self.taken[self.given..], place)
    }

    /// The lock that is to be given back first.
    pub fn first(&self) -> Option<(OwnerPlace, Tick)>
        ensures { result ≡ slice_get self.now.held 0 }
    {
        self.taken.as_slice().get(self.given).copied()
    }

    /// Makes room for one more. At an error nothing has changed but the room.
    pub fn reserve(&mut self) -> Result<(), AllocError>
        ensures same { self.new.held ≡ self.old.held }
        ensures ok { OnOk result (self.new.room ≡ true) }
    {
        self.taken.reserve(1)?;
        self.places.reserve(1)?;
        Ok(())
    }

    /// Notes that a lock was taken. There must be room for it. It takes no memory.
    pub fn take(&mut self, place: OwnerPlace, lock: Tick)
        requires { self.old.room ≡ true }
        ensures { self.new.held ≡ self.old.held ++ (place, lock) ∷ [] }
    {
        self.places.insert(place).unwrap();
        self.taken.push_reserved((place, lock));
    }

    /// Notes that the first lock was given back, if there is one. It takes no memory.
    pub fn give(&mut self)
        ensures { self.new.held ≡ drop 1 self.old.held }
    {
        if self.given < self.taken.len() {
            self.given += 1;
        }
    }

    /// Notes that none is held any more. It takes no memory.
    pub fn clear(&mut self)
        ensures { self.new.held ≡ [] }
    {
        self.taken.clear();
        self.places.clear();
        self.given = 0;
    }
}
