// What is noted of a session beside what it remembers itself. By it `turns` knows what is due at the regions of
// collections.
ghost use Rattle.std.specs.Prelude.{◌≡◌, [], drop, Some, None, IfOk, OnOk, OnErr, IfSome, IsSome, if◌then◌else◌, true};
ghost use Rattle.std.specs.Prelude.{is_some};
ghost use Rattle.hib_session.specs.Memory.{brings};
ghost use Rattle.hib_collections_law.specs.Gathered.{is_miss, unless_begun};
ghost use Rattle.hib_collections.specs.Notes.{listed_from, locks_with};

use crate::locks::Locks;
use crate::places::OwnerPlace;
use hib_base::{Act, Listing, Reply, Tick, copy_cells};
use std::alloc::{AllocError, Global};
use std::marker::Model;

/// What is noted of a session's last entries: the locks that it holds on owners of collections; the owner whose members
/// it asked for and was refused, unless it has got something since; and the list of them that it was answered after
/// that.
#[derive(Drop)]
pub struct Notes {
    locks: Locks,
    missed: Option<OwnerPlace>,
    listed: Option<(OwnerPlace, Listing)>,
}

impl Model for Notes {
    ghost use Rattle.hib_collections.specs.Notes.{NotesState};

    ghost Value = { NotesState };

    ghost view = { λ n. record {
      locks = n.locks.held;
      missed = n.missed;
      listed = n.listed;
      room = n.locks.room;
    } };
}

impl Notes {
    ghost use Rattle.hib_collections.specs.Notes.{AreNoted};

    /// What is noted of a session that has done nothing. It takes no memory.
    pub fn new(alloc: Global) -> Notes
        ensures { AreNoted result [] }
    {
        Notes {
            locks: Locks::new(alloc),
            missed: None,
            listed: None,
        }
    }

    /// The locks that it holds.
    pub fn locks(&self) -> &Locks
        ensures { result.now.held ≡ self.now.locks }
    {
        &self.locks
    }

    /// Whether it was refused members and has got nothing since.
    pub fn has_missed(&self) -> bool
        ensures { result ≡ is_some self.now.missed }
    {
        self.missed.is_some()
    }

    /// Whether it was answered a list of members after they were refused, and hasn't offered it to the region yet.
    pub fn has_listed(&self) -> bool
        ensures { result ≡ is_some self.now.listed }
    {
        self.listed.is_some()
    }

    /// What it is to offer to a region: the owner whose members were refused, and a copy of the list that was answered
    /// then.
    pub fn copy_of_listed(&self, alloc: Global) -> Result<Option<(OwnerPlace, Listing)>, AllocError>
        ensures { IfOk result (λ l. l ≡ self.now.listed) }
    {
        match &self.listed {
            Some((place, list)) => {
                let list = copy_cells(alloc, list)?;
                Ok(Some((*place, list)))
            }
            None => Ok(None),
        }
    }

    /// Takes that list out, when it is offered to the region. There must be one. Only locks stay noted. It takes no
    /// memory.
    pub fn take_listed(&mut self) -> Listing
        requires { IsSome self.old.listed }
        ensures list { IfSome self.old.listed (λ l. l.1 ≡ result) }
        ensures locks { self.new.locks ≡ self.old.locks }
        ensures missed { self.new.missed ≡ None }
        ensures listed { self.new.listed ≡ None }
    {
        self.missed = None;
        let (_, list) = self.listed.take().unwrap();
        list
    }

    /// What `note` is to be given for an act and its reply: if a list is answered after members were refused, the owner
    /// and a copy of the list. It takes memory for a list alone.
    pub fn copy_listed(
        &self,
        alloc: Global,
        act: &Act,
        reply: &Reply,
    ) -> Result<Option<(OwnerPlace, Listing)>, AllocError>
        ensures listed { IfOk result (λ l. l ≡ listed_from self.now.missed act.now reply.now) }
        ensures fails { OnErr result (brings act.now ≡ true) }
    {
        match (self.missed, act, reply) {
            (Some(place), Act::List { .. }, Reply::Listed(list)) => {
                let list = copy_cells(alloc, list)?;
                Ok(Some((place, list)))
            }
            _ => Ok(None),
        }
    }

    /// Notes that an entry of the session's plan came, with what `copy_listed` gave for it. It takes no memory.
    pub fn note(&mut self, act: &Act, listed: Option<(OwnerPlace, Listing)>)
        ensures locks { self.new.locks ≡ unless_begun act.now self.old.locks }
        ensures missed { self.new.missed ≡ None }
        ensures listed { self.new.listed ≡ listed }
    {
        if let Act::Begin = act {
            self.locks.clear();
        }
        self.missed = None;
        self.listed = listed;
    }

    /// Notes what was answered, other than a hit, when the members of an owner were asked for. It takes no memory.
    pub fn miss(&mut self, place: OwnerPlace, reply: &Reply)
        ensures locks { self.new.locks ≡ self.old.locks }
        ensures missed { self.new.missed ≡ (if is_miss reply.now then Some place else None) }
        ensures listed { self.new.listed ≡ None }
    {
        self.missed = match reply {
            Reply::Miss(_) => Some(place),
            _ => None,
        };
        self.listed = None;
    }

    /// Notes that another entry on a region came, after which only locks stay noted. It takes no memory.
    pub fn settle(&mut self)
        ensures locks { self.new.locks ≡ self.old.locks }
        ensures missed { self.new.missed ≡ None }
        ensures listed { self.new.listed ≡ None }
        ensures room { self.new.room ≡ self.old.room }
    {
        self.missed = None;
        self.listed = None;
    }

    /// Makes room for one more lock. At an error nothing has changed but the room.
    pub fn reserve(&mut self) -> Result<(), AllocError>
        ensures locks { self.new.locks ≡ self.old.locks }
        ensures missed { self.new.missed ≡ self.old.missed }
        ensures listed { self.new.listed ≡ self.old.listed }
        ensures ok { OnOk result (self.new.room ≡ true) }
    {
        self.locks.reserve()
    }

    /// Notes what was answered to a lock of an owner. There must be room for one more. It takes no memory.
    pub fn lock(&mut self, place: OwnerPlace, reply: &Reply)
        requires { self.old.room ≡ true }
        ensures locks { self.new.locks ≡ locks_with place reply.now self.old.locks }
        ensures missed { self.new.missed ≡ None }
        ensures listed { self.new.listed ≡ None }
    {
        if let Reply::Locked(locked) = reply {
            self.locks.take(place, locked.id);
        }
        self.missed = None;
        self.listed = None;
    }

    /// Notes that the first lock was given back. It takes no memory.
    pub fn unlock(&mut self)
        ensures locks { self.new.locks ≡ drop 1 self.old.locks }
        ensures missed { self.new.missed ≡ None }
        ensures listed { self.new.listed ≡ None }
    {
        self.locks.give();
        self.missed = None;
        self.listed = None;
    }
}
