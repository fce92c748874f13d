// The sessions that a script declares, as its reader has them so far: an order names its session.
ghost use Rattle.hib_statements.specs.Places.{or_place, place_of};
ghost use Rattle.std.specs.List.{list_any};
ghost use Rattle.std.specs.Prelude.{◌≡◌, ◌<◌, ◌∷◌, [], ◌++◌, OnOk, OnErr, bytes_eq, length, position, ℕ, List, if◌then◌else◌, Some, None};
ghost use Rattle.indexmap.specs.IndexMap.{insert_entry, spare};

use hib_base::{Seq, SessionDef, Sessions};
use indexmap::IndexMap;
use std::alloc::{AllocError, Global};
use std::marker::Model;

/// The sessions that a script declares, in order. One is found by its name in a map, however many there are.
#[derive(Drop)]
pub struct NamedSessions {
    sessions: Sessions,
    places: IndexMap<Vec<u8>, usize>,
}

impl Model for NamedSessions {
    ghost use Rattle.std.specs.Prelude.{◌≡◌, List, ℕ, bytes_eq, position};
    ghost use Rattle.hib_base.specs.declared.scripts.SessionDef.{SessionDef};
    ghost use Rattle.hib_statements.specs.Places.{place_of};

    ghost Value = { List SessionDef };

    ghost view = { λ n. n.sessions };

    ghost invariant = { λ n. (w : List ℕ)
        → place_of w n.places.entries ≡ position (λ s. bytes_eq s.name w) n.sessions };
}

/// Notes the place of a name's session. There must be room for it. It takes no memory.
fn put(places: &mut IndexMap<Vec<u8>, usize>, name: Vec<u8>, place: usize)
    requires { 0 < spare places.old }
    ensures { places.new.entries ≡ insert_entry
        (λ a b. bytes_eq a.items b.items) places.old.entries name place }
{
    places.insert(name, place).unwrap();
}

/// Notes the place of a name's session, unless the name has one before. There must be room for it. It takes no memory.
fn note(places: &mut IndexMap<Vec<u8>, usize>, name: Vec<u8>, place: usize)
    requires { 0 < spare places.old }
    ensures { (w : List ℕ) → place_of w places.new.entries
        ≡ or_place (place_of w places.old.entries)
        (if bytes_eq name.items w then Some place else None) }
{
    if !places.contains_key(name.as_slice()) {
        put(places, name, place);
    }
}

impl NamedSessions {
    /// No session. It takes no memory.
    pub fn new(alloc: Global) -> NamedSessions
        ensures { result ≡ [] }
    {
        NamedSessions {
            sessions: Seq::new(alloc),
            places: IndexMap::new(alloc),
        }
    }

    /// How many sessions there are.
    pub fn len(&self) -> usize
        ensures { result ≡ length self.now }
    {
        self.sessions.len()
    }

    /// The place of the first session of this name, if there is one.
    pub fn place(&self, name: &[u8]) -> Option<usize>
        ensures { result ≡ position (λ s. bytes_eq s.name name.now) self.now }
    {
        self.places.get(name).copied()
    }

    /// Whether a session has this name.
    pub fn has(&self, name: &[u8]) -> bool
        ensures { result ≡ list_any (λ s. bytes_eq s.name name.now) self.now }
    {
        self.place(name).is_some()
    }

    /// Adds a session. At an error nothing has changed.
    pub fn push(&mut self, alloc: Global, session: SessionDef) -> Result<(), AllocError>
        ensures ok { OnOk result (self.new ≡ self.old ++ session ∷ []) }
        ensures err { OnErr result (self.new ≡ self.old) }
    {
        let name = Vec::from_slice(alloc, session.name.as_slice())?;
        let place = self.sessions.len();
        self.places.reserve(1)?;
        self.sessions.push(session)?;
        note(&mut self.places, name, place);
        Ok(())
    }

    /// The sessions, in order. It takes no memory.
    pub fn into_sessions(self) -> Sessions
        ensures { result ≡ self }
    {
        self.sessions
    }
}
