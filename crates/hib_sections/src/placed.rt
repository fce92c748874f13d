// The nodes that sessions are given.
ghost use Rattle.std.specs.Prelude.{◌≡◌, ◌∷◌, [], ◌++◌, OnOk, OnErr};
ghost use Rattle.hib_sections.specs.Placed.{is_placed};

use hib_base::{Seq, SessionNo};
use hib_nodes_law::Nodings;
use indexmap::IndexSet;
use std::alloc::{AllocError, Global};
use std::marker::Model;

/// The nodes that sessions are given, in order: whether a session has one is asked of a set, however many there are.
#[derive(Drop)]
pub struct Placed {
    nodes: Nodings,
    sessions: IndexSet<SessionNo>,
}

impl Model for Placed {
    ghost use Rattle.std.specs.Prelude.{◌≡◌, ◌==◌, ℕ};
    ghost use Rattle.std.specs.List.{list_any};
    ghost use Rattle.hib_nodes_law.specs.Types.{Nodings as NodingsOf};
    ghost use Rattle.hib_sections.specs.Placed.{is_placed};

    ghost Value = { NodingsOf };

    ghost view = { λ p. p.nodes };

    ghost invariant = { λ p. (s : ℕ) → list_any (λ x. s == x) p.sessions.keys ≡ is_placed p.nodes s };
}

impl Placed {
    /// No session. It takes no memory.
    pub fn new(alloc: Global) -> Placed
        ensures { result ≡ [] }
    {
        Placed {
            nodes: Seq::new(alloc),
            sessions: IndexSet::new(alloc),
        }
    }

    /// Whether a session has a node.
    pub fn has(&self, session: SessionNo) -> bool
        ensures { result ≡ is_placed self.now session }
    {
        self.sessions.contains(&session)
    }

    /// Gives a session its node. At an error nothing has changed.
    pub fn push(&mut self, place: (SessionNo, u8)) -> Result<(), AllocError>
        ensures ok { OnOk result (self.new ≡ self.old ++ place ∷ []) }
        ensures err { OnErr result (self.new ≡ self.old) }
    {
        let session = place.0;
        self.sessions.reserve(1)?;
        self.nodes.push(place)?;
        self.sessions.insert(session).unwrap();
        Ok(())
    }

    /// The nodes, in order. It takes no memory.
    pub fn into_nodes(self) -> Nodings
        ensures { result ≡ self }
    {
        self.nodes
    }
}
