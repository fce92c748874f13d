// The journal of two nodes: a list of entries, with room that is made beforehand.
ghost use Rattle.std.specs.Prelude.{◌≡◌, ◌+◌, ◌<◌, ◌≤◌, ◌^◌, [], ◌∷◌, length, OnOk};

use hib_nodes_law::NodeEntry;
use std::alloc::{AllocError, Global};
use std::marker::Model;

/// The greatest number of entries. No memory holds more; so no tick runs over.
const MOST: usize = 1 << 62;

/// The entries of both nodes, the oldest first. They are only added to. Room for the next ones is made before they
/// come.
#[derive(Drop)]
pub struct Noded {
    entries: Vec<NodeEntry>,
}

impl Model for Noded {
    ghost use Rattle.std.specs.Prelude.{◌-◌, ◌^◌, ◌≤◌, min, vec_len, vec_capacity};
    ghost use Rattle.hib_nodes.specs.Kept.{Kept};

    ghost Value = { Kept };

    ghost view = { λ j. record {
      list = j.entries.items;
      spare = min (vec_capacity j.entries) (2 ^ 62) - vec_len j.entries;
    } };

    ghost invariant = { λ j. vec_len j.entries ≤ 2 ^ 62 };
}

impl Noded {
    ghost use Rattle.hib_nodes.specs.Kept.{past};

    /// The empty journal.
    #[tactic(auto, unfolding(crate::specs::Kept::past))]
    pub fn open(alloc: Global) -> Noded
        ensures list { result.list ≡ [] }
        ensures past { past result ≡ [] }
    {
        Noded {
            entries: Vec::new(alloc),
        }
    }

    /// Makes room for two more entries, as many as a fence adds. At an error the entries are as before.
    #[tactic(auto, unfolding(crate::specs::Kept::past))]
    pub fn reserve(&mut self) -> Result<(), AllocError>
        ensures list { self.new.list ≡ self.old.list }
        ensures past { past self.new ≡ past self.old }
        ensures ok { OnOk result (1 < self.new.spare) }
        ensures few { OnOk result (length (past self.old) + 1 < 2 ^ 62) }
    {
        if self.entries.len() >= MOST - 1 {
            return Err(AllocError);
        }
        self.entries.reserve(2)
    }

    /// Adds an entry at the end. There must be room for it. It takes no memory.
    #[tactic(auto, unfolding(crate::specs::Kept::past))]
    pub fn push(&mut self, entry: NodeEntry)
        requires { 0 < self.old.spare }
        ensures past { past self.new ≡ entry ∷ past self.old }
        ensures spare { self.new.spare + 1 ≡ self.old.spare }
    {
        self.entries.push_reserved(entry);
    }

    /// How many entries there are.
    #[tactic(auto, unfolding(crate::specs::Kept::past))]
    pub fn len(&self) -> usize
        ensures list { result ≡ length self.now.list }
        ensures past { result ≡ length (past self.now) }
        ensures few { result ≤ 2 ^ 62 }
    {
        self.entries.len()
    }

    /// The entries, the oldest first.
    pub fn as_slice(&self) -> &[NodeEntry]
        ensures { result.now ≡ self.now.list }
    {
        self.entries.as_slice()
    }
}
