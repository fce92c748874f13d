// The journal of a run with collections: a list of entries, with room that is made beforehand.
ghost use Rattle.std.specs.Prelude.{◌≡◌, ◌+◌, ◌<◌, ◌^◌, [], ◌∷◌, length, slice_get, OnOk, MatchOption, List};
ghost use Rattle.hib_collections_law.specs.declared.entries.GatherEntry.{GatherEntry};

use hib_collections_law::GatherEntry;
use std::alloc::{AllocError, Global};
use std::marker::Model;

/// The greatest number of entries. No memory holds as many; so no tick runs over.
const MOST: usize = 1 << 62;

/// The entries of a run with collections, the oldest first. They are only added to. Room for the next one can be made
/// before it comes.
#[derive(Drop)]
pub struct Gathered {
    entries: Vec<GatherEntry>,
}

impl Model for Gathered {
    ghost use Rattle.std.specs.Prelude.{◌-◌, ◌<◌, ◌^◌, min, vec_len, vec_capacity};
    ghost use Rattle.hib_collections.specs.Kept.{Kept};

    ghost Value = { Kept };

    ghost view = { λ j. record {
      list = j.entries.items;
      spare = min (vec_capacity j.entries) (2 ^ 62 - 1) - vec_len j.entries;
    } };

    ghost invariant = { λ j. vec_len j.entries < 2 ^ 62 };
}

impl Gathered {
    ghost use Rattle.hib_collections.specs.Kept.{past};

    /// The empty journal.
    #[tactic(auto, unfolding(crate::specs::Kept::past))]
    pub fn open(alloc: Global) -> Gathered
        ensures list { result.list ≡ [] }
        ensures past { past result ≡ [] }
    {
        Gathered {
            entries: Vec::new(alloc),
        }
    }

    /// Makes room for one more entry. At an error the entries are as before.
    #[tactic(auto, unfolding(crate::specs::Kept::past))]
    pub fn reserve(&mut self) -> Result<(), AllocError>
        ensures list { self.new.list ≡ self.old.list }
        ensures past { past self.new ≡ past self.old }
        ensures ok { OnOk result (0 < self.new.spare) }
        ensures few { OnOk result (length (past self.old) + 1 < 2 ^ 62) }
    {
        if self.entries.len() + 1 >= MOST {
            return Err(AllocError);
        }
        self.entries.reserve(1)
    }

    /// Adds an entry at the end. There must be room for it. It takes no memory.
    #[tactic(auto, unfolding(crate::specs::Kept::past))]
    pub fn push(&mut self, entry: GatherEntry)
        requires room { 0 < self.old.spare }
        ensures past { past self.new ≡ entry ∷ past self.old }
    {
        self.entries.push_reserved(entry);
    }

    /// How many entries there are.
    #[tactic(auto, unfolding(crate::specs::Kept::past))]
    pub fn len(&self) -> usize
        ensures list { result ≡ length self.now.list }
        ensures past { result ≡ length (past self.now) }
        ensures few { result < 2 ^ 62 }
    {
        self.entries.len()
    }

    /// The entry at a place, from 0.
    pub fn at(&self, i: usize) -> &GatherEntry
        requires { i < length self.now.list }
        ensures { slice_get self.now.list i ≡ Some result.now }
    {
        &self.entries[i]
    }

    /// The newest entry, or none if there is no entry.
    #[tactic(auto, unfolding(crate::specs::Kept::past))]
    pub fn last(&self) -> Option<&GatherEntry>
        ensures { MatchOption result (past self.now ≡ []) (λ e. (g : List GatherEntry)
            × (past self.now ≡ e.now ∷ g)) }
    {
        self.entries.last()
    }

    /// The entries, the oldest first.
    pub fn as_slice(&self) -> &[GatherEntry]
        ensures { result.now ≡ self.now.list }
    {
        self.entries.as_slice()
    }
}
