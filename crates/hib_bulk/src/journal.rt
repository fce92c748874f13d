// The journal of a run with bulk lines: a list of entries, with room that is made beforehand.
ghost use Rattle.std.specs.Prelude.{◌≡◌, ◌+◌, ◌<◌, ◌≤◌, ◌^◌, [], ◌∷◌, length, OnOk};

use hib_bulk_law::BulkEntry;
use std::alloc::{AllocError, Global};
use std::marker::Model;

/// The greatest number of entries. No memory holds more; so no tick runs over.
const MOST: usize = 1 << 62;

/// The entries of a run with bulk lines, the oldest first. They are only added to. Room for the next one is made before
/// it comes.
#[derive(Drop)]
pub struct Bulked {
    entries: Vec<BulkEntry>,
}

impl Model for Bulked {
    ghost use Rattle.std.specs.Prelude.{◌-◌, ◌^◌, ◌≤◌, min, vec_len, vec_capacity};
    ghost use Rattle.hib_bulk.specs.Kept.{Kept};

    ghost Value = { Kept };

    ghost view = { λ j. record {
      list = j.entries.items;
      spare = min (vec_capacity j.entries) (2 ^ 62) - vec_len j.entries;
    } };

    ghost invariant = { λ j. vec_len j.entries ≤ 2 ^ 62 };
}

impl Bulked {
    ghost use Rattle.hib_bulk.specs.Kept.{past};

    /// The empty journal.
    #[tactic(auto, unfolding(crate::specs::Kept::past))]
    pub fn open(alloc: Global) -> Bulked
        ensures list { result.list ≡ [] }
        ensures past { past result ≡ [] }
    {
        Bulked {
            entries: Vec::new(alloc),
        }
    }

    /// Makes room for one more entry. At an error the entries are as before.
    #[tactic(auto, unfolding(crate::specs::Kept::past))]
    pub fn reserve(&mut self) -> Result<(), AllocError>
        ensures list { self.new.list ≡ self.old.list }
        ensures past { past self.new ≡ past self.old }
        ensures ok { OnOk result (0 < self.new.spare) }
        ensures few { OnOk result (length (past self.old) < 2 ^ 62) }
    {
        if self.entries.len() >= MOST {
            return Err(AllocError);
        }
        self.entries.reserve(1)
    }

    /// Adds an entry at the end. There must be room for it. It takes no memory.
    #[tactic(auto, unfolding(crate::specs::Kept::past))]
    pub fn push(&mut self, entry: BulkEntry)
        requires { 0 < self.old.spare }
        ensures { past self.new ≡ entry ∷ past self.old }
    {
        self.entries.push_reserved(entry);
    }

    /// How many entries there are.
    #[tactic(auto, unfolding(crate::specs::Kept::past))]
    pub fn len(&self) -> usize
        ensures list { result ≡ length self.now.list }
        ensures past { result ≡ length (past self.now) }
        ensures few { result ≤ 2 ^ 62 }
    {
        self.entries.len()
    }

    /// The entries, the oldest first.
    pub fn as_slice(&self) -> &[BulkEntry]
        ensures { result.now ≡ self.now.list }
    {
        self.entries.as_slice()
    }
}
