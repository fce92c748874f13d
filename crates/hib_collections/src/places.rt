// An owner of a collection: where members are asked for, offered and locked. To the region of the collection it is a
// key.
ghost use Rattle.std.specs.Prelude.{◌≡◌};
ghost use Rattle.hib_journal.specs.Room.{key};

use hib_base::{EntityNo, Key};
use std::marker::Model;

/// An owner of a collection. Contracts see the pair.
#[derive(Clone, Copy, Debug, PartialEq, Eq, Hash)]
pub struct OwnerPlace {
    /// The collection, by its place among the collections.
    pub collection: u16,
    /// The owner, by its identifier.
    pub owner: u64,
}

impl Model for OwnerPlace {
    ghost use Rattle.std.specs.Prelude.{ℕ};

    ghost Value = { ℕ × ℕ };

    ghost view = { λ p. (p.collection, p.owner) };

    ghost inverse = { λ p. record { collection = p.0; owner = p.1 } };
}

impl OwnerPlace {
    /// The collection, taken for an entity.
    pub fn entity(self) -> EntityNo
        ensures { result ≡ self.0 }
    {
        EntityNo(self.collection)
    }

    /// The owner as a key, for the regions of collections alone: its collection is taken for an entity, by its place.
    pub fn key(self) -> Key
        ensures { result ≡ key self.0 self.1 }
    {
        Key {
            entity: EntityNo(self.collection),
            id: self.owner,
        }
    }
}
