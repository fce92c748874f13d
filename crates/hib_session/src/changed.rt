// The changes that a session has written in its transaction, with their keys, so that one is found without a search.
ghost use Rattle.std.specs.Prelude.{◌≡◌, ◌∷◌, [], ◌++◌, IsOk, OnOk, true};
ghost use Rattle.hib_journal.specs.Next.{is_in};
ghost use Rattle.hib_session.specs.Changed.{ChangedState};

use crate::keyed::{add, has_room_in, is_among};
use hib_base::{Change, Key};
use indexmap::IndexSet;
use std::alloc::{AllocError, Global};
use std::marker::Model;

/// The changes that a transaction has written, in order, and the keys that they are of: whether a key is among them is
/// asked of a set, however many there are.
#[derive(Drop)]
pub struct Changed {
    list: Vec<Change>,
    keys: IndexSet<Key>,
}

impl Model for Changed {
    ghost use Rattle.std.specs.Prelude.{◌≡◌, ◌&&◌, nat_lt, vec_len, vec_capacity};
    ghost use Rattle.indexmap.specs.IndexSet.{spare};
    ghost use Rattle.hib_journal.specs.Types.{Key};
    ghost use Rattle.hib_journal.specs.Next.{is_in};
    ghost use Rattle.hib_completion.specs.Completed.{is_key_in};
    ghost use Rattle.hib_session.specs.Changed.{ChangedState};

    ghost Value = { ChangedState };

    ghost view = { λ c. record {
      list = c.list.items;
      room = nat_lt (vec_len c.list) (vec_capacity c.list) && nat_lt 0 (spare c.keys);
    } };

    ghost invariant = { λ c. (k : Key) → is_key_in k c.keys.keys ≡ is_in k c.list.items };
}

impl Changed {
    /// No change was written. It takes no memory.
    pub fn new(alloc: Global) -> Changed
        ensures { result.list ≡ [] }
    {
        Changed {
            list: Vec::new(alloc),
            keys: IndexSet::new(alloc),
        }
    }

    /// The changes, in order.
    pub fn as_slice(&self) -> &[Change]
        ensures { result.now ≡ self.now.list }
    {
        self.list.as_slice()
    }

    /// Whether one of the changes is of a key.
    pub fn has(&self, key: Key) -> bool
        ensures { result ≡ is_in key self.now.list }
    {
        is_among(&self.keys, key)
    }

    /// Whether there is room for one more change.
    pub fn has_room(&self) -> bool
        ensures { result ≡ self.now.room }
    {
        self.list.len() < self.list.capacity() && has_room_in(&self.keys)
    }

    /// Makes room for one more change. At an error nothing has changed but the room.
    pub fn reserve(&mut self) -> Result<(), AllocError>
        ensures same { self.new.list ≡ self.old.list }
        ensures ok { OnOk result (self.new.room ≡ true) }
        ensures room { self.old.room ≡ true → IsOk result }
    {
        self.list.reserve(1)?;
        self.keys.reserve(1)?;
        Ok(())
    }

    /// Notes a change that was written. There must be room for it. It takes no memory.
    pub fn push(&mut self, change: Change)
        requires { self.old.room ≡ true }
        ensures { self.new.list ≡ self.old.list ++ change ∷ [] }
    {
        add(&mut self.keys, change.key());
        self.list.push_reserved(change);
    }
}
