// The first rows that a script gives, as its reader has them so far.
ghost use Rattle.hib_statements.specs.Rows.{has_key};
ghost use Rattle.std.specs.Prelude.{◌≡◌, ◌∷◌, [], ◌++◌, OnOk, OnErr, length};

use hib_base::{Key, Row, Rows, Seq};
use indexmap::IndexSet;
use std::alloc::{AllocError, Global};
use std::marker::Model;

/// The rows that a script gives, in order, with the keys that they have: whether a key has a row is asked of a set,
/// however many there are.
#[derive(Drop)]
pub struct Given {
    rows: Rows,
    keys: IndexSet<Key>,
}

impl Model for Given {
    ghost use Rattle.std.specs.Prelude.{◌≡◌, List};
    ghost use Rattle.std.specs.List.{list_any};
    ghost use Rattle.hib_base.specs.Keys.{same_key};
    ghost use Rattle.hib_base.specs.declared.numbers.Key.{Key};
    ghost use Rattle.hib_base.specs.declared.rows.Row.{Row};
    ghost use Rattle.hib_statements.specs.Rows.{has_key};

    ghost Value = { List (Key × Row) };

    ghost view = { λ g. g.rows };

    ghost invariant = { λ g. (k : Key) → list_any (same_key k) g.keys.keys ≡ has_key g.rows k };
}

impl Given {
    /// No row. It takes no memory.
    pub fn new(alloc: Global) -> Given
        ensures { result ≡ [] }
    {
        Given {
            rows: Seq::new(alloc),
            keys: IndexSet::new(alloc),
        }
    }

    /// How many rows there are.
    pub fn len(&self) -> usize
        ensures { result ≡ length self.now }
    {
        self.rows.len()
    }

    /// Whether a key has a row.
    pub fn has(&self, key: Key) -> bool
        ensures { result ≡ has_key self.now key }
    {
        self.keys.contains(&key)
    }

    /// Adds a row. At an error nothing has changed.
    pub fn push(&mut self, row: (Key, Row)) -> Result<(), AllocError>
        ensures ok { OnOk result (self.new ≡ self.old ++ row ∷ []) }
        ensures err { OnErr result (self.new ≡ self.old) }
    {
        let key = row.0;
        self.keys.reserve(1)?;
        self.rows.push(row)?;
        self.keys.insert(key).unwrap();
        Ok(())
    }

    /// The rows, in order. It takes no memory.
    pub fn into_rows(self) -> Rows
        ensures { result ≡ self }
    {
        self.rows
    }
}
