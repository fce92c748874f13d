// Entries of other lists in a new order, without copies of them. Merging and comparing work on these.
ghost use Rattle.std.specs.Prelude.{◌≡◌, ◌<◌, ◌^◌, ◌++◌, ◌∷◌, [], length, slice_get, IfOk, IfSome, OnOk, MatchOption, Some, None};

use hib_base::Entry;
use hib_journal::Journal;
use std::alloc::{AllocError, Global};
use std::marker::Model;

/// Entries of other lists, which stay where they are, in an order of their own.
#[derive(Drop)]
pub struct Pointed<'a> {
    entries: Vec<&'a Entry>,
}

impl<'a> Model for Pointed<'a> {
    ghost use Rattle.std.specs.Prelude.{List, map};
    ghost use Rattle.hib_base.specs.declared.entries.Entry.{Entry};

    ghost Value = { List Entry };

    ghost view = { λ p. map (λ r. r.now) p.entries.items };
}

impl<'a> Pointed<'a> {
    /// No entry. It takes no memory.
    pub fn new(alloc: Global) -> Pointed<'a>
        ensures { result ≡ [] }
    {
        Pointed {
            entries: Vec::new(alloc),
        }
    }

    /// The entries of a list, in its order.
    pub fn of(alloc: Global, entries: &'a [Entry]) -> Result<Pointed<'a>, AllocError>
        ensures { IfOk result (λ p. p ≡ entries.now) }
    {
        let mut all = Pointed {
            entries: Vec::with_capacity(alloc, entries.len())?,
        };
        for entry in entries {
            all.push(entry)?;
        }
        Ok(all)
    }

    /// Adds an entry at the end.
    pub fn push(&mut self, entry: &'a Entry) -> Result<(), AllocError>
        ensures { OnOk result (self.new ≡ self.old ++ entry.now ∷ []) }
    {
        self.entries.push(entry)?;
        Ok(())
    }

    /// How many there are.
    pub fn len(&self) -> usize
        ensures { result ≡ length self.now }
    {
        self.entries.len()
    }

    /// The entry at a place, or none past the last.
    pub fn get(&self, place: usize) -> Option<&'a Entry>
        ensures entry { MatchOption result (slice_get self.now place ≡ None)
            (λ e. slice_get self.now place ≡ Some e.now) }
        ensures few { IfSome result (λ _. place < 2 ^ 62) }
    {
        self.entries.get(place).copied()
    }

    /// A list of equal entries.
    pub fn copy(&self, alloc: Global) -> Result<Journal, AllocError>
        ensures { IfOk result (λ j. j.list ≡ self.now) }
    {
        let mut all = Journal::open(alloc);
        for entry in self.entries.as_slice() {
            all.push(entry.copy(alloc)?)?;
        }
        Ok(all)
    }
}
