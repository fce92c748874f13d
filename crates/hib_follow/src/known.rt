// What is known after some entries of a journal.
ghost use Rattle.std.specs.Prelude.{◌≡◌, ◌∷◌, List, [], Some, OnOk, length, slice_get};
ghost use Rattle.hib_base.specs.Tables.{Tables};
ghost use Rattle.hib_journal.specs.Legal.{IsLegal};
ghost use Rattle.hib_journal.specs.Sessions.{Journal};
ghost use Rattle.hib_journal.specs.Types.{Entry, Script};
ghost use Rattle.hib_follow.specs.Known.{Knows};

use crate::deleted::Deleted;
use crate::desks::Desks;
use crate::holders::Holders;
use crate::marks::{Keeps, Stamps};
use crate::shelf::Shelf;
use hib_base::{Entry, Script};
use std::alloc::{AllocError, Global};

/// What is known after some entries.
#[derive(Drop)]
pub struct Known<'a> {
    /// Of keys.
    pub shelf: Shelf,
    /// Of tables.
    pub stamps: Stamps,
    /// Of queries.
    pub keeps: Keeps,
    /// Of sessions.
    pub desks: Desks<'a>,
    /// Of deleted keys.
    pub deleted: Deleted,
    /// Of those who hold locks.
    pub holders: Holders,
}

impl<'a> Known<'a> {
    /// Before any entry.
    pub fn new(alloc: Global) -> Known<'a>
        ensures { (script : Script) (es : List Entry) → Knows script es [] result }
    {
        Known {
            shelf: Shelf::new(alloc),
            stamps: Stamps::new(alloc),
            keeps: Keeps::new(alloc),
            desks: Desks::new(alloc),
            deleted: Deleted::new(alloc),
            holders: Holders::new(alloc),
        }
    }

    /// Takes the entry at a place, the next one. A number that is too large is answered as want of memory.
    pub fn note(
        &mut self,
        alloc: Global,
        script: &Script,
        entries: &[Entry],
        place: usize,
        entry: &'a Entry,
    ) -> Result<(), AllocError>
        requires { slice_get entries.now place ≡ Some entry.now }
        ensures { OnOk result ((start : Tables) (h : Journal) → length h ≡ place
            → IsLegal script.now (Some start) (entry.now ∷ h)
            → Knows script.now entries.now h self.old → Knows script.now entries.now (entry.now ∷ h) self.new) }
    {
        let number = place as u64 + 1;
        self.shelf.note(entries, script, place, entry)?;
        self.stamps.note(script, number, entry)?;
        self.keeps.note(number, entry)?;
        self.deleted.note(number, &self.desks, entry)?;
        self.holders.note(alloc, entry)?;
        self.desks.note(alloc, place, entry)?;
        Ok(())
    }
}
