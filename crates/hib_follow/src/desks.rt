// What is known of each session.
ghost use Rattle.hib_journal.specs.Sessions.{Journal};
ghost use Rattle.hib_journal.specs.Types.{Entry};
ghost use Rattle.hib_follow.specs.Desks.{AreDesks};
ghost use Rattle.std.specs.Prelude.{◌≡◌, ◌∷◌, ◌<◌, List, [], Some, OnOk, length, option_copied, slice_get};

use crate::desk::Desk;
use hib_base::{Entry, SessionNo};
use std::alloc::{AllocError, Global};

/// What is known of each session, by its number. One that isn't here has done nothing.
#[derive(Drop)]
pub struct Desks<'a> {
    /// Of each session, what is known of it.
    pub all: Vec<Desk<'a>>,
}

impl<'a> Desks<'a> {
    /// Before any entry.
    pub fn new(alloc: Global) -> Desks<'a>
        ensures { (es : List Entry) → AreDesks es [] result.all.items }
    {
        Desks {
            all: Vec::new(alloc),
        }
    }

    /// What is known of a session.
    pub fn of(&self, session: SessionNo) -> Option<&Desk<'a>>
        ensures { option_copied result ≡ slice_get self.now.all.items session }
    {
        self.all.as_slice().get(session.0 as usize)
    }

    /// Makes a place for each session up to this one.
    fn reach(&mut self, alloc: Global, session: SessionNo) -> Result<(), AllocError>
        ensures there { OnOk result (session < length self.new.all.items) }
        ensures known { OnOk result ((es : List Entry) (h : Journal)
            → AreDesks es h self.old.all.items → AreDesks es h self.new.all.items) }
    {
        for _at in self.all.len()..session.0 as usize + 1 {
            self.all.push(Desk::new(alloc))?;
        }
        Ok(())
    }

    /// Takes the next entry, which stands at a place among all entries.
    pub fn note(&mut self, alloc: Global, place: usize, entry: &'a Entry) -> Result<(), AllocError>
        ensures { OnOk result ((es : List Entry) (h : Journal)
            → slice_get es place ≡ Some entry.now → AreDesks es h self.old.all.items
            → AreDesks es (entry.now ∷ h) self.new.all.items) }
    {
        let Some(session) = entry.session else {
            return Ok(());
        };
        self.reach(alloc, session)?;
        self.all[session.0 as usize].note(place, entry)
    }
}
