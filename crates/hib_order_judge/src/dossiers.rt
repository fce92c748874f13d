// What is known of each session.
ghost use Rattle.hib_base.specs.Tables.{in_order};
ghost use Rattle.hib_journal.specs.Sessions.{Journal, changes, own};
ghost use Rattle.hib_journal.specs.Types.{Entry};
ghost use Rattle.hib_order_judge.specs.Dossiers.{AreDossiers};
ghost use Rattle.hib_order_law.specs.Judged.{is_lost_by, last_found};
ghost use Rattle.std.specs.Option.{option_map_or};
ghost use Rattle.std.specs.Prelude.{◌≡◌, ◌∷◌, ◌<◌, List, [], Some, OnOk, length, option_copied, slice_get, true};

use crate::dossier::Dossier;
use hib_base::{Cell, Entry, Rows, SessionNo};
use std::alloc::{AllocError, Global};

/// What is known of each session, by its number. One that isn't here has done nothing.
#[derive(Drop)]
pub struct Dossiers<'a> {
    /// Of each session, what is known of it.
    pub all: Vec<Dossier<'a>>,
}

impl<'a> Dossiers<'a> {
    /// Before any entry.
    pub fn new(alloc: Global) -> Dossiers<'a>
        ensures { (es : List Entry) → AreDossiers es [] result.all.items }
    {
        Dossiers {
            all: Vec::new(alloc),
        }
    }

    /// What is known of a session.
    pub fn of(&self, session: SessionNo) -> Option<&Dossier<'a>>
        ensures { option_copied result ≡ slice_get self.now.all.items session }
    {
        self.all.as_slice().get(session.0 as usize)
    }

    /// The list that the last entry of a session has found.
    pub fn found(&self, session: Option<SessionNo>) -> &'a [Cell]
        ensures { (es : List Entry) (h : Journal) → AreDossiers es h self.now.all.items
            → result.now ≡ option_map_or (λ s. last_found (own s h)) session [] }
    {
        let Some(session) = session else {
            return &[];
        };
        match self.of(session) {
            None => &[],
            Some(dossier) => dossier.found,
        }
    }

    /// Whether a change that a session has written since its last Begin rests on a row that is not the committed one.
    pub fn has_lost_row(&self, entries: &[Entry], session: SessionNo, rows: &Rows) -> bool
        requires { in_order rows.now ≡ true }
        ensures { (h : Journal) → AreDossiers entries.now h self.now.all.items
            → result ≡ is_lost_by rows.now (own session h) (changes session h) }
    {
        match self.of(session) {
            None => false,
            Some(dossier) => dossier.has_lost_row(entries, rows),
        }
    }

    /// Makes a place for each session up to this one.
    fn reach(&mut self, alloc: Global, session: SessionNo) -> Result<(), AllocError>
        ensures there { OnOk result (session < length self.new.all.items) }
        ensures known { OnOk result ((es : List Entry) (h : Journal)
            → AreDossiers es h self.old.all.items → AreDossiers es h self.new.all.items) }
    {
        for _at in self.all.len()..session.0 as usize + 1 {
            self.all.push(Dossier::new(alloc))?;
        }
        Ok(())
    }

    /// Takes the next entry, which stands at a place among all entries.
    pub fn note(&mut self, alloc: Global, place: usize, entry: &'a Entry) -> Result<(), AllocError>
        ensures { OnOk result ((es : List Entry) (h : Journal)
            → slice_get es place ≡ Some entry.now → AreDossiers es h self.old.all.items
            → AreDossiers es (entry.now ∷ h) self.new.all.items) }
    {
        let Some(session) = entry.session else {
            return Ok(());
        };
        self.reach(alloc, session)?;
        self.all[session.0 as usize].note(place, entry)
    }
}
