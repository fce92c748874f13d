// What is known of a session, by which its lists and commits are judged.
ghost use Rattle.hib_base.specs.Tables.{in_order};
ghost use Rattle.hib_journal.specs.Sessions.{Journal, changes_after};
ghost use Rattle.hib_journal.specs.Types.{Entry};
ghost use Rattle.hib_order_judge.specs.Dossiers.{IsDossier, changes_at, has_lost_row, is_lost_row};
ghost use Rattle.hib_order_judge.specs.Footings.{rest_at};
ghost use Rattle.hib_order_law.specs.Judged.{found_in};
ghost use Rattle.std.specs.Prelude.{◌≡◌, ◌∷◌, [], List, Some, OnOk, slice_get, true};

use crate::footings::{Footings, Rests, note_footing, note_rest, row_from};
use crate::tests_of::is_same;
use hib_base::{Act, Cell, Change, Entry, Key, Reply, Rows};
use hib_outside::keyed;
use indexmap::IndexMap;
use std::alloc::{AllocError, Global};

/// What is known of a session after its own entries. They lend it, or it names their places.
#[derive(Drop)]
pub struct Dossier<'a> {
    /// The changes that it has written since its last Begin.
    pub written: Vec<&'a Change>,
    /// The kept result that its last entry has found, or the empty list. If its next entry, a check, says that it is
    /// fresh, it is judged whether it is old.
    pub found: &'a [Cell],
    /// On what its instances rest.
    pub footings: Footings,
    /// On what its first writes of each key since its last Begin rest.
    pub rests: Rests,
}

/// The cells of the kept result that a reply to a look has found. Empty if it is another reply.
fn found_in(reply: &Reply) -> &[Cell]
    ensures { result.now ≡ found_in reply.now }
{
    match reply {
        Reply::Found { list, .. } => list.as_slice(),
        _ => &[],
    }
}

/// Adds what an act writes. With a Begin nothing is written.
fn note_written<'a>(written: &mut Vec<&'a Change>, act: &'a Act) -> Result<(), AllocError>
    ensures { OnOk result (changes_at written.new.items
        ≡ changes_after act.now (changes_at written.old.items)) }
{
    match act {
        Act::Begin => {
            written.clear();
            Ok(())
        }
        Act::Write(change) => {
            written.push(change)?;
            Ok(())
        }
        _ => Ok(()),
    }
}

/// Whether a row on which a write of a key rests is not the committed one.
fn is_lost_row(entries: &[Entry], rows: &Rows, key: Key, rests: &Rests) -> bool
    requires { in_order rows.now ≡ true }
    ensures { result ≡ is_lost_row rows.now key (rest_at entries.now rests.now.entries key) }
{
    let Some(Some(place)) = rests.get(&key) else {
        return false;
    };
    match row_from(entries, *place) {
        Some(row) => !is_same(keyed::row_of(rows.as_slice(), &key), row),
        None => false,
    }
}

impl<'a> Dossier<'a> {
    /// What is known of a session that has done nothing.
    pub fn new(alloc: Global) -> Dossier<'a>
        ensures { (es : List Entry) → IsDossier es [] result }
    {
        Dossier {
            written: Vec::new(alloc),
            found: &[],
            footings: IndexMap::new(alloc),
            rests: IndexMap::new(alloc),
        }
    }

    /// Takes the session's next entry, which stands at a place among all entries.
    pub fn note(&mut self, place: usize, entry: &'a Entry) -> Result<(), AllocError>
        ensures { OnOk result ((es : List Entry) (mine : Journal)
            → slice_get es place ≡ Some entry.now → IsDossier es mine self.old
            → IsDossier es (entry.now ∷ mine) self.new) }
    {
        note_rest(&mut self.rests, &self.footings, &entry.act)?;
        note_footing(&mut self.footings, place, entry)?;
        note_written(&mut self.written, &entry.act)?;
        self.found = found_in(&entry.reply);
        Ok(())
    }

    /// Whether a change that it has written rests on a row that is not the committed one.
    pub fn has_lost_row(&self, entries: &[Entry], rows: &Rows) -> bool
        requires { in_order rows.now ≡ true }
        ensures { result ≡ has_lost_row entries.now rows.now self.now }
    {
        for change in self.written.as_slice() {
            if is_lost_row(entries, rows, change.key(), &self.rests) {
                return true;
            }
        }
        false
    }
}
