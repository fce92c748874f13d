// When keys were deleted: one that is inserted after that is unsound.
ghost use Rattle.std.specs.Prelude.{◌≡◌, if◌then◌else◌, [], None, Some, OnOk};
ghost use Rattle.std.specs.List.{list_any};
ghost use Rattle.std.specs.Map.{lookup};
ghost use Rattle.hib_base.specs.Keys.{same_key};
ghost use Rattle.hib_journal.specs.Sessions.{committer, is_restart};
ghost use Rattle.hib_journal.specs.Sound.{deletes_key};
ghost use Rattle.hib_journal.specs.Types.{Key};
ghost use Rattle.hib_follow.specs.Deleted.{committed_at};
ghost use Rattle.hib_follow.specs.Desks.{changes_at};

use crate::desk::Desk;
use crate::desks::Desks;
use hib_base::{Act, Change, Entry, Key};
use hib_journal::committer;
use indexmap::IndexMap;
use std::alloc::{AllocError, Global};

/// By key, the number of the entry whose commit deleted it last.
type Numbers = IndexMap<Key, u64>;

/// Notes the key of a change that is committed, if it deletes it.
fn note_change(numbers: &mut Numbers, since: u64, change: &Change) -> Result<(), AllocError>
    ensures { OnOk result ((k : Key) → lookup (same_key k) numbers.new.entries
        ≡ (if deletes_key k change.now then Some since else lookup (same_key k) numbers.old.entries)) }
{
    match change {
        Change::Delete { key, .. } => {
            numbers.insert(*key, since)?;
            Ok(())
        }
        _ => Ok(()),
    }
}

/// Notes the keys that a session's committed changes delete.
#[tactic(auto, using(crate::proofs::Buried::delete_step))]
fn note_changes(numbers: &mut Numbers, since: u64, desk: &Desk<'_>) -> Result<(), AllocError>
    ensures { OnOk result ((k : Key) → lookup (same_key k) numbers.new.entries
        ≡ (if list_any (deletes_key k) (changes_at desk.now.written.items) then Some since else lookup (same_key k) numbers.old.entries)) }
{
    for change in desk.written.as_slice() {
        note_change(numbers, since, *change)?;
    }
    Ok(())
}

/// Notes the keys that an entry's commit deletes. The entry is no restart.
fn note_commit(
    numbers: &mut Numbers,
    since: u64,
    desks: &Desks<'_>,
    entry: &Entry,
) -> Result<(), AllocError>
    ensures { OnOk result ((k : Key) → lookup (same_key k) numbers.new.entries
        ≡ (if list_any (deletes_key k) (committed_at desks.now.all.items (committer entry.now.act entry.now.reply entry.now.session))
        then Some since else lookup (same_key k) numbers.old.entries)) }
{
    match committer(entry) {
        None => Ok(()),
        Some(session) => match desks.of(session) {
            None => Ok(()),
            Some(desk) => note_changes(numbers, since, desk),
        },
    }
}

/// When keys were deleted, since the last restart.
#[derive(Drop)]
pub struct Deleted {
    /// By key, the number of the entry whose commit deleted it last.
    pub numbers: Numbers,
}

impl Deleted {
    /// Before any entry.
    pub fn new(alloc: Global) -> Deleted
        ensures { result.numbers.entries ≡ [] }
    {
        Deleted {
            numbers: IndexMap::new(alloc),
        }
    }

    /// The number of the entry whose commit deleted a key last.
    pub fn of(&self, key: &Key) -> Option<u64>
        ensures { result ≡ lookup (same_key key.now) self.now.numbers.entries }
    {
        self.numbers.get(key).copied()
    }

    /// Takes an entry, the next one, with its number. Of the sessions it is known what they had written before it.
    pub fn note(&mut self, since: u64, desks: &Desks<'_>, entry: &Entry) -> Result<(), AllocError>
        ensures { OnOk result ((k : Key) → lookup (same_key k) self.new.numbers.entries
            ≡ (if is_restart entry.now.act then None
            else if list_any (deletes_key k) (committed_at desks.now.all.items (committer entry.now.act entry.now.reply entry.now.session))
            then Some since else lookup (same_key k) self.old.numbers.entries)) }
    {
        if matches!(entry.act, Act::Restart) {
            self.numbers.clear();
            return Ok(());
        }
        note_commit(&mut self.numbers, since, desks, entry)
    }
}
