// What is known of the keys of regions.
ghost use Rattle.std.specs.Prelude.{◌≡◌, ◌+◌, if◌then◌else◌, false, [], None, Some, OnOk, is_some, slice_get};
ghost use Rattle.std.specs.Map.{lookup};
ghost use Rattle.hib_base.specs.Keys.{same_key};
ghost use Rattle.hib_journal.specs.Next.{strategy};
ghost use Rattle.hib_journal.specs.Sessions.{is_restart};
ghost use Rattle.hib_journal.specs.Slot.{Slot, evicted_in, touch, touch_at, touch_here};
ghost use Rattle.hib_journal.specs.Types.{Key};
ghost use Rattle.hib_follow.specs.Shelves.{kept_at, kept_slot, since_at};
ghost use Rattle.hib_follow.specs.Steps.{after};
ghost use Rattle.hib_follow.specs.Touched.{is_key, leaving};
ghost use Rattle.hib_follow.specs.declared.kept.Kept.{Kept};

use crate::kept::{Kept, after, is_touched, key_in, leaving};
use hib_base::{Act, Entry, Key, Script};
use indexmap::IndexMap;
use std::alloc::{AllocError, Global};

/// What is known of a key.
#[derive(Clone, Copy)]
pub struct Shelved {
    /// The number of the entry that touched it last.
    pub since: u64,
    /// What it has.
    pub kept: Kept,
}

/// By key, what is known of it. A key that isn't here was never touched since the restart.
type Shelves = IndexMap<Key, Shelved>;

fn shelved_at(shelves: &Shelves, key: &Key) -> Option<Shelved>
    ensures { result ≡ lookup (same_key key.now) shelves.now.entries }
{
    shelves.get(key).copied()
}

fn kept_at(shelves: &Shelves, key: &Key) -> Kept
    ensures { result ≡ kept_at shelves.now.entries key.now }
{
    match shelved_at(shelves, key) {
        Some(shelved) => shelved.kept,
        None => Kept::Nothing,
    }
}

fn set(shelves: &mut Shelves, key: &Key, since: u64, kept: Kept) -> Result<(), AllocError>
    ensures { OnOk result ((k : Key) → lookup (same_key k) shelves.new.entries
        ≡ (if same_key key.now k then Some (record { since = since; kept = kept }) else lookup (same_key k) shelves.old.entries)) }
{
    shelves.insert(*key, Shelved { since, kept })?;
    Ok(())
}

/// Notes what an entry does to the key that it names.
fn note_own(
    shelves: &mut Shelves,
    entries: &[Entry],
    script: &Script,
    place: usize,
    since: u64,
    entry: &Entry,
    key: &Key,
) -> Result<(), AllocError>
    requires { slice_get entries.now place ≡ Some entry.now }
    ensures kept { OnOk result (kept_slot entries.now (kept_at shelves.new.entries key.now)
        ≡ after (strategy script.now key.now.entity) script.now.timeout entry.now.tick
        (touch_here entry.now.act entry.now.reply) (kept_slot entries.now (kept_at shelves.old.entries key.now))) }
    ensures since { OnOk result (since_at shelves.new.entries key.now
        ≡ (if is_some (touch_here entry.now.act entry.now.reply) then Some since else since_at shelves.old.entries key.now)) }
    ensures others { OnOk result ((k : Key) → same_key key.now k ≡ false
        → lookup (same_key k) shelves.new.entries ≡ lookup (same_key k) shelves.old.entries) }
{
    if is_touched(entry) {
        let old = kept_at(shelves, key);
        match after(entries, script, place, entry, *key, old) {
            Ok(kept) => set(shelves, key, since, kept),
            Err(error) => Err(error),
        }
    } else {
        Ok(())
    }
}

/// Notes that a key leaves its region, if one does for this one.
fn note_leaving(
    shelves: &mut Shelves,
    since: u64,
    entry: &Entry,
    key: &Key,
) -> Result<(), AllocError>
    ensures kept { OnOk result ((k : Key) → kept_at shelves.new.entries k
        ≡ (if is_key k (leaving key.now (evicted_in entry.now.reply)) then Kept.Nothing else kept_at shelves.old.entries k)) }
    ensures since { OnOk result ((k : Key) → since_at shelves.new.entries k
        ≡ (if is_key k (leaving key.now (evicted_in entry.now.reply)) then Some since else since_at shelves.old.entries k)) }
{
    match leaving(entry, key) {
        Some(key) => set(shelves, &key, since, Kept::Nothing),
        None => Ok(()),
    }
}

/// Notes what an entry does to the keys of the region of the one that it names.
fn note_key(
    shelves: &mut Shelves,
    entries: &[Entry],
    script: &Script,
    place: usize,
    since: u64,
    entry: &Entry,
    key: &Key,
) -> Result<(), AllocError>
    requires { slice_get entries.now place ≡ Some entry.now }
    ensures kept { OnOk result ((k : Key) → kept_slot entries.now (kept_at shelves.new.entries k)
        ≡ after (strategy script.now k.entity) script.now.timeout entry.now.tick
        (touch_at k key.now entry.now.act entry.now.reply) (kept_slot entries.now (kept_at shelves.old.entries k))) }
    ensures since { OnOk result ((k : Key) → since_at shelves.new.entries k
        ≡ (if is_some (touch_at k key.now entry.now.act entry.now.reply) then Some since else since_at shelves.old.entries k)) }
{
    match note_own(shelves, entries, script, place, since, entry, key) {
        Ok(()) => note_leaving(shelves, since, entry, key),
        Err(error) => Err(error),
    }
}

/// What is known of the keys of regions after some entries, since the last restart.
#[derive(Drop)]
pub struct Shelf {
    /// By key, what is known of it.
    pub shelves: Shelves,
}

impl Shelf {
    /// Before any entry.
    pub fn new(alloc: Global) -> Shelf
        ensures { result.shelves.entries ≡ [] }
    {
        Shelf {
            shelves: IndexMap::new(alloc),
        }
    }

    /// What a key has in its region.
    pub fn kept(&self, key: &Key) -> Kept
        ensures { result ≡ kept_at self.now.shelves.entries key.now }
    {
        kept_at(&self.shelves, key)
    }

    /// The number of the entry that touched a key last.
    pub fn since(&self, key: &Key) -> Option<u64>
        ensures { result ≡ since_at self.now.shelves.entries key.now }
    {
        match shelved_at(&self.shelves, key) {
            Some(shelved) => Some(shelved.since),
            None => None,
        }
    }

    /// Takes the entry at a place, the next one. A number that is too large is answered as want of memory.
    pub fn note(
        &mut self,
        entries: &[Entry],
        script: &Script,
        place: usize,
        entry: &Entry,
    ) -> Result<(), AllocError>
        requires { slice_get entries.now place ≡ Some entry.now }
        ensures kept { OnOk result ((k : Key) → kept_slot entries.now (kept_at self.new.shelves.entries k)
            ≡ (if is_restart entry.now.act then Slot.Vacant
            else after (strategy script.now k.entity) script.now.timeout entry.now.tick
            (touch k entry.now) (kept_slot entries.now (kept_at self.old.shelves.entries k)))) }
        ensures since { OnOk result ((k : Key) → since_at self.new.shelves.entries k
            ≡ (if is_restart entry.now.act then None
            else if is_some (touch k entry.now) then Some (place + 1) else since_at self.old.shelves.entries k)) }
    {
        if matches!(entry.act, Act::Restart) {
            self.shelves.clear();
            return Ok(());
        }
        match key_in(&entry.act) {
            Some(key) => {
                let since = place as u64 + 1;
                note_key(
                    &mut self.shelves,
                    entries,
                    script,
                    place,
                    since,
                    entry,
                    &key,
                )
            }
            None => Ok(()),
        }
    }
}
