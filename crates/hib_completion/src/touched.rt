// The first and the last change of each key that a transaction has changed, by their places among the changes.
ghost use Rattle.std.specs.Prelude.{◌≡◌, ◌<◌, true, if◌then◌else◌, IfOk, OnOk, None, Some, length, option_copied, slice_get};
ghost use Rattle.std.specs.List.{list_any};
ghost use Rattle.std.specs.Map.{keys_of as keys_in, lookup};
ghost use Rattle.hib_base.specs.Keys.{same_key};
ghost use Rattle.hib_base.specs.Tables.{first_on, key_of, last_on};
ghost use Rattle.hib_base.specs.declared.numbers.Key.{Key as KeyOf};
ghost use Rattle.hib_journal.specs.Next.{keys_of};
ghost use Rattle.hib_completion.specs.Completed.{lock_of};
ghost use Rattle.hib_completion.specs.Touched.{at_place, or_place, rise, with_key, StandsFor};

use hib_base::{Change, Key, Tick};
use hib_outside::keyed;
use indexmap::IndexMap;
use std::alloc::{AllocError, Global};

/// The change of a key, whose place these places have, if they have one.
pub fn change_of<'a>(
    changes: &'a [Change],
    places: &IndexMap<Key, usize>,
    key: &Key,
) -> Option<&'a Change>
    ensures { option_copied result
        ≡ at_place changes.now (lookup (same_key key.now) places.now.entries) }
{
    changes.get(*places.get(key)?)
}

/// Whether the keys of changes rise from one to the next.
pub fn keys_rise(changes: &[Change]) -> bool
    ensures { result ≡ true → rise changes.now ≡ true }
{
    let mut from = changes.len().saturating_sub(1);
    while from > 0 {
        let key = changes[from].key();
        let before = changes[from - 1].key();
        if !keyed::comes_before(&before, &key) {
            return false;
        }
        from -= 1;
    }
    true
}

/// Whether one of the changes is of a key.
pub fn is_changed(changes: &[Change], key: &Key) -> bool
    ensures { result ≡ list_any (λ c. same_key (key_of c) key.now) changes.now }
{
    for change in changes {
        if change.key() == *key {
            return true;
        }
    }
    false
}

/// The first change of a key.
pub fn first_of<'a>(changes: &'a [Change], key: &Key) -> Option<&'a Change>
    ensures { option_copied result ≡ first_on key.now changes.now }
{
    for change in changes {
        if change.key() == *key {
            return Some(change);
        }
    }
    None
}

/// A later place if it counts, else the last one so far.
fn or_so_far(counts: bool, place: usize, last: Option<usize>) -> Option<usize>
    ensures { result ≡ (if counts then Some place else last) }
{
    if counts { Some(place) } else { last }
}

/// The place of the last change of a key.
fn last_place(changes: &[Change], key: &Key) -> Option<usize>
    ensures { at_place changes.now result ≡ last_on key.now changes.now }
{
    let mut last = None;
    for place in 0..changes.len() {
        let counts = changes[place].key() == *key;
        last = or_so_far(counts, place, last);
    }
    last
}

/// The last change of a key.
pub fn last_of<'a>(changes: &'a [Change], key: &Key) -> Option<&'a Change>
    ensures { option_copied result ≡ last_on key.now changes.now }
{
    changes.get(last_place(changes, key)?)
}

/// Notes that a key has its first change at this place, unless it has one before.
fn note_first(firsts: &mut IndexMap<Key, usize>, key: Key, place: usize) -> Result<(), AllocError>
    ensures keys { OnOk result (keys_in firsts.new.entries
        ≡ with_key key (keys_in firsts.old.entries)) }
    ensures each { OnOk result ((k : KeyOf)
        → lookup (same_key k) firsts.new.entries
        ≡ or_place (lookup (same_key k) firsts.old.entries)
        (if same_key key k then Some place else None)) }
{
    if !firsts.contains_key(&key) {
        firsts.insert(key, place)?;
    }
    Ok(())
}

/// The place of the first change of each key; the keys stand in the order of these.
fn firsts_of(alloc: Global, changes: &[Change]) -> Result<IndexMap<Key, usize>, AllocError>
    ensures keys { IfOk result (λ m. keys_in m.entries ≡ keys_of changes.now) }
    ensures each { IfOk result (λ m. (k : KeyOf)
        → at_place changes.now (lookup (same_key k) m.entries) ≡ first_on k changes.now) }
{
    let mut firsts = IndexMap::new(alloc);
    for place in 0..changes.len() {
        note_first(&mut firsts, changes[place].key(), place)?;
    }
    Ok(firsts)
}

/// Notes that a key has its last change at this place, so far.
fn note_last(lasts: &mut IndexMap<Key, usize>, key: Key, place: usize) -> Result<(), AllocError>
    ensures { OnOk result ((k : KeyOf) → lookup (same_key k) lasts.new.entries
        ≡ (if same_key key k then Some place else lookup (same_key k) lasts.old.entries)) }
{
    lasts.insert(key, place)?;
    Ok(())
}

/// The place of the last change of each key.
fn lasts_of(alloc: Global, changes: &[Change]) -> Result<IndexMap<Key, usize>, AllocError>
    ensures { IfOk result (λ m. (k : KeyOf)
        → at_place changes.now (lookup (same_key k) m.entries) ≡ last_on k changes.now) }
{
    let mut lasts = IndexMap::new(alloc);
    for place in 0..changes.len() {
        note_last(&mut lasts, changes[place].key(), place)?;
    }
    Ok(lasts)
}

/// The number of a key's lock, or 0 if it has none.
pub fn lock_number(locks: &IndexMap<Key, Tick>, key: &Key) -> Tick
    ensures { result ≡ lock_of key.now locks.now.entries }
{
    match locks.get(key) {
        Some(id) => *id,
        None => Tick(0),
    }
}

/// The key at a place in the order of first changes.
pub fn key_at(firsts: &IndexMap<Key, usize>, place: usize) -> Key
    requires { place < length firsts.now.entries }
    ensures { slice_get (keys_in firsts.now.entries) place ≡ Some result }
{
    let (key, _) = firsts.get_index(place).unwrap();
    *key
}

/// What is known of the keys that a transaction has changed.
#[derive(Drop)]
pub struct Touched {
    /// The place of the first change of each key; the keys stand in the order of these.
    pub firsts: IndexMap<Key, usize>,
    /// The place of the last change of each key.
    pub lasts: IndexMap<Key, usize>,
}

impl Touched {
    /// What is to be known of these changes.
    pub fn of(alloc: Global, changes: &[Change]) -> Result<Touched, AllocError>
        ensures { IfOk result (StandsFor changes.now) }
    {
        let firsts = firsts_of(alloc, changes)?;
        let lasts = lasts_of(alloc, changes)?;
        Ok(Touched { firsts, lasts })
    }
}
