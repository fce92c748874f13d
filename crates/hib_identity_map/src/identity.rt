// The instances of a session by key, in order of arrival, and the order of removals: a flush goes by these.
ghost use Rattle.std.specs.Prelude.{◌≡◌, ◌↔◌, ◌≢◌, ◌<◌, [], None, Some, false, IsTrue, OnOk, OnErr, length, slice_get, option_copied};
ghost use Rattle.hib_identity_map.specs.Identity.{empty, faced, look_in, put_in, drop_in, add_in, change_in, written, as_removed, with_sets, remove_last};

use crate::instance::{mark, set_base, set_cells};
use hib_base::{Held, Key, Row, Sets};
use indexmap::{IndexMap, IndexSet};
use std::alloc::{AllocError, Global};
use std::marker::Model;

/// The instances of one session, one for each key, in order of arrival; and which keys were removed, in order of their
/// last removals. So that many leave in order of arrival without moving the others, they may stand from the last to the
/// first.
#[derive(Drop)]
pub struct IdentityMap {
    entries: IndexMap<Key, Held>,
    // Whether the last one that arrived stands first.
    turned: bool,
    removals: IndexSet<Key>,
}

impl Model for IdentityMap {
    ghost use Rattle.hib_identity_map.specs.Identity.{MapState, faced};

    ghost Value = { MapState };

    ghost view = { λ m. record {
      held = faced m.turned m.entries.entries;
      removals = m.removals.keys;
    } };
}

impl IdentityMap {
    /// A map without instances. It takes no memory.
    pub fn open(alloc: Global) -> IdentityMap
        ensures { result ≡ empty }
    {
        IdentityMap {
            entries: IndexMap::new(alloc),
            turned: false,
            removals: IndexSet::new(alloc),
        }
    }

    /// The instance of a key.
    pub fn look(&self, key: Key) -> Option<&Held>
        ensures { option_copied result ≡ look_in self.now.held key }
    {
        look_at(&self.entries, self.turned, key)
    }

    /// Adds the instance of a key, after the others. The key must have none. At an error nothing has changed.
    pub fn add(&mut self, key: Key, held: Held) -> Result<(), AllocError>
        requires { look_in self.old.held key ≡ None }
        ensures ok { OnOk result (self.new
            ≡ record self.old { held = add_in key held self.old.held }) }
        ensures err { OnErr result (self.new ≡ self.old) }
    {
        straighten(&mut self.entries, &mut self.turned);
        insert_new(&mut self.entries, key, held)
    }

    /// Puts the instance of a key after the others. The one that the key had leaves. At an error nothing has changed.
    pub fn arrive(&mut self, key: &Key, held: Held) -> Result<(), AllocError>
        ensures ok { OnOk result (self.new
            ≡ record self.old { held = add_in key.now held (drop_in key.now self.old.held) }) }
        ensures err { OnErr result (self.new ≡ self.old) }
    {
        straighten(&mut self.entries, &mut self.turned);
        arrive_at(&mut self.entries, key, held)
    }

    /// Puts another instance in the place of that of a key. The key must have one. It takes no memory.
    pub fn put(&mut self, key: Key, held: Held)
        requires { look_in self.old.held key ≢ None }
        ensures { self.new ≡ record self.old { held = put_in key held self.old.held } }
    {
        straighten(&mut self.entries, &mut self.turned);
        replace(&mut self.entries, key, held);
    }

    /// Drops the instance of a key, if there is one; the others keep their order. It takes no memory.
    pub fn drop(&mut self, key: Key)
        ensures { self.new ≡ record self.old { held = drop_in key self.old.held } }
    {
        leave(&mut self.entries, &mut self.turned, key);
    }

    /// Drops all instances. The removals stay. It takes no memory.
    pub fn clear(&mut self)
        ensures { self.new ≡ record self.old { held = [] } }
    {
        clear_all(&mut self.entries);
        self.turned = false;
    }

    /// Notes that the row of a key was written: its instance, if there is one, stands for that row. It takes no memory.
    pub fn set_base(&mut self, key: Key, base: Row)
        ensures { self.new ≡ record self.old { held = change_in key (written base) self.old.held } }
    {
        straighten(&mut self.entries, &mut self.turned);
        base_at(&mut self.entries, key, base);
    }

    /// Sets cells of the instance of a key, if there is one. It takes memory if others share the cells. At an error
    /// nothing has changed.
    pub fn set_cells(&mut self, alloc: Global, key: Key, sets: Sets) -> Result<(), AllocError>
        ensures ok { OnOk result (self.new
            ≡ record self.old { held = change_in key (with_sets sets) self.old.held }) }
        ensures err { OnErr result (self.new ≡ self.old) }
    {
        straighten(&mut self.entries, &mut self.turned);
        cells_at(alloc, &mut self.entries, key, sets)
    }

    /// Marks the instance of a key, if there is one, as removed. It takes no memory.
    pub fn mark(&mut self, key: Key)
        ensures { self.new ≡ record self.old { held = change_in key as_removed self.old.held } }
    {
        straighten(&mut self.entries, &mut self.turned);
        mark_at(&mut self.entries, key);
    }

    /// Notes that a key was removed, as the last one. At an error nothing has changed.
    pub fn note_removal(&mut self, key: Key) -> Result<(), AllocError>
        ensures ok { OnOk result (self.new
            ≡ record self.old { removals = remove_last key self.old.removals }) }
        ensures err { OnErr result (self.new ≡ self.old) }
    {
        move_last(&mut self.removals, key)
    }

    /// The keys that were removed, in order of their last removals.
    pub fn removals(&self) -> &[Key]
        ensures { result.now ≡ self.now.removals }
    {
        self.removals.as_slice()
    }

    /// How many instances there are.
    pub fn len(&self) -> usize
        ensures { result ≡ length self.now.held }
    {
        self.entries.len()
    }

    /// Whether there is no instance.
    pub fn is_empty(&self) -> bool
        ensures { IsTrue result ↔ (self.now.held ≡ []) }
    {
        self.entries.is_empty()
    }

    /// The instance at a place in the order of arrival, from 0, with its key.
    pub fn at(&self, i: usize) -> (Key, &Held)
        requires { i < length self.now.held }
        ensures { slice_get self.now.held i ≡ Some (result.0, result.1.now) }
    {
        pair_at(&self.entries, self.turned, i)
    }
}

// Brings the instances into the order of arrival, if they stand the other way round.
fn straighten(entries: &mut IndexMap<Key, Held>, turned: &mut bool)
    ensures entries { entries.new.entries ≡ faced turned.old entries.old.entries }
    ensures turned { turned.new ≡ false }
{
    if !*turned {
        return;
    }
    entries.reverse();
    *turned = false;
}

// Turns the order of the instances round.
#[tactic(auto, using(crate::proofs::Faced::faced_turned))]
fn turn(entries: &mut IndexMap<Key, Held>, turned: &mut bool)
    ensures { faced turned.new entries.new.entries ≡ faced turned.old entries.old.entries }
{
    entries.reverse();
    *turned = !*turned;
}

/// The instance of a key.
#[tactic(auto, using(crate::proofs::Faced::look_faced))]
fn look_at(entries: &IndexMap<Key, Held>, turned: bool, key: Key) -> Option<&Held>
    ensures { option_copied result ≡ look_in (faced turned entries.now.entries) key }
{
    let _distinct = entries.len();
    entries.get(&key)
}

// Puts a new key at the end.
fn insert_new(entries: &mut IndexMap<Key, Held>, key: Key, held: Held) -> Result<(), AllocError>
    requires { look_in entries.old.entries key ≡ None }
    ensures ok { OnOk result (entries.new.entries ≡ add_in key held entries.old.entries) }
    ensures err { OnErr result (entries.new.entries ≡ entries.old.entries) }
{
    entries.insert(key, held)?;
    Ok(())
}

// Puts a key at the end, and takes it from where it was.
fn arrive_at(entries: &mut IndexMap<Key, Held>, key: &Key, held: Held) -> Result<(), AllocError>
    ensures ok { OnOk result (entries.new.entries
        ≡ add_in key.now held (drop_in key.now entries.old.entries)) }
    ensures err { OnErr result (entries.new.entries ≡ entries.old.entries) }
{
    entries.reserve(1)?;
    entries.shift_remove(key);
    entries.insert(*key, held)?;
    Ok(())
}

// Gives a key another instance. It must have one.
fn replace(entries: &mut IndexMap<Key, Held>, key: Key, held: Held)
    requires { look_in entries.old.entries key ≢ None }
    ensures { entries.new.entries ≡ put_in key held entries.old.entries }
{
    let Some(index) = entries.get_index_of(&key) else {
        return;
    };
    entries[index] = held;
}

// Whether many more instances stand behind that of a key than before it. They are turned round then: it leaves near the
// end, where few move, and so do the next ones.
fn is_early(entries: &IndexMap<Key, Held>, key: &Key) -> bool {
    let count = entries.len();
    match entries.get_index_of(key) {
        Some(index) => count > 16 && index < (count - 16) / 2,
        None => false,
    }
}

// Removes a key; the others keep their order.
fn remove_key(entries: &mut IndexMap<Key, Held>, turned: bool, key: Key)
    ensures { faced turned entries.new.entries ≡ drop_in key (faced turned entries.old.entries) }
{
    let _distinct = entries.len();
    entries.shift_remove(&key);
}

// Drops the instance of a key; if many stand behind it, they are turned round before.
fn leave(entries: &mut IndexMap<Key, Held>, turned: &mut bool, key: Key)
    ensures { faced turned.new entries.new.entries
        ≡ drop_in key (faced turned.old entries.old.entries) }
{
    if is_early(entries, &key) {
        turn(entries, turned);
        remove_key(entries, *turned, key);
    } else {
        remove_key(entries, *turned, key);
    }
}

fn clear_all(entries: &mut IndexMap<Key, Held>)
    ensures { entries.new.entries ≡ [] }
{
    entries.clear();
}

/// The key and the instance at a place, as they stand.
fn pair_in(entries: &IndexMap<Key, Held>, i: usize) -> (Key, &Held)
    requires { i < length entries.now.entries }
    ensures { slice_get entries.now.entries i ≡ Some (result.0, result.1.now) }
{
    let (key, held) = entries.get_index(i).unwrap();
    (*key, held)
}

/// The key and the instance at a place in the order of arrival.
#[tactic(auto, using(crate::proofs::Faced::length_faced, crate::proofs::Faced::got_turned))]
fn pair_at(entries: &IndexMap<Key, Held>, turned: bool, i: usize) -> (Key, &Held)
    requires { i < length (faced turned entries.now.entries) }
    ensures { slice_get (faced turned entries.now.entries) i ≡ Some (result.0, result.1.now) }
{
    if turned {
        return pair_in(entries, entries.len() - 1 - i);
    }
    pair_in(entries, i)
}

// Puts a key after the others, and takes it from where it was.
fn move_last(keys: &mut IndexSet<Key>, key: Key) -> Result<(), AllocError>
    ensures ok { OnOk result (keys.new.keys ≡ remove_last key keys.old.keys) }
    ensures err { OnErr result (keys.new.keys ≡ keys.old.keys) }
{
    keys.reserve(1)?;
    keys.shift_remove(&key);
    keys.insert(key)?;
    Ok(())
}

/// Lets the instance of a key, if there is one, stand for a row that was written.
fn base_at(entries: &mut IndexMap<Key, Held>, key: Key, base: Row)
    ensures { entries.new.entries ≡ change_in key (written base) entries.old.entries }
{
    let Some(index) = entries.get_index_of(&key) else {
        return;
    };
    let held = &mut entries[index];
    set_base(held, base);
}

/// Sets cells of the instance of a key, if there is one.
fn cells_at(
    alloc: Global,
    entries: &mut IndexMap<Key, Held>,
    key: Key,
    sets: Sets,
) -> Result<(), AllocError>
    ensures ok { OnOk result (entries.new.entries
        ≡ change_in key (with_sets sets) entries.old.entries) }
    ensures err { OnErr result (entries.new.entries ≡ entries.old.entries) }
{
    let Some(index) = entries.get_index_of(&key) else {
        return Ok(());
    };
    let held = &mut entries[index];
    set_cells(alloc, held, sets)
}

/// Marks the instance of a key, if there is one, as removed.
fn mark_at(entries: &mut IndexMap<Key, Held>, key: Key)
    ensures { entries.new.entries ≡ change_in key as_removed entries.old.entries }
{
    let Some(index) = entries.get_index_of(&key) else {
        return;
    };
    let held = &mut entries[index];
    mark(held);
}
