// The instances of a session, and which of them may have a change that is pending: a flush would write it.
ghost use Rattle.std.specs.Prelude.{◌≡◌, ◌&&◌, [], false, IfSome, IsTrue, None, OnErr, OnOk, Some, nat_lt, option_copied};
ghost use Rattle.std.specs.List.{list_any};
ghost use Rattle.hib_journal.specs.Held.{same_cells};
ghost use Rattle.hib_journal.specs.Query.{reads as is_read};
ghost use Rattle.hib_flush.specs.Planned.{planned};
ghost use Rattle.hib_identity_map.specs.Identity.{empty, look_in, change_in, drop_in, written, with_sets, remove_last};
ghost use Rattle.hib_session.specs.Instances.{is_changed, is_pending, is_gone};
ghost use Rattle.hib_session.specs.Memory.{arrive_in, remove_in, with_pairs};
ghost use Rattle.hib_session.specs.Queries.{touches as touching};

use crate::keyed::{give_back, is_among};
use hib_base::{Cells, Held, Key, Query, Row, Sets, State};
use hib_identity_map::IdentityMap;
use hib_journal::reads;
use indexmap::IndexSet;
use std::alloc::{AllocError, Global};
use std::marker::Model;

/// The instances of a session. Contracts see the identity map alone. Beside it stand the keys of those that may have a
/// change pending, so that a flush asks nothing of the others. If another row is written than the one that was pending,
/// there may be no room for its key among these; from then on they say nothing, until all instances leave. No flush
/// plans such a write.
#[derive(Drop)]
pub struct Instances {
    map: IdentityMap,
    // The keys of the instances that were made, set or removed since they were read or written last.
    touched: IndexSet<Key>,
    // Whether these are all of which a change may be pending.
    sure: bool,
}

impl Model for Instances {
    ghost use Rattle.std.specs.Prelude.{◌≡◌, true};
    ghost use Rattle.hib_identity_map.specs.Identity.{MapState};
    ghost use Rattle.hib_session.specs.Instances.{Covers};

    ghost Value = { MapState };

    ghost view = { λ i. i.map };

    ghost invariant = { λ i. i.sure ≡ true → Covers i.touched.keys i.map.removals i.map.held };
}

/// Whether two lists of cells are equal.
#[tactic(auto, using(hib_dirty_check::proofs::Compared::cells_compared))]
fn are_same(a: &Cells, b: &Cells) -> bool
    ensures { result ≡ same_cells a.now b.now }
{
    *a == *b
}

/// Whether a change of an instance is pending.
fn is_dirty(held: &Held) -> bool
    ensures { result ≡ is_changed held.now.state held.now.row held.now.base }
{
    match (held.state, &held.base) {
        (State::New, _) => true,
        (State::Managed, None) => false,
        (State::Managed, Some(base)) => !are_same(&held.row.cells, &base.cells),
        (State::Removed, base) => base.is_some(),
    }
}

/// Whether a change of the instance of a key is pending.
fn is_dirty_at(map: &IdentityMap, key: Key) -> bool
    ensures { result ≡ is_pending (look_in map.now.held key) }
{
    match map.look(key) {
        Some(held) => is_dirty(held),
        None => false,
    }
}

/// Whether a change is pending of the instance of one of these keys, of a table that a query reads.
fn is_one_dirty(map: &IdentityMap, keys: &[Key], query: &Query, entities: usize) -> bool
    ensures { result ≡ list_any (λ k. (nat_lt k.entity entities && is_read query.now k.entity)
        && is_pending (look_in map.now.held k)) keys.now }
{
    for key in keys {
        let is_read = (key.entity.0 as usize) < entities && reads(query, key.entity);
        if is_read && is_dirty_at(map, *key) {
            return true;
        }
    }
    false
}

impl Instances {
    /// No instance. It takes no memory.
    pub fn open(alloc: Global) -> Instances
        ensures { result ≡ empty }
    {
        Instances {
            map: IdentityMap::open(alloc),
            touched: IndexSet::new(alloc),
            sure: true,
        }
    }

    /// The instance of a key.
    pub fn look(&self, key: Key) -> Option<&Held>
        ensures { option_copied result ≡ look_in self.now.held key }
    {
        self.map.look(key)
    }

    /// All of them.
    pub fn map(&self) -> &IdentityMap
        ensures { result.now ≡ self.now }
    {
        &self.map
    }

    /// An instance arrives, in the place of one of the same key. It must have nothing pending, and not be marked. At an
    /// error nothing has changed.
    pub fn arrive(&mut self, key: &Key, held: Held) -> Result<(), AllocError>
        requires clean { is_pending (Some held) ≡ false }
        requires there { is_gone (Some held) ≡ false }
        ensures ok { OnOk result (self.new
            ≡ with_pairs self.old (arrive_in key.now held self.old.held)) }
        ensures err { OnErr result (self.new ≡ self.old) }
    {
        self.map.arrive(key, held)?;
        Ok(())
    }

    /// An instance arrives, in the place of one of the same key. It must not be marked. At an error nothing has
    /// changed.
    pub fn make(&mut self, key: &Key, held: Held) -> Result<(), AllocError>
        requires { is_gone (Some held) ≡ false }
        ensures ok { OnOk result (self.new
            ≡ with_pairs self.old (arrive_in key.now held self.old.held)) }
        ensures err { OnErr result (self.new ≡ self.old) }
    {
        self.touched.insert(*key)?;
        self.map.arrive(key, held)?;
        Ok(())
    }

    /// Notes that the row of a key was written: its instance, if there is one, has that row as its base now. It takes
    /// no memory.
    pub fn set_base(&mut self, key: &Key, base: Row)
        ensures { self.new ≡ with_pairs self.old (change_in key.now (written base) self.old.held) }
    {
        self.map.set_base(*key, base);
        if is_dirty_at(&self.map, *key) {
            if !is_among(&self.touched, *key) {
                self.sure = false;
            }
        } else {
            self.touched.swap_remove(key);
            give_back(&mut self.touched);
        }
    }

    /// Sets cells of the instance of a key, if there is one. At an error nothing has changed.
    pub fn set_cells(&mut self, alloc: Global, key: &Key, sets: Sets) -> Result<(), AllocError>
        ensures ok { OnOk result (self.new
            ≡ with_pairs self.old (change_in key.now (with_sets sets) self.old.held)) }
        ensures err { OnErr result (self.new ≡ self.old) }
    {
        self.touched.insert(*key)?;
        self.map.set_cells(alloc, *key, sets)?;
        Ok(())
    }

    /// Notes that the row of a key was removed: its instance leaves if it was never written, and else is marked. At an
    /// error nothing has changed.
    pub fn remove(&mut self, key: &Key, unwritten: bool) -> Result<(), AllocError>
        ensures ok { OnOk result (self.new
            ≡ record {
              held = remove_in unwritten key.now self.old.held;
              removals = remove_last key.now self.old.removals;
            }) }
        ensures err { OnErr result (self.new ≡ self.old) }
    {
        self.touched.insert(*key)?;
        self.map.note_removal(*key)?;
        if unwritten {
            self.map.drop(*key);
        } else {
            self.map.mark(*key);
        }
        Ok(())
    }

    /// The instance of a key leaves, if there is one. It takes no memory.
    pub fn drop(&mut self, key: &Key)
        ensures { self.new ≡ with_pairs self.old (drop_in key.now self.old.held) }
    {
        self.map.drop(*key);
        self.touched.swap_remove(key);
    }

    /// All instances leave. It takes no memory.
    pub fn clear(&mut self)
        ensures { self.new ≡ with_pairs self.old [] }
    {
        self.map.clear();
        self.touched.clear();
        self.sure = true;
    }

    /// Whether it is known at once that no change is pending.
    pub fn are_untouched(&self) -> bool
        ensures { IsTrue result → planned self.now ≡ [] }
    {
        self.sure && self.touched.is_empty()
    }

    /// Whether a change is pending of a table that a query reads; none if that isn't known without a plan.
    pub fn touch(&self, query: &Query, entities: usize) -> Option<bool>
        ensures { IfSome result (λ b. b ≡ touching entities query.now (planned self.now)) }
    {
        if !self.sure {
            return None;
        }
        Some(is_one_dirty(&self.map, self.touched.as_slice(), query, entities))
    }
}
