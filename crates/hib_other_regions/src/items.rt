// Items by identifier, in order of insertion: what read-only and nonstrict regions are made of.
ghost use Rattle.std.specs.Prelude.{◌≡◌, ◌++◌, [], ◌∷◌, None, IfOk, OnOk, OnErr, drop, nat_eq, option_copied, is_some};
ghost use Rattle.std.specs.Map.{lookup, remove_entry};
ghost use Rattle.hib_room_laws.specs.Order.{first_key};
ghost use Rattle.hib_room_laws.specs.Queued.{queued};
ghost use Rattle.hib_other_regions.specs.Items.{empty, item_in, oldest_in, with_new, after_remove, after_clear};

use hib_base::{Row, Tick};
use indexmap::IndexMap;
use std::alloc::{AllocError, Global};
use std::marker::Model;
use std::mem::swap;

/// Rows with their stamps by identifier, in order of insertion, and how many there may be. So that the oldest leaves
/// without moving the others, those that were there when one had to leave are kept in the order from the newest to the
/// oldest.
#[derive(Drop)]
pub struct Items {
    // The older ones, the oldest last.
    front: IndexMap<u64, (Row, Tick)>,
    // Those that came since, the newest last.
    back: IndexMap<u64, (Row, Tick)>,
    capacity: u32,
}

impl Model for Items {
    ghost use Rattle.hib_room_laws.specs.Queued.{queued};
    ghost use Rattle.hib_other_regions.specs.Items.{ItemsState};

    ghost Value = { ItemsState };

    ghost view = { λ r. record {
      capacity = r.capacity;
      items = queued r.front.entries r.back.entries;
    } };
}

impl Items {
    /// No items; later there are at most `capacity`. It takes no memory.
    pub fn open(alloc: Global, capacity: u32) -> Items
        ensures { result ≡ empty capacity }
    {
        Items {
            front: IndexMap::new(alloc),
            back: IndexMap::new(alloc),
            capacity,
        }
    }

    /// The item of an identifier.
    pub fn get(&self, id: u64) -> Option<&(Row, Tick)>
        ensures { option_copied result ≡ item_in self.now id }
    {
        look_up(&self.front, &self.back, id)
    }

    /// The identifier that has to leave for a new one, if one has to.
    fn oldest(&self) -> Option<u64>
        ensures { result ≡ oldest_in self.now }
    {
        if self.front.len() + self.back.len() < self.capacity as usize {
            return None;
        }
        first_of(&self.front, &self.back)
    }

    /// Adds an item. Its identifier must be a new one. The oldest leaves a full region, and is answered. At an error
    /// nothing has changed.
    pub fn add(&mut self, id: u64, row: Row, now: Tick) -> Result<Option<u64>, AllocError>
        requires { item_in self.old id ≡ None }
        ensures ok { OnOk result (self.new ≡ with_new id row now self.old) }
        ensures evicted { IfOk result (λ left. left ≡ oldest_in self.old) }
        ensures err { OnErr result (self.new ≡ self.old) }
    {
        let oldest = self.oldest();
        insert_new(&self.front, &mut self.back, id, row, now)?;
        if oldest.is_some() {
            drop_first(&mut self.front, &mut self.back);
        }
        Ok(oldest)
    }

    /// Takes the item of an identifier out; the others keep their order. Answers whether there was one.
    pub fn remove(&mut self, id: u64) -> bool
        ensures answer { result ≡ is_some (item_in self.old id) }
        ensures state { self.new ≡ after_remove id self.old }
    {
        remove_key(&mut self.front, &mut self.back, id)
    }

    /// Takes all items out. It takes no memory.
    pub fn clear(&mut self)
        ensures { self.new ≡ after_clear self.old }
    {
        clear_all(&mut self.front);
        clear_all(&mut self.back);
    }
}

// The item of an identifier, in either list.
#[tactic(auto, using(hib_room_laws::proofs::Queued::lookup_queued))]
fn look_up<'a>(
    front: &'a IndexMap<u64, (Row, Tick)>,
    back: &'a IndexMap<u64, (Row, Tick)>,
    id: u64,
) -> Option<&'a (Row, Tick)>
    ensures { option_copied result
        ≡ lookup (nat_eq id) (queued front.now.entries back.now.entries) }
{
    let _distinct = front.len();
    match front.get(&id) {
        Some(item) => Some(item),
        None => back.get(&id),
    }
}

// The identifier of the oldest item, if there is one.
#[tactic(auto, using(hib_room_laws::proofs::Queued::queued_first, hib_room_laws::proofs::Queued::queued_none))]
fn first_of(front: &IndexMap<u64, (Row, Tick)>, back: &IndexMap<u64, (Row, Tick)>) -> Option<u64>
    ensures { result ≡ first_key (queued front.now.entries back.now.entries) }
{
    match front.last() {
        Some((id, _)) => Some(*id),
        None => {
            let (id, _) = back.first()?;
            Some(*id)
        }
    }
}

// Puts an item at the end. Its key must be new.
fn insert_new(
    front: &IndexMap<u64, (Row, Tick)>,
    back: &mut IndexMap<u64, (Row, Tick)>,
    id: u64,
    row: Row,
    now: Tick,
) -> Result<(), AllocError>
    requires { lookup (nat_eq id) (queued front.now.entries back.old.entries) ≡ None }
    ensures ok { OnOk result (queued front.now.entries back.new.entries
        ≡ queued front.now.entries back.old.entries ++ (id, (row, now)) ∷ []) }
    ensures err { OnErr result (back.new.entries ≡ back.old.entries) }
{
    let _distinct = front.len();
    back.insert(id, (row, now))?;
    Ok(())
}

// Takes the oldest item out, if there is one.
fn drop_first(front: &mut IndexMap<u64, (Row, Tick)>, back: &mut IndexMap<u64, (Row, Tick)>)
    ensures { queued front.new.entries back.new.entries
        ≡ drop 1 (queued front.old.entries back.old.entries) }
{
    if front.is_empty() {
        turn(front, back);
        pop_first(front, back);
    } else {
        pop_first(front, back);
    }
}

// Takes the last of the older ones out, if there is one. If there is none, there must be no newer ones either.
#[tactic(auto, using(hib_room_laws::proofs::Queued::queued_popped))]
fn pop_first(front: &mut IndexMap<u64, (Row, Tick)>, back: &IndexMap<u64, (Row, Tick)>)
    requires { front.old.entries ≡ [] → back.now.entries ≡ [] }
    ensures { queued front.new.entries back.now.entries
        ≡ drop 1 (queued front.old.entries back.now.entries) }
{
    front.pop();
}

// Makes all items older ones. There must be none among these before.
#[tactic(auto, using(hib_room_laws::proofs::Queued::queued_turned))]
fn turn(front: &mut IndexMap<u64, (Row, Tick)>, back: &mut IndexMap<u64, (Row, Tick)>)
    requires { front.old.entries ≡ [] }
    ensures all { queued front.new.entries back.new.entries ≡ back.old.entries }
    ensures back { back.new.entries ≡ [] }
{
    swap(front, back);
    front.reverse();
}

// Takes a key out; the others keep their order. Answers whether it was there.
#[tactic(auto, using(hib_room_laws::proofs::Queued::lookup_queued, hib_room_laws::proofs::Queued::removed_front, hib_room_laws::proofs::Queued::removed_back))]
fn remove_key(
    front: &mut IndexMap<u64, (Row, Tick)>,
    back: &mut IndexMap<u64, (Row, Tick)>,
    id: u64,
) -> bool
    ensures answer { result
        ≡ is_some (lookup (nat_eq id) (queued front.old.entries back.old.entries)) }
    ensures entries { queued front.new.entries back.new.entries
        ≡ remove_entry (nat_eq id) (queued front.old.entries back.old.entries) }
{
    let _distinct = front.len();
    match front.shift_remove(&id) {
        Some(_) => true,
        None => back.shift_remove(&id).is_some(),
    }
}

fn clear_all(entries: &mut IndexMap<u64, (Row, Tick)>)
    ensures { entries.new.entries ≡ [] }
{
    entries.clear();
}
