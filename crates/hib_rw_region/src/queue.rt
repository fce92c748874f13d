//! Slots by identifier, in order of insertion, in two parts: those that were there when one had to leave stand from the
//! newest to the oldest, so that the oldest leaves without moving the others; those that came since stand from the
//! oldest to the newest.
ghost use Rattle.std.specs.Prelude.{◌≡◌, ◌≤◌, ◌<◌, ◌^◌, ℕ, None, Some, true, [], IsOk, OnOk, OnErr, nat_eq, is_some, option_copied};
ghost use Rattle.std.specs.List.{IsDistinct};
ghost use Rattle.std.specs.Map.{keys_of, lookup, remove_entry};
ghost use Rattle.indexmap.specs.IndexMap.{insert_entry};
ghost use Rattle.hib_journal.specs.Regions as Regions;
ghost use Rattle.hib_soft_lock.specs.Steps.{locked, released, holders_in, is_held};
ghost use Rattle.hib_room_laws.specs.Queued.{queued};
ghost use Rattle.hib_rw_region.specs.Region.{shown_in, victim_in};
ghost use Rattle.hib_rw_region.specs.Steps.{changed, evict_leaves};

use crate::slots;
use hib_base::{Evicted, Tick};
use hib_soft_lock::Slot;
use indexmap::IndexMap;
use std::alloc::AllocError;
use std::mem::swap;

/// One of the two parts.
type Part = IndexMap<u64, Slot>;

// Whether a key has its slot in the first part, among the older ones.
fn is_older(front: &Part, id: u64) -> bool
    ensures there { result ≡ is_some (lookup (nat_eq id) front.now.entries) }
    ensures distinct { IsDistinct nat_eq (keys_of front.now.entries) }
{
    let _distinct = front.len();
    front.get(&id).is_some()
}

/// The slot of a key, in either part.
pub fn look<'a>(front: &'a Part, back: &'a Part, id: u64) -> Option<&'a Slot>
    ensures { option_copied result
        ≡ lookup (nat_eq id) (queued front.now.entries back.now.entries) }
{
    let _distinct = front.len();
    match front.get(&id) {
        Some(slot) => Some(slot),
        None => back.get(&id),
    }
}

/// The first key in order that may leave, if the oldest open session began at `floor`; none if no key may.
#[tactic(auto, using(crate::proofs::Queues::victim_joined))]
pub fn victim(front: &Part, back: &Part, floor: Tick) -> Option<u64>
    ensures { result ≡ victim_in floor (queued front.now.entries back.now.entries) }
{
    match slots::last_victim(front, floor) {
        Some(id) => Some(id),
        None => slots::victim(back, floor),
    }
}

/// Gives a key this slot. A key that has a slot keeps its place, a new one comes last. Only a new key needs memory.
pub fn set(front: &mut Part, back: &mut Part, id: u64, slot: Slot) -> Result<(), AllocError>
    ensures ok { OnOk result (queued front.new.entries back.new.entries
        ≡ insert_entry nat_eq (queued front.old.entries back.old.entries) id slot) }
    ensures err { OnErr result (queued front.new.entries back.new.entries
        ≡ queued front.old.entries back.old.entries) }
    ensures there { is_some (lookup (nat_eq id) (queued front.old.entries back.old.entries)) ≡ true
        → IsOk result }
{
    if is_older(front, id) {
        slots::set(front, id, slot)
    } else {
        slots::set(back, id, slot)
    }
}

/// Takes a key out; the others keep their order.
pub fn remove(front: &mut Part, back: &mut Part, id: u64)
    ensures { queued front.new.entries back.new.entries
        ≡ remove_entry (nat_eq id) (queued front.old.entries back.old.entries) }
{
    if front.is_empty() {
        turn(front, back);
        remove_in(front, back, id);
    } else {
        remove_in(front, back, id);
    }
}

// Makes all slots older ones. There must be none among these before.
#[tactic(auto, using(hib_room_laws::proofs::Queued::queued_turned))]
fn turn(front: &mut Part, back: &mut Part)
    requires { front.old.entries ≡ [] }
    ensures { queued front.new.entries back.new.entries ≡ back.old.entries }
{
    swap(front, back);
    front.reverse();
}

/// Takes a key out of the part that has it.
#[tactic(auto, using(hib_room_laws::proofs::Queued::removed_front, hib_room_laws::proofs::Queued::removed_back))]
fn remove_in(front: &mut Part, back: &mut Part, id: u64)
    ensures { queued front.new.entries back.new.entries
        ≡ remove_entry (nat_eq id) (queued front.old.entries back.old.entries) }
{
    if is_older(front, id) {
        slots::remove(front, id);
    } else {
        slots::remove(back, id);
    }
}

/// Takes all keys out. It takes no memory.
pub fn clear(front: &mut Part, back: &mut Part)
    ensures { queued front.new.entries back.new.entries ≡ [] }
{
    slots::clear(front);
    slots::clear(back);
}

/// Takes the lock of a key that has a slot, and answers its number; none if the key has no slot.
pub fn lock(front: &mut Part, back: &mut Part, id: u64, now: Tick, timeout: u32) -> Option<Tick>
    requires late { now ≤ 2 ^ 62 }
    requires few { holders_in (shown_in (lookup (nat_eq id)
        (queued front.old.entries back.old.entries))) < now }
    ensures there { is_some result
        ≡ is_some (lookup (nat_eq id) (queued front.old.entries back.old.entries)) }
    ensures id { (n : ℕ) → result ≡ Some n → n ≡ (Regions.lock timeout
        (shown_in (lookup (nat_eq id) (queued front.old.entries back.old.entries))) None now).id }
    ensures slots { queued front.new.entries back.new.entries
        ≡ changed id (locked timeout now) (queued front.old.entries back.old.entries) }
{
    if is_older(front, id) {
        slots::lock(front, id, now, timeout)
    } else {
        slots::lock(back, id, now, timeout)
    }
}

/// Lets one holder of a lock go. Somebody must hold it.
pub fn release(front: &mut Part, back: &mut Part, id: u64, now: Tick)
    requires { is_held (shown_in (lookup (nat_eq id)
        (queued front.old.entries back.old.entries))) ≡ true }
    ensures { queued front.new.entries back.new.entries
        ≡ changed id (released now) (queued front.old.entries back.old.entries) }
{
    if is_older(front, id) {
        slots::release(front, id, now);
    } else {
        slots::release(back, id, now);
    }
}

// Gives a key another slot. It must have one. It takes no memory.
fn replace(front: &mut Part, back: &mut Part, id: u64, slot: Slot)
    requires { is_some (lookup (nat_eq id) (queued front.old.entries back.old.entries)) ≡ true }
    ensures { queued front.new.entries back.new.entries
        ≡ insert_entry nat_eq (queued front.old.entries back.old.entries) id slot }
{
    if is_older(front, id) {
        slots::replace(front, id, slot);
    } else {
        slots::replace(back, id, slot);
    }
}

/// Evicts a key, if it isn't held: a lock without holder stays in its place.
pub fn evict(front: &mut Part, back: &mut Part, id: u64, now: Tick) -> Evicted
    ensures answer { result ≡ Regions.evict (shown_in (lookup (nat_eq id)
        (queued front.old.entries back.old.entries))) }
    ensures slots { queued front.new.entries back.new.entries
        ≡ evict_leaves id now result (queued front.old.entries back.old.entries) }
{
    match look(front, back, id) {
        None => return Evicted::Absent,
        Some(Slot::Lock { holders, .. }) if *holders > 0 => return Evicted::Held,
        Some(_) => {}
    }
    replace(front, back, id, slots::bar(now, now));
    Evicted::Gone
}
