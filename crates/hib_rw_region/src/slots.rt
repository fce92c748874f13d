// Slots by identifier, in order of insertion: one of the two parts of `queue`. To leave is to make room for another
// key.
ghost use Rattle.std.specs.Prelude.{◌≡◌, ◌≤◌, ◌<◌, ◌^◌, ℕ, None, Some, true, false, [], reverse, length, slice_get, IsOk, OnOk, OnErr, nat_eq, is_some, option_copied};
ghost use Rattle.std.specs.Map.{lookup, remove_entry};
ghost use Rattle.indexmap.specs.IndexMap.{insert_entry};
ghost use Rattle.hib_journal.specs.Room.{may_leave as may_go};
ghost use Rattle.hib_journal.specs.Regions as Regions;
ghost use Rattle.hib_soft_lock.specs.Shown.{shown};
ghost use Rattle.hib_soft_lock.specs.Steps.{locked, released, holders_in, is_held};
ghost use Rattle.hib_rw_region.specs.Region.{shown_in, victim_in};
ghost use Rattle.hib_rw_region.specs.Steps.{changed, barred};

use hib_base::{Tick, Unlocked, Updated};
use hib_soft_lock::Slot;
use indexmap::IndexMap;
use std::alloc::AllocError;

/// A lock that nobody holds, which bars rows of sessions that began up to `until`: what an eviction leaves, and an
/// unlock that didn't find its lock.
pub fn bar(now: Tick, until: Tick) -> Slot
    ensures { result ≡ barred now until }
{
    Slot::Lock {
        id: now,
        version: None,
        timeout: until,
        holders: 0,
        shared: false,
        unlock: until,
    }
}

/// Whether a key with this slot may leave: nobody holds it, and it was stored or let go before the oldest open session
/// began, which was at `floor`.
fn may_leave(slot: &Slot, floor: Tick) -> bool
    ensures { result ≡ may_go floor (shown slot.now) }
{
    match slot {
        Slot::Item { stamp, .. } => *stamp < floor,
        Slot::Lock {
            holders,
            unlock,
            ..
        } => *holders == 0 && *unlock < floor,
    }
}

fn pair_at(slots: &IndexMap<u64, Slot>, at: usize) -> (u64, &Slot)
    requires { at < length slots.now.entries }
    ensures { slice_get slots.now.entries at ≡ Some (result.0, result.1.now) }
{
    let (id, slot) = slots.get_index(at).unwrap();
    (*id, slot)
}

/// The last key in order that may leave, if the oldest open session began at `floor`; none if no key may.
pub fn last_victim(slots: &IndexMap<u64, Slot>, floor: Tick) -> Option<u64>
    ensures { result ≡ victim_in floor (reverse slots.now.entries) }
{
    let mut at = slots.len();
    while at > 0 {
        at -= 1;
        let (id, slot) = pair_at(slots, at);
        if may_leave(slot, floor) {
            return Some(id);
        }
    }
    None
}

/// The first key in order that may leave, if the oldest open session began at `floor`; none if no key may.
pub fn victim(slots: &IndexMap<u64, Slot>, floor: Tick) -> Option<u64>
    ensures { result ≡ victim_in floor slots.now.entries }
{
    for (id, slot) in slots.iter() {
        if may_leave(slot, floor) {
            return Some(*id);
        }
    }
    None
}

/// Gives a key this slot: one that has a slot keeps its place, a new one comes last. Only a new key needs memory.
pub fn set(slots: &mut IndexMap<u64, Slot>, id: u64, slot: Slot) -> Result<(), AllocError>
    ensures ok { OnOk result (slots.new.entries ≡ insert_entry nat_eq slots.old.entries id slot) }
    ensures err { OnErr result (slots.new.entries ≡ slots.old.entries) }
    ensures there { is_some (lookup (nat_eq id) slots.old.entries) ≡ true → IsOk result }
{
    slots.insert(id, slot)?;
    Ok(())
}

/// Gives a key another slot. It must have one. It takes no memory.
pub fn replace(slots: &mut IndexMap<u64, Slot>, id: u64, slot: Slot)
    requires { is_some (lookup (nat_eq id) slots.old.entries) ≡ true }
    ensures { slots.new.entries ≡ insert_entry nat_eq slots.old.entries id slot }
{
    let Some(index) = slots.get_index_of(&id) else {
        return;
    };
    slots[index] = slot;
}

/// Takes a key out; the others keep their order.
pub fn remove(slots: &mut IndexMap<u64, Slot>, id: u64)
    ensures { slots.new.entries ≡ remove_entry (nat_eq id) slots.old.entries }
{
    slots.shift_remove(&id);
}

/// Takes all keys out. It takes no memory.
pub fn clear(slots: &mut IndexMap<u64, Slot>)
    ensures { slots.new.entries ≡ [] }
{
    slots.clear();
}

/// Takes the lock of a key that has a slot, and answers its number; none if the key has no slot.
pub fn lock(slots: &mut IndexMap<u64, Slot>, id: u64, now: Tick, timeout: u32) -> Option<Tick>
    requires late { now ≤ 2 ^ 62 }
    requires few { holders_in (shown_in (lookup (nat_eq id) slots.old.entries)) < now }
    ensures there { is_some result ≡ is_some (lookup (nat_eq id) slots.old.entries) }
    ensures id { (n : ℕ) → result ≡ Some n
        → n ≡ (Regions.lock timeout (shown_in (lookup (nat_eq id) slots.old.entries)) None now).id }
    ensures slots { slots.new.entries ≡ changed id (locked timeout now) slots.old.entries }
{
    let index = slots.get_index_of(&id)?;
    let slot = &mut slots[index];
    Some(slot.lock(now, timeout))
}

/// Lets one holder of a lock go. Somebody must hold it.
pub fn release(slots: &mut IndexMap<u64, Slot>, id: u64, now: Tick)
    requires { is_held (shown_in (lookup (nat_eq id) slots.old.entries)) ≡ true }
    ensures { slots.new.entries ≡ changed id (released now) slots.old.entries }
{
    let Some(index) = slots.get_index_of(&id) else {
        return;
    };
    let slot = &mut slots[index];
    slot.release(now);
}

/// What a holder that gives its lock back is to be answered, by the slot of the key.
pub fn unlocked(slot: Option<&Slot>, lock: Tick) -> Unlocked
    ensures { result ≡ Regions.unlock (shown_in (option_copied slot.entry)) lock }
{
    match slot {
        Some(
            Slot::Lock {
                id: own,
                holders,
                ..
            },
        ) if *own == lock && *holders > 0 => Unlocked::Released {
            holders: *holders - 1,
        },
        _ => Unlocked::Expired,
    }
}

/// What a holder that has committed an update is to be answered, by the slot of the key.
pub fn updated(slot: Option<&Slot>, lock: Tick) -> Updated
    ensures { result ≡ Regions.after_update (shown_in (option_copied slot.entry)) lock }
{
    match slot {
        Some(
            Slot::Lock {
                id: own,
                holders,
                shared,
                ..
            },
        ) if *own == lock && *holders > 0 => {
            if *shared {
                Updated::Shared {
                    holders: *holders - 1,
                }
            } else {
                Updated::Stored
            }
        }
        _ => Updated::Expired,
    }
}
