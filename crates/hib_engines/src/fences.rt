// The two entries of a fence, for whoever keeps a journal of nodes or a list of a part.
ghost use Rattle.std.specs.Prelude.{◌≡◌, ◌<◌, ◌^◌};
ghost use Rattle.hib_engines.specs.Fenced.{fence_lock, fence_unlock};

use hib_base::{Act, Entry, Key, Locked, Part, Reply, Tick, Unlocked};

/// The first half of a fence: the lock is taken.
fn lock_entry(key: &Key, floor: Tick, now: Tick, locked: &Locked) -> Entry
    ensures { result ≡ fence_lock now key.now floor locked.now }
{
    let part = Part::Region(key.entity);
    let act = Act::Lock {
        key: *key,
        version: None,
        floor,
    };
    Entry {
        tick: now,
        session: None,
        part,
        act,
        reply: Reply::Locked(*locked),
    }
}

/// The second half of a fence: the lock is given back at the next tick.
fn unlock_entry(key: &Key, now: Tick, locked: &Locked, unlocked: &Unlocked) -> Entry
    requires { now < 2 ^ 62 }
    ensures { result ≡ fence_unlock now key.now locked.now unlocked.now }
{
    let part = Part::Region(key.entity);
    let act = Act::Unlock {
        key: *key,
        lock: locked.id,
    };
    Entry {
        tick: Tick(now.0 + 1),
        session: None,
        part,
        act,
        reply: Reply::Unlocked(*unlocked),
    }
}

/// The two entries of a fence of a key at this tick and the next one, with what its region answered.
pub fn fence_entries(
    key: &Key,
    floor: Tick,
    now: Tick,
    locked: &Locked,
    unlocked: &Unlocked,
) -> (Entry, Entry)
    requires { now < 2 ^ 62 }
    ensures lock { result.0 ≡ fence_lock now key.now floor locked.now }
    ensures unlock { result.1 ≡ fence_unlock now key.now locked.now unlocked.now }
{
    let lock = lock_entry(key, floor, now, locked);
    let unlock = unlock_entry(key, now, locked, unlocked);
    (lock, unlock)
}
