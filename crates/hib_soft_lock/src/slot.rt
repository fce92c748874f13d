// What a key of a read-write region holds. A soft lock is one on a key, and no lock of std's.
ghost use Rattle.std.specs.Prelude.{◌≡◌, ◌≤◌, ◌<◌, ◌^◌, ℕ, None, Option, true};
ghost use Rattle.hib_journal.specs.Regions as Regions;
ghost use Rattle.hib_journal.specs.Types.{Put as PutSpec};
ghost use Rattle.hib_soft_lock.specs.Shown.{shown};
ghost use Rattle.hib_soft_lock.specs.Steps.{new_lock, locked, released, holders_in, is_held};

use hib_base::{Miss, Put, Row, Tick};

/// What a key with an entry holds.
#[derive(Drop)]
pub enum Slot {
    /// A row that may be read by those that began after it was stored.
    Item {
        /// The row.
        row: Row,
        /// When it was stored.
        stamp: Tick,
    },
    /// A soft lock: no row may be read. It is held, or nobody holds it any more.
    Lock {
        /// Its number: the tick at which it was first taken.
        id: Tick,
        /// The version of the row that it stands for, if that has one.
        version: Option<u32>,
        /// When its time is over.
        timeout: Tick,
        /// How many hold it.
        holders: u64,
        /// Whether it was ever taken while it stood already.
        shared: bool,
        /// When the last holder let go; 0 as long as there was none.
        unlock: Tick,
    },
}

/// Whether a version is older than another, if there are both.
fn is_below(old: Option<u32>, new: Option<u32>) -> bool
    ensures { result ≡ Regions.is_below old new }
{
    match (old, new) {
        (Some(old), Some(new)) => old < new,
        _ => false,
    }
}

/// The row may be put. The key has an entry, so no other has to leave for it. It is late over a lock whose time was
/// over although it was held, or let go after the reader began.
fn stored(late: bool) -> Put
    ensures { result ≡ PutSpec.Stored None late }
{
    Put::Stored {
        evicted: None,
        late,
    }
}

impl Slot {
    /// A lock that one has just taken, for a row of this version. Its time is over `timeout` ticks from now.
    pub fn taken(version: Option<u32>, now: Tick, timeout: u32) -> Slot
        requires { now ≤ 2 ^ 62 }
        ensures { result ≡ new_lock timeout version now }
    {
        Slot::Lock {
            id: now,
            version,
            timeout: Tick(now.0 + timeout as u64),
            holders: 1,
            shared: false,
            unlock: Tick(0),
        }
    }

    /// Why its row isn't given to a reader, if it isn't.
    pub fn miss(&self) -> Miss
        ensures { result ≡ Regions.miss (shown self.now) }
    {
        match self {
            Slot::Item { stamp, .. } => Miss::Young { stamp: *stamp },
            Slot::Lock {
                holders,
                unlock,
                ..
            } => {
                if *holders > 0 {
                    Miss::Locked { holders: *holders }
                } else {
                    Miss::Released { unlock: *unlock }
                }
            }
        }
    }

    /// The answer to a row of this version, loaded by a reader that began at this time, that is put here. A lock names
    /// the version that its first holder had read. If it was taken once more, a later row may have come, so then the
    /// time decides and not the version.
    pub fn writable(&self, time: Tick, version: Option<u32>) -> Put
        ensures { (room : Option (Option ℕ))
            → result ≡ Regions.put (shown self.now) room time version }
    {
        match self {
            Slot::Item { row, .. } if is_below(row.version, version) => stored(false),
            Slot::Item { row, .. } => Put::Present {
                version: row.version,
            },
            Slot::Lock {
                timeout,
                holders,
                unlock,
                ..
            } if *timeout < time => stored(*holders > 0 || time <= *unlock),
            Slot::Lock { holders, .. } if *holders > 0 => Put::Held { holders: *holders },
            Slot::Lock {
                version: Some(old),
                shared: false,
                ..
            } => {
                if is_below(Some(*old), version) {
                    stored(false)
                } else {
                    Put::Old { version: *old }
                }
            }
            Slot::Lock { unlock, .. } if *unlock < time => stored(false),
            Slot::Lock { unlock, .. } => Put::Early { unlock: *unlock },
        }
    }

    /// Takes the lock, and answers its number. An item becomes a lock of one holder that stands for the item's
    /// version; a lock gets one holder more and is shared from then on. Its time is over `timeout` ticks from now.
    pub fn lock(&mut self, now: Tick, timeout: u32) -> Tick
        requires late { now ≤ 2 ^ 62 }
        requires few { holders_in (shown self.old) < now }
        ensures slot { self.new ≡ locked timeout now self.old }
        ensures id { result ≡ (Regions.lock timeout (shown self.old) None now).id }
    {
        match self {
            Slot::Item { row, .. } => {
                let version = row.version;
                *self = Slot::taken(version, now, timeout);
                now
            }
            Slot::Lock {
                id,
                timeout: end,
                holders,
                shared,
                ..
            } => {
                *end = Tick(now.0 + timeout as u64);
                *holders += 1;
                *shared = true;
                *id
            }
        }
    }

    /// One holder lets go. There must be one. If none is left, the lock is free from now on. Answers how many are left.
    pub fn release(&mut self, now: Tick) -> u64
        requires { is_held (shown self.old) ≡ true }
        ensures slot { self.new ≡ released now self.old }
        ensures left { result ≡ holders_in (shown self.new) }
    {
        match self {
            Slot::Item { .. } => 0,
            Slot::Lock {
                holders,
                unlock,
                ..
            } => {
                *holders -= 1;
                if *holders == 0 {
                    *unlock = now;
                }
                *holders
            }
        }
    }
}
