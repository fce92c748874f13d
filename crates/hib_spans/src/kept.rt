// What is known at an entry of the entries before it: the transactions that are open, and the locks that are held.
ghost use Rattle.std.specs.Prelude.{◌≡◌, OnErr};

use hib_base::{Act, Entry, Key, SessionNo};
use std::alloc::{AllocError, Global};
use std::collections::BTreeMap;

/// A transaction that has begun.
#[derive(Clone, Copy, Debug, PartialEq, Eq)]
pub struct Begun {
    /// The track of its session.
    pub track: u64,
    /// When it began.
    pub tick: u64,
}

/// The transactions that are open, and the locks that are held, by the tracks of their sessions.
#[derive(Drop)]
pub struct Kept {
    /// When the open transaction of a session began.
    times: BTreeMap<u64, u64>,
    /// The transactions that have begun since the last restart.
    begun: Vec<Begun>,
    /// When a session has locked a key.
    locks: BTreeMap<(u64, Key), u64>,
}

/// The number of a session's track.
fn track(session: SessionNo) -> u64 {
    u64::from(session.0) + 1
}

/// The track on which an entry begins a transaction.
pub fn begun_by(entry: &Entry) -> Option<u64> {
    match (&entry.act, entry.session) {
        (Act::Begin, Some(session)) => Some(track(session)),
        _ => None,
    }
}

/// The track whose transaction an entry ends, if it names one.
fn ended_by(entry: &Entry) -> Option<u64> {
    match &entry.act {
        Act::End => match entry.session {
            Some(session) => Some(track(session)),
            None => None,
        },
        Act::Kill { session } => Some(track(*session)),
        _ => None,
    }
}

/// The key that an entry locks.
pub fn locked_by(entry: &Entry) -> Option<Key> {
    match &entry.act {
        Act::Lock { key, .. } => Some(*key),
        _ => None,
    }
}

/// The key whose lock an entry gives back.
pub fn unlocked_by(entry: &Entry) -> Option<Key> {
    match &entry.act {
        Act::Unlock { key, .. } => Some(*key),
        Act::AfterUpdate { key, .. } => Some(*key),
        _ => None,
    }
}

impl Kept {
    /// Before the first entry.
    pub fn new(alloc: Global) -> Kept {
        Kept {
            times: BTreeMap::new(alloc),
            begun: Vec::new(alloc),
            locks: BTreeMap::new(alloc),
        }
    }

    /// When the open transaction of a track began, if it has one.
    pub fn time(&self, track: u64) -> Option<u64> {
        self.times.get(&track).copied()
    }

    /// When the session of a track has locked a key, if it holds the lock.
    pub fn lock(&self, track: u64, key: &Key) -> Option<u64> {
        self.locks.get(&(track, *key)).copied()
    }

    /// The transactions that an entry ends, those that began first before the others.
    pub fn ended(&self, alloc: Global, entry: &Entry) -> Result<Vec<Begun>, AllocError> {
        if let Act::Restart = entry.act {
            return self.open(alloc);
        }
        let mut ended = Vec::new(alloc);
        if let Some(track) = ended_by(entry) {
            if let Some(tick) = self.time(track) {
                ended.push(Begun { track, tick })?;
            }
        }
        Ok(ended)
    }

    /// The transactions that are open, those that began first before the others.
    pub fn open(&self, alloc: Global) -> Result<Vec<Begun>, AllocError> {
        let mut open = Vec::new(alloc);
        for begun in self.begun.iter() {
            if self.time(begun.track) == Some(begun.tick) {
                open.push(*begun)?;
            }
        }
        Ok(open)
    }

    /// A transaction begins. At an error none is open that wasn't, since no time was noted.
    fn begin(&mut self, track: u64, tick: u64) -> Result<(), AllocError>
        ensures times { OnErr result (self.new.times.entries ≡ self.old.times.entries) }
        ensures locks { self.new.locks.entries ≡ self.old.locks.entries }
    {
        self.begun.push(Begun { track, tick })?;
        self.times.insert(track, tick)?;
        Ok(())
    }

    /// Takes an entry, whose session has this track.
    pub fn note(&mut self, entry: &Entry, track: u64) -> Result<(), AllocError> {
        if let Act::Restart = entry.act {
            self.times.clear();
            self.locks.clear();
            self.begun.clear();
            return Ok(());
        }
        if let Some(ended) = ended_by(entry) {
            self.times.remove(&ended);
        }
        if let Some(begun) = begun_by(entry) {
            self.begin(begun, entry.tick.0)?;
        }
        if let Some(key) = locked_by(entry) {
            self.locks.insert((track, key), entry.tick.0)?;
        }
        if let Some(key) = unlocked_by(entry) {
            self.locks.remove(&(track, key));
        }
        Ok(())
    }
}
