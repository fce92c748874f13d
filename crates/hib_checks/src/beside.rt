// A keeper and a gate that wait for each other: a read waits until another session goes on, and that session until a
// read has begun.
ghost use Rattle.std.specs.Prelude.{◌≡◌, None, true};

use hib_base::{Change, EntityNo, Key, Mapping, Row, Rows, Seq, SessionNo};
use hib_outside::{Applied, Gate, KeepFault, Keeper};
use std::alloc::Global;
use std::sync::atomic::{AtomicBool, Ordering};
use std::thread;

/// How often it is looked whether somebody may go on, before it is let go in vain.
const TURNS: u32 = 1_000_000;

/// Where a read and session 1 meet.
#[derive(Drop)]
pub struct Meeting {
    /// A read has begun.
    is_reading: AtomicBool,
    /// Session 1 has passed place 1.
    has_passed: AtomicBool,
    /// Somebody was let go in vain.
    is_late: AtomicBool,
}

impl Meeting {
    /// Nobody has come yet.
    pub fn new() -> Meeting {
        Meeting {
            is_reading: AtomicBool::new(false),
            has_passed: AtomicBool::new(false),
            is_late: AtomicBool::new(false),
        }
    }

    /// Whether a read has begun and session 1 has passed place 1, and nobody was let go in vain.
    pub fn came(&self) -> bool {
        self.is_reading.load(Ordering::SeqCst)
            && self.has_passed.load(Ordering::SeqCst)
            && !self.is_late.load(Ordering::SeqCst)
    }

    /// Waits for one of the two.
    fn wait_for(&self, flag: &AtomicBool) {
        for _ in 0..TURNS {
            if flag.load(Ordering::SeqCst) {
                return;
            }
            thread::yield_now();
        }
        self.is_late.store(true, Ordering::SeqCst);
    }
}

impl Gate for Meeting {
    ghost holds = { λ _. true };

    fn pass(&self, session: SessionNo, place: u32) {
        match (session.0, place) {
            (1, 0) => self.wait_for(&self.is_reading),
            (1, 1) => self.has_passed.store(true, Ordering::SeqCst),
            _ => {}
        }
    }

    fn may_hold(&self) -> bool
        ensures { result ≡ true }
    {
        true
    }
}

/// A keeper without rows that tells nothing. A read waits until session 1 has passed place 1.
#[derive(Drop)]
pub struct Waiting<'a> {
    meeting: &'a Meeting,
    asked: u64,
}

impl<'a> Waiting<'a> {
    /// It was asked for nothing yet.
    pub fn new(meeting: &'a Meeting) -> Waiting<'a> {
        Waiting { meeting, asked: 0 }
    }
}

impl Keeper for Waiting<'_> {
    ghost tables = { λ _. None };

    ghost faults = { λ _. 0 };

    ghost asked = { λ k. k.asked };

    ghost ordered = { λ _. tt };

    fn seed(
        &mut self,
        alloc: Global,
        mapping: &Mapping,
        rows: &[(Key, Row)],
    ) -> Result<(), KeepFault> {
        let _ = alloc;
        let _ = mapping;
        let _ = rows;
        Ok(())
    }

    fn read(&mut self, alloc: Global, key: Key) -> Result<Option<Row>, KeepFault> {
        let _ = alloc;
        let _ = key;
        self.asked = self.asked.saturating_add(1);
        self.meeting.is_reading.store(true, Ordering::SeqCst);
        self.meeting.wait_for(&self.meeting.has_passed);
        Ok(None)
    }

    fn list(&mut self, alloc: Global, entities: &[EntityNo]) -> Result<Rows, KeepFault> {
        let _ = entities;
        self.asked = self.asked.saturating_add(1);
        Ok(Seq::new(alloc))
    }

    fn apply(&mut self, alloc: Global, batch: &[Change]) -> Result<Applied, KeepFault> {
        let _ = alloc;
        let _ = batch;
        Ok(Applied::Done)
    }
}
