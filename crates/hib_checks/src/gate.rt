// A gate that watches which places sessions pass, and may hold two of them until each sees the other run beside it. A
// place is the number of steps that a session has made.
ghost use Rattle.std.specs.Prelude.{◌≡◌, true};

use hib_base::SessionNo;
use hib_outside::Gate;
use std::sync::atomic::{AtomicU64, Ordering};
use std::thread;

/// How often a session that is held looks whether it may go on, before it is let go in vain.
const TURNS: u32 = 1_000_000;

/// How far a session has come.
#[derive(Drop)]
struct Course {
    /// How many places it has passed.
    passed: AtomicU64,
    /// How often it was held.
    held: AtomicU64,
}

impl Course {
    fn new() -> Course {
        Course {
            passed: AtomicU64::new(0),
            held: AtomicU64::new(0),
        }
    }

    /// It passes a place; whether that is the next one.
    fn pass(&self, place: u32) -> bool {
        self.passed.fetch_add(1, Ordering::SeqCst) == u64::from(place)
    }

    /// Whether it has passed a place.
    fn has_passed(&self, place: u32) -> bool {
        self.passed.load(Ordering::SeqCst) > u64::from(place)
    }
}

/// Watches each pass. It may hold session 0 at place 2 until session 1 has passed place 3, and session 1 at place 1
/// until session 0 has passed place 1; sessions that run one after the other are held in vain.
#[derive(Drop)]
pub struct Turnstile {
    holds: bool,
    first: Course,
    second: Course,
    /// How many passes there were, of all sessions.
    passes: AtomicU64,
    /// How often a session passed another place than its next, or was held in vain.
    astray: AtomicU64,
}

impl Turnstile {
    /// Nobody has come yet.
    pub fn new(holds: bool) -> Turnstile {
        Turnstile {
            holds,
            first: Course::new(),
            second: Course::new(),
            passes: AtomicU64::new(0),
            astray: AtomicU64::new(0),
        }
    }

    /// Whether there were this many passes, in order, and nobody was held in vain.
    pub fn was_passed(&self, times: usize) -> bool {
        self.astray.load(Ordering::SeqCst) == 0
            && self.passes.load(Ordering::SeqCst) == times as u64
    }

    /// Whether each of the two sessions was held once.
    pub fn has_held(&self) -> bool {
        self.first.held.load(Ordering::SeqCst) == 1 && self.second.held.load(Ordering::SeqCst) == 1
    }

    /// Counts what went astray.
    fn note(&self, is_right: bool) {
        if !is_right {
            self.astray.fetch_add(1, Ordering::SeqCst);
        }
    }

    /// Holds a session until the other has passed a place, and answers whether it has.
    fn hold(&self, session: &Course, other: &Course, place: u32) -> bool {
        session.held.fetch_add(1, Ordering::SeqCst);
        for _ in 0..TURNS {
            if other.has_passed(place) {
                return true;
            }
            thread::yield_now();
        }
        false
    }
}

impl Gate for Turnstile {
    ghost holds = { λ _. true };

    fn pass(&self, session: SessionNo, place: u32) {
        if self.holds {
            match (session.0, place) {
                (0, 2) => self.note(self.hold(&self.first, &self.second, 3)),
                (1, 1) => self.note(self.hold(&self.second, &self.first, 1)),
                _ => {}
            }
        }
        self.passes.fetch_add(1, Ordering::SeqCst);
        match session.0 {
            0 => self.note(self.first.pass(place)),
            1 => self.note(self.second.pass(place)),
            _ => {}
        }
    }

    fn may_hold(&self) -> bool
        ensures { result ≡ true }
    {
        true
    }
}
