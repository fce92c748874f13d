// A gate before each step of a worker, for checks that hold a thread at a place. The program's is open.
ghost use Rattle.std.specs.Prelude.{◌≡◌, Bool, true, false};

use hib_base::SessionNo;

/// Holds a worker before a step.
pub trait Gate: Sync {
    /// Whether it may hold a worker.
    ghost holds: { Self → Bool };

    /// Called before each step, with the session and the number of its entries so far, or 4294967295 if there
    /// are more. It promises nothing.
    fn pass(&self, session: SessionNo, place: u32);

    /// Whether it may hold a worker. Then it has to be passed before each step, and with no lock. A worker that keeps a
    /// lock for several steps passes a gate that never holds anyone once for all of them.
    fn may_hold(&self) -> bool
        ensures { result ≡ holds self.now };
}

/// Holds nobody.
#[derive(Clone, Copy, Debug, PartialEq, Eq)]
pub struct OpenGate;

impl Gate for OpenGate {
    ghost holds = { λ _. false };

    /// Returns at once.
    fn pass(&self, _session: SessionNo, _place: u32) {}

    /// It never holds a worker.
    fn may_hold(&self) -> bool
        ensures { result ≡ false }
    {
        false
    }
}
